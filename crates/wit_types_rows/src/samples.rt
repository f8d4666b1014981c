//! Parts that no answer speaks of.

use std::alloc::{AllocError, Global};
use wit_types::{Docs, Function, FunctionKind, Stability, TypeDef, TypeDefKind, TypeOwner};
use wit_words::Span;

/// Some place.
pub fn somewhere() -> Span {
    Span { start: 0, end: 0 }
}

/// No docs.
pub fn no_docs() -> Docs {
    Docs { contents: None }
}

/// A function of that name and kind, with nothing else.
pub fn function_of(alloc: Global, name: &str, kind: FunctionKind) -> Result<Function, AllocError> {
    Ok(Function {
        name: String::from_str(alloc, name)?,
        kind,
        params: Vec::new(alloc),
        result: None,
        docs: no_docs(),
        stability: Stability::default(),
        span: somewhere(),
    })
}

/// A type of that kind, with nothing else.
pub fn type_of(kind: TypeDefKind) -> TypeDef {
    TypeDef {
        name: None,
        kind,
        owner: TypeOwner::None,
        docs: no_docs(),
        stability: Stability::Unknown,
        span: somewhere(),
    }
}
