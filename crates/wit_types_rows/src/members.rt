//! Rows of docs, stabilities and the items of worlds.

use crate::row_fault::{RowFault, made, readable};
use crate::samples::{function_of, type_of};
use semver::Version;
use std::alloc::{AllocError, Global};
use wit_types::{Arena, Docs, FunctionKind, Id, Stability, TypeDef, TypeDefKind, WorldItem};
use wit_words::Span;

/// The stability that a word names: `unknown`, `unstable`, `stable` or `default`.
fn stability_by(alloc: Global, word: &str) -> Option<Stability> {
    match word {
        "unknown" => Some(Stability::Unknown),
        "default" => Some(Stability::default()),
        "unstable" => Some(Stability::Unstable {
            feature: String::new(alloc),
            deprecated: None,
        }),
        "stable" => Some(Stability::Stable {
            since: Version::new(1, 2, 3),
            deprecated: None,
        }),
        _ => None,
    }
}

/// What a stability says.
fn stability_text(stability: &Stability) -> &'static str {
    match (stability.is_unknown(), stability.is_stable()) {
        (true, false) => "unknown",
        (false, true) => "stable",
        (false, false) => "neither",
        (true, true) => "! both",
    }
}

/// Where each item stands.
const PLACE: Span = Span { start: 3, end: 9 };

/// A function of that stability.
fn function_item(alloc: Global, stability: Stability) -> Result<WorldItem, AllocError> {
    let mut function = function_of(alloc, "f", FunctionKind::Freestanding)?;
    function.stability = stability;
    function.span = PLACE;
    Ok(WorldItem::Function(function))
}

/// A type of that stability.
fn type_item(types: &mut Arena<TypeDef>, stability: Stability) -> Result<WorldItem, AllocError> {
    let mut ty = type_of(TypeDefKind::Resource);
    ty.stability = stability;
    let id = types.alloc(ty)?;
    Ok(WorldItem::TypeItem { id, span: PLACE })
}

/// The item that a word names, of that stability: `interface`, `function` or `type`.
fn item_by(
    alloc: Global,
    types: &mut Arena<TypeDef>,
    word: &str,
    stability: Stability,
) -> Result<WorldItem, AllocError> {
    match word {
        "interface" => Ok(WorldItem::Interface {
            id: Id::from_index(0),
            stability,
            span: PLACE,
        }),
        "function" => function_item(alloc, stability),
        _ => type_item(types, stability),
    }
}

/// The answer to a row.
pub fn answer(alloc: Global, row: &str) -> Result<String, RowFault> {
    if row == "no docs" {
        return made(docs_text(alloc, None));
    }
    match row.strip_prefix("docs ") {
        Some(text) => made(docs_text(alloc, Some(String::from_str(alloc, text)?))),
        None => stability_or_item(alloc, row),
    }
}

/// What is said of a stability, or of an item of one.
fn stability_or_item(alloc: Global, row: &str) -> Result<String, RowFault> {
    let (what, word) = readable(row.split_once(' '))?;
    let stability = readable(stability_by(alloc, word))?;
    if what == "stability" {
        made(String::from_str(alloc, stability_text(&stability)))
    } else {
        item_text(alloc, what, stability)
    }
}

/// Whether docs are empty.
fn docs_text(alloc: Global, contents: Option<String>) -> Result<String, AllocError> {
    let docs = Docs { contents };
    let text = if docs.is_empty() {
        "empty"
    } else {
        "not empty"
    };
    String::from_str(alloc, text)
}

/// The stability and the place of an item.
fn item_text(alloc: Global, word: &str, stability: Stability) -> Result<String, RowFault> {
    let mut types = Arena::new(alloc);
    let item = item_by(alloc, &mut types, word, stability)?;
    described(alloc, &item, &types)
}

/// What is said of an item.
fn described(alloc: Global, item: &WorldItem, types: &Arena<TypeDef>) -> Result<String, RowFault> {
    let span = item.span();
    let start = span.start;
    let end = span.end;
    if let WorldItem::TypeItem { id, .. } = item {
        if id.index() >= types.len() {
            return Err(RowFault::Unreadable);
        }
    }
    let text = stability_text(item.stability(types));
    made(format!(in alloc; "{text}, at {start}..{end}"))
}
