//! Rows of what types are called.

use crate::row_fault::{RowFault, made, readable};
use std::alloc::Global;
use wit_types::{Enum, Flags, Handle, Id, Record, Result_, Tuple, Type, TypeDefKind, Variant};

/// A type that has parts, with none.
fn with_parts(alloc: Global, word: &str) -> Option<TypeDefKind> {
    match word {
        "Record" => Some(TypeDefKind::Record(Record {
            fields: Vec::new(alloc),
        })),
        "Flags" => Some(TypeDefKind::Flags(Flags {
            flags: Vec::new(alloc),
        })),
        "Tuple" => Some(TypeDefKind::Tuple(Tuple {
            types: Vec::new(alloc),
        })),
        "Variant" => Some(TypeDefKind::Variant(Variant {
            cases: Vec::new(alloc),
        })),
        "Enum" => Some(TypeDefKind::Enum(Enum {
            cases: Vec::new(alloc),
        })),
        _ => None,
    }
}

/// A type that speaks of another, of `u8`.
fn of_another(word: &str) -> Option<TypeDefKind> {
    match word {
        "Option" => Some(TypeDefKind::Option(Type::U8)),
        "Result" => Some(TypeDefKind::Result(Result_ {
            ok: Some(Type::U8),
            err: None,
        })),
        "List" => Some(TypeDefKind::List(Type::U8)),
        "FixedLengthList" => Some(TypeDefKind::FixedLengthList(Type::U8, 4)),
        "Future" => Some(TypeDefKind::Future(None)),
        "Stream" => Some(TypeDefKind::Stream(Some(Type::U8))),
        "Alias" => Some(TypeDefKind::Alias(Type::U8)),
        _ => None,
    }
}

/// A resource, a reference to one, or what isn't known.
fn other(word: &str) -> Option<TypeDefKind> {
    match word {
        "Resource" => Some(TypeDefKind::Resource),
        "Own" => Some(TypeDefKind::Handle(Handle::Own(Id::from_index(0)))),
        "Borrow" => Some(TypeDefKind::Handle(Handle::Borrow(Id::from_index(0)))),
        "Unknown" => Some(TypeDefKind::Unknown),
        _ => None,
    }
}

/// The kind that a word names.
fn kind_by(alloc: Global, word: &str) -> Option<TypeDefKind> {
    if let Some(kind) = with_parts(alloc, word) {
        return Some(kind);
    }
    if let Some(kind) = of_another(word) {
        return Some(kind);
    }
    other(word)
}

/// The answer to a row.
pub fn answer(alloc: Global, row: &str) -> Result<String, RowFault> {
    let kind = readable(kind_by(alloc, row))?;
    made(String::from_str(alloc, kind.as_str()))
}
