//! Rows of how many flags or cases there are.

use crate::row_fault::{RowFault, made, readable};
use crate::samples::{no_docs, somewhere};
use std::alloc::{AllocError, Global};
use wit_types::{Case, Enum, EnumCase, Flag, Flags, FlagsRepr, Int, Variant};

/// What is asked of a number.
#[derive(Clone, Copy)]
pub enum Question {
    /// `= flags`: the integers that hold so many, and how many core values those are.
    Flags,
    /// `= cases of an enum`: its tag.
    Enum,
    /// `= cases of a variant`: its tag.
    Variant,
}

/// What words ask of a number.
pub fn question_by(words: &str) -> Option<Question> {
    match words {
        "flags" => Some(Question::Flags),
        "cases of an enum" => Some(Question::Enum),
        "cases of a variant" => Some(Question::Variant),
        _ => None,
    }
}

/// So many flags.
fn flags(alloc: Global, count: u32) -> Result<Flags, AllocError> {
    let mut flags = Vec::new(alloc);
    for _ in 0..count {
        let name = String::new(alloc);
        flags.push(Flag {
            docs: no_docs(),
            name,
            span: somewhere(),
        })?;
    }
    Ok(Flags { flags })
}

/// An enum of so many cases.
fn enum_of(alloc: Global, count: u32) -> Result<Enum, AllocError> {
    let mut cases = Vec::new(alloc);
    for _ in 0..count {
        let name = String::new(alloc);
        cases.push(EnumCase {
            docs: no_docs(),
            name,
            span: somewhere(),
        })?;
    }
    Ok(Enum { cases })
}

/// A variant of so many cases.
fn variant_of(alloc: Global, count: u32) -> Result<Variant, AllocError> {
    let mut cases = Vec::new(alloc);
    for _ in 0..count {
        let name = String::new(alloc);
        cases.push(Case {
            docs: no_docs(),
            name,
            ty: None,
            span: somewhere(),
        })?;
    }
    Ok(Variant { cases })
}

/// An integer's name.
fn int_text(int: Int) -> &'static str {
    match int {
        Int::U8 => "U8",
        Int::U16 => "U16",
        Int::U32 => "U32",
        Int::U64 => "U64",
    }
}

/// The integers that hold flags, and how many core values those are.
fn repr_text(alloc: Global, repr: FlagsRepr) -> Result<String, AllocError> {
    let count = repr.count();
    match repr {
        FlagsRepr::U8 => format!(in alloc; "U8, in {count}"),
        FlagsRepr::U16 => format!(in alloc; "U16, in {count}"),
        FlagsRepr::U32(words) => format!(in alloc; "U32({words}), in {count}"),
    }
}

/// The answer to a row.
pub fn answer(alloc: Global, question: Question, row: &str) -> Result<String, RowFault> {
    let count = readable(row.parse::<u32>().ok())?;
    made(match question {
        Question::Flags => repr_text(alloc, flags(alloc, count)?.repr()),
        Question::Enum => String::from_str(alloc, int_text(enum_of(alloc, count)?.tag())),
        Question::Variant => String::from_str(alloc, int_text(variant_of(alloc, count)?.tag())),
    })
}
