//! Rows of arenas.

use crate::row_fault::RowFault;
use std::alloc::{AllocError, Global};
use std::fmt::Write;
use wit_types::{Arena, Stored};

/// A name in an arena.
#[derive(Drop)]
struct Named {
    name: String,
}

/// Says that an id is a name's.
enum NamedTag {}

impl Stored for Named {
    type Tag = NamedTag;
}

/// Puts a name into an arena, and writes its id and what stands there.
fn push_one(
    alloc: Global,
    arena: &mut Arena<Named>,
    out: &mut String,
    word: &str,
) -> Result<(), AllocError> {
    let name = String::from_str(alloc, word)?;
    let id = arena.alloc(Named { name })?;
    let index = id.index();
    let found = arena.get(id).name.as_str();
    write!(out, "{index} {found}, ")
}

/// Puts names into an arena, and writes each.
fn arena_of(alloc: Global, words: &str, out: &mut String) -> Result<Arena<Named>, AllocError> {
    let mut arena = Arena::new(alloc);
    for word in words.split_whitespace() {
        push_one(alloc, &mut arena, out, word)?;
    }
    Ok(arena)
}

/// The answer to a row.
pub fn answer(alloc: Global, row: &str) -> Result<String, RowFault> {
    let mut out = String::new(alloc);
    let arena = arena_of(alloc, row, &mut out)?;
    push_all(&arena, &mut out)?;
    Ok(out)
}

/// Writes how many names an arena has, and these, each behind a blank.
fn push_all(arena: &Arena<Named>, out: &mut String) -> Result<(), AllocError> {
    let len = arena.len();
    write!(out, "{len}:")?;
    for named in arena.iter() {
        out.push(' ')?;
        out.push_str(named.name.as_str())?;
    }
    Ok(())
}
