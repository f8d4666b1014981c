//! Rows of the keys of worlds.

use crate::row_fault::{RowFault, made, readable};
use std::alloc::{AllocError, Global};
use std::hash::{DefaultHasher, Hash, Hasher};
use wit_types::{Id, WorldKey};

/// The key of a text: `name NAME` or `interface PLACE`.
fn key_of(alloc: Global, text: &str) -> Result<WorldKey, RowFault> {
    if let Some(name) = text.strip_prefix("name ") {
        return Ok(WorldKey::Name(String::from_str(alloc, name)?));
    }
    let digits = readable(text.strip_prefix("interface "))?;
    let index = readable(digits.parse::<usize>().ok())?;
    Ok(WorldKey::Interface(Id::from_index(index)))
}

fn hash_of(key: &WorldKey) -> u64 {
    let mut state = DefaultHasher::new();
    key.hash(&mut state);
    state.finish()
}

/// How two keys are alike.
fn likeness(a: &WorldKey, b: &WorldKey) -> &'static str {
    if *a != *b {
        "different"
    } else if hash_of(a) == hash_of(b) {
        "equal"
    } else {
        "! equal, but not hashed alike"
    }
}

/// The name, of a key that is one.
fn unwrapped(key: WorldKey) -> Option<String> {
    if let WorldKey::Name(name) = key {
        return Some(WorldKey::Name(name).unwrap_name());
    }
    None
}

/// What is said of a key.
fn key_text(alloc: Global, key: WorldKey) -> Result<String, AllocError> {
    let text = key.to_text(alloc)?;
    match unwrapped(key) {
        Some(name) => format!(in alloc; "{text}, of the name {name}"),
        None => Ok(text),
    }
}

/// How the keys of two texts are alike.
fn text_likeness(alloc: Global, first: &str, second: &str) -> Result<&'static str, RowFault> {
    let a = key_of(alloc, first)?;
    let b = key_of(alloc, second)?;
    Ok(likeness(&a, &b))
}

/// The answer to a row.
pub fn answer(alloc: Global, row: &str) -> Result<String, RowFault> {
    let (first, second) = readable(row.split_once(" ~ "))?;
    let likeness = text_likeness(alloc, first, second)?;
    let text = key_text(alloc, key_of(alloc, first)?)?;
    made(format!(in alloc; "{likeness}, {text}"))
}
