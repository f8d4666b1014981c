//! How rows spell bytes and texts.

use std::alloc::{AllocError, AllocFailed, Global};

/// Why a line is no row.
#[derive(Drop)]
pub enum RowFault {
    /// It isn't one of them.
    Unreadable,
    /// A request for memory was refused.
    OutOfMemory,
}

impl From<AllocError> for RowFault {
    fn from(_e: AllocError) -> RowFault {
        RowFault::OutOfMemory
    }
}

impl<T: Drop> From<AllocFailed<T>> for RowFault {
    fn from(_e: AllocFailed<T>) -> RowFault {
        RowFault::OutOfMemory
    }
}

/// What stands there, or a fault where nothing does.
pub fn readable<T>(found: Option<T>) -> Result<T, RowFault> {
    match found {
        Some(value) => Ok(value),
        None => Err(RowFault::Unreadable),
    }
}

/// Where an escape stands in front of a text, its character and what follows it.
fn escape(text: &str) -> Option<(char, &str)> {
    if let Some(rest) = text.strip_prefix("u{") {
        let (digits, rest) = rest.split_once('}')?;
        let number = u32::from_str_radix(digits, 16).ok()?;
        return Some((char::from_u32(number)?, rest));
    }
    let mut characters = text.chars();
    let character = match characters.next()? {
        'n' => '\n',
        'r' => '\r',
        't' => '\t',
        '\\' => '\\',
        '"' => '"',
        _ => return None,
    };
    Some((character, characters.as_str()))
}

/// The text that a row spells with escapes.
pub fn unescaped(alloc: Global, text: &str) -> Result<String, RowFault> {
    let mut found = String::new(alloc);
    let mut rest = text;
    for _ in 0..text.len() {
        let Some((plain, behind)) = rest.split_once('\\') else {
            break;
        };
        found.push_str(plain)?;
        let (character, after) = readable(escape(behind))?;
        found.push(character)?;
        rest = after;
    }
    found.push_str(rest)?;
    Ok(found)
}

/// What stands between the quotation marks of a word.
pub fn inside_quotes(word: &str) -> Option<&str> {
    word.strip_prefix('"')?.strip_suffix('"')
}

/// The text that a word spells between quotation marks.
pub fn quoted(alloc: Global, word: &str) -> Result<String, RowFault> {
    unescaped(alloc, readable(inside_quotes(word))?)
}

/// The bytes that a row spells in hexadecimal.
pub fn bytes_of(alloc: Global, digits: &str) -> Result<Vec<u8>, RowFault> {
    match hex::decode(alloc, digits) {
        Ok(bytes) => Ok(bytes),
        Err(hex::FromHexError::OutOfMemory) => Err(RowFault::OutOfMemory),
        Err(_) => Err(RowFault::Unreadable),
    }
}

/// How a character is spelled between quotation marks where an escape stands for it.
pub fn escaped(character: char) -> Option<&'static str> {
    match character {
        '\n' => Some("\\n"),
        '\r' => Some("\\r"),
        '\t' => Some("\\t"),
        '\\' => Some("\\\\"),
        '"' => Some("\\\""),
        _ => None,
    }
}
