//! Which types are equal.

use std::alloc::{AllocError, Global};
use std::fmt::Write;
use wit_syntax::{Type, parse_type};

/// Types by their texts, in the order of their rows.
#[derive(Drop)]
pub struct Types {
    texts: Vec<String>,
}

/// How two types are alike, which is asked both ways.
fn likeness<'a>(a: &Type<'a>, b: &Type<'a>) -> Option<bool> {
    let equal = a == b;
    if equal == (b == a) { Some(equal) } else { None }
}

/// How the type of a text is like another.
fn likeness_to<'a>(alloc: Global, a: &Type<'a>, b: &'a str) -> Option<bool> {
    match parse_type(alloc, b) {
        Ok(b) => likeness(a, &b),
        Err(_) => None,
    }
}

/// How two texts are alike as types.
fn text_likeness<'a>(alloc: Global, a: &'a str, b: &'a str) -> Option<bool> {
    match parse_type(alloc, a) {
        Ok(a) => likeness_to(alloc, &a, b),
        Err(_) => None,
    }
}

impl Types {
    /// No types.
    pub fn new(alloc: Global) -> Types {
        Types {
            texts: Vec::new(alloc),
        }
    }

    /// Takes one more type, and answers its row behind its number, with the numbers of the types before it to which it is
    /// equal. What is no type, or isn't equal to itself, is marked.
    pub fn row(&mut self, alloc: Global, row: &str, text: String) -> Result<String, AllocError> {
        let number = self.texts.len().saturating_add(1);
        let mut out = format!(in alloc; "{number}. {row}")?;
        for (index, other) in self.texts.iter().enumerate() {
            let number = index.saturating_add(1);
            match text_likeness(alloc, other, &text) {
                Some(true) => write!(out, ", equal to {number}")?,
                Some(false) => {}
                None => write!(out, "! equal to {number} in one order, or no type")?,
            }
        }
        if text_likeness(alloc, &text, &text) != Some(true) {
            out.push_str("! not equal to itself")?;
        }
        self.texts.push(text)?;
        out.push('\n')?;
        Ok(out)
    }
}
