//! Texts that are too large to be written out: `COUNT FRONT ~ PART ~ BACK` is the front, the part once for each number from 1
//! to the count, and the back. In the part `$` is the number and `#` the one before it. They are answered by how much there is.

use crate::files::answer_large;
use std::alloc::{AllocError, Global};
use std::fmt::Write;
use wit_pages::Page;

/// How a large text is made.
#[derive(Clone, Copy)]
struct Pattern<'a> {
    count: u32,
    front: &'a str,
    part: &'a str,
    back: &'a str,
}

/// The pattern that words spell.
fn pattern_of(words: &str) -> Option<Pattern<'_>> {
    let (digits, texts) = words.split_once(' ')?;
    let (front, others) = texts.split_once('~')?;
    let (part, back) = others.split_once('~')?;
    Some(Pattern {
        count: digits.parse().ok()?,
        front,
        part,
        back,
    })
}

/// Writes the part for a number.
fn push_part(out: &mut String, part: &str, number: u32) -> Result<(), AllocError> {
    let before = number.saturating_sub(1);
    for character in part.chars() {
        match character {
            '$' => write!(out, "{number}")?,
            '#' => write!(out, "{before}")?,
            _ => out.push(character)?,
        }
    }
    Ok(())
}

/// The text of a pattern, behind other words.
fn text_of(alloc: Global, words: &str, pattern: Pattern<'_>) -> Result<String, AllocError> {
    let mut out = String::from_str(alloc, words)?;
    out.push_str(pattern.front)?;
    for index in 0..pattern.count {
        push_part(&mut out, pattern.part, index.saturating_add(1))?;
    }
    out.push_str(pattern.back)?;
    Ok(out)
}

/// The answer to a row that spells a pattern.
pub fn answer(page: &mut Page, front: &str, words: &str) {
    let Some(pattern) = pattern_of(words) else {
        return page.words("! cannot read this row\n");
    };
    match &text_of(page.alloc, front, pattern) {
        Ok(text) => answer_large(page, text),
        Err(_) => page.refuse(),
    }
}
