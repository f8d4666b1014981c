//! How rows spell texts: by themselves, with Rust's escapes `\n`, `\r`, `\t`, `\\` and `\u{..}`. `\^` spells a `^`, which
//! marks a place where it stands by itself; `\{COUNT TEXT}` spells the text so many times; and `""` spells the empty text.

use std::alloc::{AllocError, Global};
use std::fmt::Write;

/// A part of what is spelled.
#[derive(Clone, Copy)]
enum Step<'a> {
    /// A character by itself.
    Plain(char),
    /// A character by an escape of one letter.
    Short {
        /// The letter.
        letter: char,
        /// What it stands for.
        character: char,
    },
    /// A character by its number.
    Numbered {
        /// The number's digits.
        digits: &'a str,
        /// The character.
        character: char,
    },
    /// A text so many times.
    Repeated {
        /// How many.
        count: u32,
        /// The text.
        text: &'a str,
    },
}

impl Step<'_> {
    /// Adds the text that is spelled.
    fn write_text(&self, out: &mut String) -> Result<(), AllocError> {
        match self {
            Step::Plain(character)
            | Step::Short { character, .. }
            | Step::Numbered { character, .. } => out.push(*character),
            Step::Repeated { count, text } => {
                for _ in 0..*count {
                    out.push_str(text)?;
                }
                Ok(())
            }
        }
    }

    /// Adds how it is spelled.
    fn write_spelling(&self, out: &mut String) -> Result<(), AllocError> {
        match self {
            Step::Plain(character) => out.push(*character),
            Step::Short { letter, .. } => write!(out, "\\{letter}"),
            Step::Numbered { digits, .. } => write!(out, "\\u{{{digits}}}"),
            Step::Repeated { count, text } => write!(out, "\\{{{count} {text}}}"),
        }
    }
}

/// The first part of what is spelled, and what stands behind it.
fn first_step(spelled: &str) -> Option<(Step<'_>, &str)> {
    let mut characters = spelled.chars();
    let first = characters.next()?;
    let rest = characters.as_str();
    match first {
        '\\' => escape(rest),
        '^' => None,
        character => Some((Step::Plain(character), rest)),
    }
}

/// The escape whose `\` stands in front, and what stands behind it.
fn escape(behind: &str) -> Option<(Step<'_>, &str)> {
    let mut characters = behind.chars();
    let letter = characters.next()?;
    let rest = characters.as_str();
    let character = match letter {
        'n' => '\n',
        'r' => '\r',
        't' => '\t',
        '\\' => '\\',
        '^' => '^',
        'u' => return numbered(rest),
        '{' => return repeated(rest),
        _ => return None,
    };
    Some((Step::Short { letter, character }, rest))
}

/// The character that `{..}` stands for by its number, and what stands behind.
fn numbered(text: &str) -> Option<(Step<'_>, &str)> {
    let (digits, rest) = text.strip_prefix('{')?.split_once('}')?;
    let number = u32::from_str_radix(digits, 16).ok()?;
    let character = char::from_u32(number)?;
    Some((Step::Numbered { digits, character }, rest))
}

/// The text and its count, of which the closing brace is the end, and what stands behind.
fn repeated(text: &str) -> Option<(Step<'_>, &str)> {
    let (inside, rest) = text.split_once('}')?;
    let (digits, text) = inside.split_once(' ')?;
    let count = digits.parse().ok()?;
    Some((Step::Repeated { count, text }, rest))
}

/// The text that a row spells.
pub fn text_of(alloc: Global, row: &str) -> Result<Option<String>, AllocError> {
    let mut text = String::new(alloc);
    let mut rest = if row == "\"\"" { "" } else { row };
    for _ in 0..row.len() {
        if rest.is_empty() {
            break;
        }
        let Some((step, behind)) = first_step(rest) else {
            return Ok(None);
        };
        step.write_text(&mut text)?;
        rest = behind;
    }
    Ok(Some(text))
}

/// A row of which the text of a front has been gone through.
#[derive(Drop)]
struct Walk<'a> {
    /// The front's text.
    text: String,
    /// How it is spelled.
    shown: String,
    /// What is spelled behind it.
    rest: &'a str,
}

impl Walk<'_> {
    /// Goes on until the front has so many bytes, and answers whether it ends there.
    fn go_to(&mut self, place: usize) -> Result<bool, AllocError> {
        for _ in 0..self.rest.len() {
            if self.text.len() >= place {
                break;
            }
            let Some((step, behind)) = first_step(self.rest) else {
                return Ok(false);
            };
            step.write_text(&mut self.text)?;
            step.write_spelling(&mut self.shown)?;
            self.rest = behind;
        }
        Ok(self.text.len() == place)
    }
}

/// A row with a `^` at each of these places of its text, which rise, if it has them.
pub fn marked(alloc: Global, row: &str, places: &[usize]) -> Result<Option<String>, AllocError> {
    let mut walk = Walk {
        text: String::new(alloc),
        shown: String::new(alloc),
        rest: if row == "\"\"" { "" } else { row },
    };
    for place in places {
        if !walk.go_to(*place)? {
            return Ok(None);
        }
        walk.shown.push('^')?;
    }
    let shown = walk.shown.as_str();
    let rest = walk.rest;
    Ok(Some(format!(in alloc; "{shown}{rest}")?))
}
