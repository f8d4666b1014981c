//! Identifiers.

ghost use Rattle.std.specs.Prelude.{◌≡◌, ◌≤◌, ◌^◌, length, Err, IfOk, IfErr};
ghost use Rattle.std.specs.Bool.{Decides};
ghost use Rattle.wit_words.specs.Identifier as spec;
ghost use Rattle.wit_words.specs.IdFault.{IsIdFault};
ghost use Rattle.wit_words.specs.Identifier.{IsIdentifier};

use crate::fault::{Rule, SyntaxFault};
use crate::source_map::Span;

/// How much of an identifier has been read.
#[derive(Clone, Copy)]
pub enum Part {
    /// Nothing.
    Start,
    /// Some words and the hyphen behind them.
    Hyphen,
    /// A last word that has digits alone.
    Digits,
    /// A last word that has small letters.
    Small,
    /// A last word that has capital letters.
    Capital,
}

fn letter(byte: u8) -> Option<Part>
    ensures { result ≡ spec.letter byte }
{
    if byte.is_ascii_lowercase() {
        Some(Part::Small)
    } else if byte.is_ascii_uppercase() {
        Some(Part::Capital)
    } else {
        None
    }
}

/// What an identifier is read to by one more byte, if it goes on so.
fn next(part: Part, byte: u8) -> Option<Part>
    ensures { result ≡ spec.next part byte }
{
    let is_digit = byte.is_ascii_digit();
    match part {
        Part::Start => letter(byte),
        Part::Hyphen if is_digit => Some(Part::Digits),
        Part::Hyphen => letter(byte),
        _ if byte == b'-' => Some(Part::Hyphen),
        Part::Digits if is_digit => Some(Part::Digits),
        Part::Digits => letter(byte),
        Part::Small if is_digit || byte.is_ascii_lowercase() => Some(Part::Small),
        Part::Capital if is_digit || byte.is_ascii_uppercase() => Some(Part::Capital),
        _ => None,
    }
}

fn ends(part: Part) -> bool
    ensures { result ≡ spec.ends part }
{
    matches!(part, Part::Digits | Part::Small | Part::Capital)
}

/// Whether `text` is an identifier: words joined by hyphens, each of letters of one case and digits, of which the first
/// begins with a letter (WIT, Identifiers).
pub fn is_identifier(text: &str) -> bool
    ensures decides { Decides result (IsIdentifier text.now) }
    ensures same { result ≡ spec.is_identifier text.now }
{
    goes_on_to_the_end(text)
}

/// `Ok` where `text` is an identifier, and else S4 for the whole of it. A text of more than 4,294,967,295 bytes, for which
/// there is no span, is S8 whatever it says.
pub fn validate_id(text: &str) -> Result<(), SyntaxFault>
    ensures ok { IfOk result (λ _. IsIdentifier text.now) }
    ensures cause { IfErr result (IsIdFault text.now) }
    ensures large { 2 ^ 32 ≤ length text.now → result ≡ Err SyntaxFault.TooLarge }
{
    let Ok(end) = u32::try_from(text.len()) else {
        return Err(SyntaxFault::TooLarge);
    };
    if is_identifier(text) {
        Ok(())
    } else {
        Err(SyntaxFault::Broken {
            rule: Rule::BadIdentifier,
            span: Span { start: 0, end },
        })
    }
}

/// Whether `text` goes on byte by byte as an identifier, up to the end of a word.
#[tactic(auto, unfolding(crate::specs::Identifier::is_identifier))]
fn goes_on_to_the_end(text: &str) -> bool
    ensures { result ≡ spec.is_identifier text.now }
{
    let mut part = Part::Start;
    for byte in text.as_bytes() {
        let Some(after) = next(part, *byte) else {
            return false;
        };
        part = after;
    }
    ends(part)
}
