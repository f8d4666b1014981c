//! Rows that are one text: its tokens, how many they are, the version at its front, whether it is an identifier.

use crate::spelling::text_of;
use crate::tokens::faults::fault_text;
use crate::tokens::kinds::word_of;
use std::alloc::{AllocError, Global};
use wit_syntax::{Span, SpannedToken, SyntaxFault, Token, Tokens, validate_id};

/// What is asked of a text.
#[derive(Clone, Copy)]
pub enum Question {
    /// `= tokens` or `= tokens at OFFSET`: its tokens, each with its place, where it begins at the offset.
    Tokens {
        /// Where the text begins.
        offset: u32,
    },
    /// `= count`: how many tokens and faults its tokens give.
    Count,
    /// `= version`: the version at its front.
    Version,
    /// `= identifier`: whether it is one.
    Identifier,
}

/// The answer to a row.
pub fn answer(alloc: Global, question: Question, row: &str) -> Result<Option<String>, AllocError> {
    let Some(text) = text_of(alloc, row)? else {
        return Ok(None);
    };
    let answer = match question {
        Question::Tokens { offset } => tokens(alloc, &text, offset),
        Question::Count => count(alloc, &text),
        Question::Version => version(alloc, &text),
        Question::Identifier => identifier(alloc, &text),
    };
    Ok(Some(answer?))
}

/// What the tokens of a text give, one by one. They are asked for more often than they can answer, since nothing is to
/// come behind their end.
fn tokens(alloc: Global, text: &str, offset: u32) -> Result<String, AllocError> {
    let mut tokens = match Tokens::new(text, offset) {
        Ok(tokens) => tokens,
        Err(fault) => return fault_text(alloc, fault),
    };
    let mut out = String::new(alloc);
    for _ in 0..text.len().saturating_add(3) {
        if let Some(item) = tokens.next() {
            let separator = if out.is_empty() { "" } else { ", " };
            out.push_str(separator)?;
            out.push_str(item_text(alloc, item)?.as_str())?;
        }
    }
    if out.is_empty() {
        out.push_str("nothing")?;
    }
    Ok(out)
}

/// A token and its place, or a fault.
fn item_text(
    alloc: Global,
    item: Result<SpannedToken<'_>, SyntaxFault>,
) -> Result<String, AllocError> {
    match item {
        Ok(SpannedToken { token, span }) => {
            let (kind, text) = token_text(token);
            let Span { start, end } = span;
            format!(in alloc; "{kind}{text} [{start}..{end}]")
        }
        Err(fault) => fault_text(alloc, fault),
    }
}

/// What a token is, and what it says.
fn token_text(token: Token<'_>) -> (&'static str, &str) {
    match token {
        Token::Plain(kind) => ("", word_of(kind)),
        Token::Number(text) => ("number ", text),
        Token::Version(text) => ("version ", text),
        Token::Id(text) => ("id ", text),
        Token::ExplicitId(text) => ("id %", text),
    }
}

/// How many tokens and faults the tokens of a text give.
fn count(alloc: Global, text: &str) -> Result<String, AllocError> {
    match Tokens::new(text, 0) {
        Ok(tokens) => {
            let count = tokens.count();
            format!(in alloc; "{count}")
        }
        Err(fault) => fault_text(alloc, fault),
    }
}

/// The version at the front of a text.
fn version(alloc: Global, text: &str) -> Result<String, AllocError> {
    match first_version(text) {
        Some(version) => String::from_str(alloc, version),
        None => String::from_str(alloc, "no version"),
    }
}

fn first_version(text: &str) -> Option<&str> {
    match Tokens::new(text, 0).ok()?.next()? {
        Ok(
            SpannedToken {
                token: Token::Version(version),
                ..
            },
        ) => Some(version),
        _ => None,
    }
}

/// Whether a text is an identifier.
fn identifier(alloc: Global, text: &str) -> Result<String, AllocError> {
    match validate_id(text) {
        Ok(()) => String::from_str(alloc, "ok"),
        Err(fault) => fault_text(alloc, fault),
    }
}
