//! What can be asked of rows.

use crate::outcome::Call;
use crate::refusals::Frame;
use crate::spelling::text_of;
use crate::tokens::{TokensAsked, tokens_asked_by};
use std::alloc::{AllocError, Global};

/// What is asked of the rows behind a line `= ..`.
#[derive(Drop)]
pub enum Asked {
    /// `= file FRONT~BACK`, `= path FRONT~BACK` or `= type FRONT~BACK`: whether a call reads each row's text, between a
    /// text in front of it and one behind it. The row is answered by `ok`, or by the rule that refuses it, with a `^` where
    /// the text breaks that. Files are read at 0 and at 1000, or at what `= file at OFFSET FRONT~BACK` says.
    Refusal(Frame),
    /// `= cuts`: how `parse_file` reads each front of the row's text.
    Cuts,
    /// `= cuts of files by LENGTH`: how it reads the fronts of a file that have no bytes, so many, twice as many, and so
    /// on.
    CutsOfFiles(usize),
    /// `= trees of types`: the tree that `parse_type` reads.
    Types,
    /// `= trees of paths`: the tree that `parse_use_path` reads.
    Paths,
    /// `= trees of texts`: the tree that `parse_file` reads at 0, which is to be that which it reads far behind, but for
    /// where places count from.
    Texts,
    /// `= trees of files`: the tree of a file, which a row names.
    Files,
    /// `= texts one behind the other`: a row `PATH TEXT` is a text behind those of the rows before it; it is answered by
    /// `ok`, or by the line that says where it breaks which rule.
    Sources,
    /// `= equal types`: to which types of the rows before it each row's type is equal.
    Equality,
    /// What `tokens/asked.rt` lists.
    Tokens(TokensAsked),
}

/// What the words behind `= ` ask.
pub fn asked_by(alloc: Global, words: &str) -> Result<Option<Asked>, AllocError> {
    let asked = match words {
        "cuts" => Asked::Cuts,
        "trees of types" => Asked::Types,
        "trees of paths" => Asked::Paths,
        "trees of texts" => Asked::Texts,
        "trees of files" => Asked::Files,
        "texts one behind the other" => Asked::Sources,
        "equal types" => Asked::Equality,
        _ => return asked_with_words(alloc, words),
    };
    Ok(Some(asked))
}

/// What is asked by words that have more in them than what is asked.
fn asked_with_words(alloc: Global, words: &str) -> Result<Option<Asked>, AllocError> {
    if let Some(digits) = words.strip_prefix("cuts of files by ") {
        return Ok(digits.parse().ok().map(Asked::CutsOfFiles));
    }
    if let Some(asked) = tokens_asked_by(words) {
        return Ok(Some(Asked::Tokens(asked)));
    }
    Ok(frame_of(alloc, words)?.map(Asked::Refusal))
}

/// The call that a word names.
fn call_of(word: &str) -> Option<Call> {
    match word {
        "file" => Some(Call::File),
        "path" => Some(Call::Path),
        "type" => Some(Call::Type),
        _ => None,
    }
}

/// `at OFFSET TEXT`: the offset, and the text.
fn placed(words: &str) -> Option<(u32, &str)> {
    let (digits, text) = words.strip_prefix("at ")?.split_once(' ')?;
    Some((digits.parse().ok()?, text))
}

/// How rows are read, by `CALL FRONT~BACK` or `CALL at OFFSET FRONT~BACK`.
fn frame_of(alloc: Global, words: &str) -> Result<Option<Frame>, AllocError> {
    let Some((word, others)) = words.split_once(' ') else {
        return Ok(None);
    };
    let Some(call) = call_of(word) else {
        return Ok(None);
    };
    let (offset, texts) = match placed(others) {
        Some((offset, texts)) => (Some(offset), texts),
        None => (None, others),
    };
    let Some((front, back)) = texts.split_once('~') else {
        return Ok(None);
    };
    let (Some(front), Some(back)) = (text_of(alloc, front)?, text_of(alloc, back)?) else {
        return Ok(None);
    };
    Ok(Some(Frame {
        call,
        offset,
        front,
        back,
    }))
}
