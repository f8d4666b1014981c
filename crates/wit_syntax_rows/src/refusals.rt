//! Rows that say whether a text is read, and where it is refused.

use crate::outcome::{Call, Outcome, outcome_of};
use crate::spelling::marked;
use std::alloc::{AllocError, Global};
use wit_syntax::Span;

/// How rows are read: by which call, where, and between which texts.
#[derive(Drop)]
pub struct Frame {
    /// The call.
    pub call: Call,
    /// Where each text begins, if that is said.
    pub offset: Option<u32>,
    /// What stands in front of each row.
    pub front: String,
    /// What stands behind it.
    pub back: String,
}

/// A row with how its text is read.
pub fn refusal_row(
    alloc: Global,
    frame: &Frame,
    row: &str,
    text: &str,
) -> Result<String, AllocError> {
    let front = frame.front.as_str();
    let back = frame.back.as_str();
    let whole = format!(in alloc; "{front}{text}{back}")?;
    let outcome = outcome_of(alloc, frame.call, &whole, frame.offset.unwrap_or(0));
    let answer = outcome_row(alloc, outcome, front.len(), row)?;
    if frame.call == Call::File && frame.offset.is_none() {
        let moved = outcome_of(alloc, frame.call, &whole, 1000);
        if moved != outcome {
            let other = outcome_row(alloc, moved, front.len(), row)?;
            return format!(in alloc; "{answer}! at 1000: {other}");
        }
    }
    Ok(answer)
}

/// A row behind the code of an outcome, with a mark at each end of its place, or one where that is empty; `front` bytes of
/// the text stand in front of the row. An end that can't be marked is written as a number, which counts from the text's
/// beginning.
fn outcome_row(
    alloc: Global,
    outcome: Outcome,
    front: usize,
    row: &str,
) -> Result<String, AllocError> {
    let code = outcome.code();
    let Some(Span { start, end }) = outcome.place() else {
        return format!(in alloc; "{code} {row}\n");
    };
    if let Some(first) = (start as usize).checked_sub(front) {
        let last = (end as usize).saturating_sub(front);
        if let Some(shown) = marked_between(alloc, row, first, last)? {
            return format!(in alloc; "{code} {shown}\n");
        }
        if let Some(shown) = marked(alloc, row, &[first])? {
            return format!(in alloc; "{code} up to {end} {shown}\n");
        }
    }
    format!(in alloc; "{code} at {start}..{end} {row}\n")
}

/// A row with marks at both places of its text, or one where they are the same, if it has them.
fn marked_between(
    alloc: Global,
    row: &str,
    first: usize,
    last: usize,
) -> Result<Option<String>, AllocError> {
    if first == last {
        marked(alloc, row, &[first])
    } else {
        marked(alloc, row, &[first, last])
    }
}
