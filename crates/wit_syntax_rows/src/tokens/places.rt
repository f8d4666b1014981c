//! Rows of source maps.

use crate::spelling::text_of;
use std::alloc::{AllocError, Global};
use wit_syntax::{SourceFault, SourceMap, Span};

/// The answer to a row `push PATH TEXT` or `place START..END`.
pub fn answer(
    alloc: Global,
    sources: &mut SourceMap,
    row: &str,
) -> Result<Option<String>, AllocError> {
    match row.split_once(' ') {
        Some(("push", words)) => push(alloc, sources, words),
        Some(("place", words)) => {
            let Some(span) = span_of(words) else {
                return Ok(None);
            };
            Ok(Some(sources.render_location(span)?))
        }
        _ => Ok(None),
    }
}

/// Puts a text behind the others, and answers where it begins.
fn push(alloc: Global, sources: &mut SourceMap, words: &str) -> Result<Option<String>, AllocError> {
    let Some((path, spelled)) = words.split_once(' ') else {
        return Ok(None);
    };
    let Some(text) = text_of(alloc, spelled)? else {
        return Ok(None);
    };
    let answer = match sources.push(path, &text) {
        Ok(offset) => format!(in alloc; "{offset}"),
        Err(SourceFault::TooLarge) => String::from_str(alloc, "S8"),
        Err(SourceFault::OutOfMemory) => String::from_str(alloc, "out of memory"),
    };
    Ok(Some(answer?))
}

/// The span `START..END`.
fn span_of(words: &str) -> Option<Span> {
    let (start, end) = words.split_once("..")?;
    Some(Span {
        start: start.parse().ok()?,
        end: end.parse().ok()?,
    })
}
