//! Rows of docs.

use crate::spelling::text_of;
use std::alloc::{AllocError, Global};
use wit_syntax::{Comment, Docs, Span};

/// The comments of a row: texts with ` ~ ` between two of them.
fn comments_of(alloc: Global, row: &str) -> Result<Option<Vec<String>>, AllocError> {
    let mut comments = Vec::new(alloc);
    if row == "no comments" {
        return Ok(Some(comments));
    }
    for part in row.split(" ~ ") {
        let Some(comment) = text_of(alloc, part)? else {
            return Ok(None);
        };
        comments.push(comment)?;
    }
    Ok(Some(comments))
}

/// The docs that comments are.
fn docs_of(alloc: Global, texts: &[String]) -> Result<Docs<'_>, AllocError> {
    let mut comments = Vec::new(alloc);
    let span = Span { start: 0, end: 0 };
    for text in texts {
        let text = text.as_str();
        comments.push(Comment { text, span })?;
    }
    Ok(Docs { comments })
}

/// The answer to a row: what its comments say, between quotes.
pub fn answer(alloc: Global, row: &str) -> Result<Option<String>, AllocError> {
    let Some(comments) = comments_of(alloc, row)? else {
        return Ok(None);
    };
    let docs = docs_of(alloc, comments.as_slice())?;
    let contents = docs.contents(alloc)?;
    let kind = if docs.is_empty() { "empty " } else { "" };
    Ok(Some(format!(in alloc; "{kind}{contents:?}")?))
}
