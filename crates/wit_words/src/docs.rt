//! Docs.

ghost use Rattle.std.specs.Prelude.{◌≡◌, ◌↔◌, ◌∷◌, List, ℕ, [], map, string_bytes, IfOk, IsTrue, MatchOption};
ghost use Rattle.std.specs.List.{join_by};
ghost use Rattle.std.specs.Str.{trim};
ghost use Rattle.wit_words.specs.Docs as spec;
ghost use Rattle.wit_words.specs.Docs.{IsBlock, docs_text, without_slashes};
ghost use Rattle.wit_words.specs.Token.{comment};

use crate::token::Comment;
use std::alloc::{AllocError, Global};

/// The docs of something: the comments `/// ..` and `/** .. */` that stand in front of it.
#[derive(Debug, Drop)]
pub struct Docs<'a> {
    /// The comments, in order.
    pub comments: Vec<Comment<'a>>,
}

impl<'a> Docs<'a> {
    /// Whether there are none.
    pub fn is_empty(&self) -> bool
        ensures { IsTrue result ↔ (self.now.comments.items ≡ []) }
    {
        self.comments.is_empty()
    }

    /// What the comments say, line by line: of `/// ..` what stands behind all its slashes in front, of `/** .. */` what
    /// stands between its marks, each without white space at its ends (Unicode's `White_Space`). Any other text says what
    /// `/// ..` would. A line feed stands between two lines, without a carriage return in front of it, and empty lines at
    /// the end go.
    pub fn contents(&self, alloc: Global) -> Result<String, AllocError>
        ensures { IfOk result (λ s. string_bytes s ≡ docs_text (map comment self.now.comments.items)) }
    {
        let mut lines = Vec::new(alloc);
        for comment in &self.comments {
            let mut more = lines_of(alloc, comment_text(comment.text))?;
            lines.append(&mut more)?;
        }
        joined(alloc, without_empty_end(&lines))
    }
}

/// The lines of what a comment says: one even where it says nothing.
fn lines_of(alloc: Global, text: &str) -> Result<Vec<&str>, AllocError>
    ensures { IfOk result (λ v. map (λ l. l.now) v.items ≡ spec.lines_of text.now) }
{
    if text.is_empty() {
        let mut lines = Vec::new(alloc);
        lines.push(text)?;
        return Ok(lines);
    }
    text.lines().collect(alloc)
}

/// Lines without the empty ones at the end.
fn without_empty_end<'a, 't>(lines: &'a [&'t str]) -> &'a [&'t str]
    ensures { map (λ l. l.now) result.now ≡ spec.without_empty_end (map (λ l. l.now) lines.entry.now) }
{
    let mut end = lines.len();
    while end > 0 && lines[end - 1].is_empty() {
        end -= 1;
    }
    &lines[..end]
}

/// Lines with a line feed between two.
fn joined(alloc: Global, lines: &[&str]) -> Result<String, AllocError>
    ensures { IfOk result (λ s. string_bytes s ≡ join_by (λ l. l.now) (10 ∷ []) lines.now) }
{
    let Some((first, others)) = lines.split_first() else {
        return Ok(String::new(alloc));
    };
    let mut contents = String::from_str(alloc, first)?;
    for line in others {
        contents.push('\n')?;
        contents.push_str(line)?;
    }
    Ok(contents)
}

/// What a comment says.
fn comment_text(comment: &str) -> &str
    ensures value { result.now ≡ spec.comment_text comment.entry.now }
    ensures block { (inside : List ℕ) → IsBlock comment.entry.now inside → result.now ≡ trim inside }
    ensures other { ((inside : List ℕ) → IsBlock comment.entry.now inside → ⊥) → result.now ≡ trim (without_slashes comment.entry.now) }
{
    match between_marks(comment) {
        Some(inside) => inside.trim(),
        None => without_slashes(comment).trim(),
    }
}

/// What stands between the marks of `/** .. */`.
fn between_marks(comment: &str) -> Option<&str>
    ensures { MatchOption result ((inside : List ℕ) → IsBlock comment.entry.now inside → ⊥) (λ s. IsBlock comment.entry.now s.now) }
{
    comment.strip_prefix("/**")?.strip_suffix("*/")
}

/// A text without the slashes in front.
fn without_slashes(text: &str) -> &str
    ensures { result.now ≡ without_slashes text.entry.now }
{
    text.trim_start_matches('/')
}
