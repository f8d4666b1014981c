//! Rows of tokens, names, docs and places: each is written again with its answer behind it.

mod asked;
mod documents;
mod faults;
mod kinds;
mod names;
mod places;
mod texts;

pub use crate::tokens::asked::{TokensAsked, tokens_asked_by};
use crate::tokens::names::Found;
use std::alloc::{AllocError, Global};
use wit_syntax::SourceMap;

/// What the rows are answered with.
#[derive(Drop)]
pub struct TokenRows<'a> {
    /// What the rows so far have put under names.
    found: Found<'a>,
    /// The texts that the rows so far have put one behind the other.
    sources: SourceMap,
}

impl<'a> TokenRows<'a> {
    /// Before the first row.
    pub fn new(alloc: Global) -> TokenRows<'a> {
        TokenRows {
            found: Found::new(alloc),
            sources: SourceMap::new(alloc),
        }
    }

    /// The answer to a row, where it can be read.
    fn said(
        &mut self,
        alloc: Global,
        asked: TokensAsked,
        row: &'a str,
    ) -> Result<Option<String>, AllocError> {
        match asked {
            TokensAsked::Text(question) => texts::answer(alloc, question, row),
            TokensAsked::Keys => names::compare(alloc, row),
            TokensAsked::Found => self.found.answer(alloc, row),
            TokensAsked::Docs => documents::answer(alloc, row),
            TokensAsked::Places => places::answer(alloc, &mut self.sources, row),
        }
    }

    /// A row with its answer, where it can be read.
    pub fn answer(
        &mut self,
        alloc: Global,
        asked: TokensAsked,
        row: &'a str,
    ) -> Result<Option<String>, AllocError> {
        match self.said(alloc, asked, row)? {
            Some(answer) => Ok(Some(format!(in alloc; "{row} => {answer}\n")?)),
            None => Ok(None),
        }
    }
}
