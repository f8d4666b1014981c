//! The answers to rows.

use crate::asked::{Asked, asked_by};
use crate::cuts::cuts;
use crate::equality::Types;
use crate::files::source_row;
use crate::refusals::refusal_row;
use crate::spelling::text_of;
use crate::tokens::TokenRows;
use crate::trees::{path_row, text_tree, type_row};
use std::alloc::{AllocError, Global};
use wit_syntax::SourceMap;

/// What the rows are answered with.
#[derive(Drop)]
pub struct Rows<'a> {
    /// What is asked of them.
    asked: Option<Asked>,
    /// The types that the rows so far have listed.
    types: Types,
    /// The texts that they have put one behind the other.
    sources: SourceMap,
    /// What rows of tokens, names, docs and places are answered with.
    tokens: TokenRows<'a>,
}

impl<'a> Rows<'a> {
    /// Before the first row.
    pub fn new(alloc: Global) -> Rows<'a> {
        Rows {
            asked: None,
            types: Types::new(alloc),
            sources: SourceMap::new(alloc),
            tokens: TokenRows::new(alloc),
        }
    }

    /// Takes the words behind `= `.
    pub fn ask(&mut self, alloc: Global, words: &str) -> Result<(), AllocError> {
        self.asked = asked_by(alloc, words)?;
        Ok(())
    }

    /// Whether the rows name files.
    pub fn are_files(&self) -> bool {
        matches!(self.asked, Some(Asked::CutsOfFiles(_) | Asked::Files))
    }

    /// The row of a file with its answer.
    pub fn answer_of_file(
        &self,
        alloc: Global,
        name: &str,
        text: &str,
    ) -> Result<String, AllocError> {
        match &self.asked {
            Some(Asked::CutsOfFiles(step)) => cuts(alloc, name, text, *step),
            _ => text_tree(alloc, name, text),
        }
    }

    /// A row with its answer, where it can be read.
    pub fn answer(&mut self, alloc: Global, row: &'a str) -> Result<Option<String>, AllocError> {
        match &self.asked {
            Some(Asked::Tokens(asked)) => self.tokens.answer(alloc, *asked, row),
            _ => self.answer_of_text(alloc, row),
        }
    }

    /// A row of a text with its answer, where it can be read.
    fn answer_of_text(&mut self, alloc: Global, row: &str) -> Result<Option<String>, AllocError> {
        let Some(asked) = &self.asked else {
            return Ok(None);
        };
        let (path, spelled) = match asked {
            Asked::Sources => row.split_once(' ').unwrap_or((row, "")),
            _ => ("", row),
        };
        let Some(text) = text_of(alloc, spelled)? else {
            return Ok(None);
        };
        let answer = match asked {
            Asked::Sources => source_row(alloc, &mut self.sources, row, path, &text),
            Asked::Refusal(frame) => refusal_row(alloc, frame, row, &text),
            Asked::Cuts => cuts(alloc, row, &text, 1),
            Asked::Types => type_row(alloc, row, &text),
            Asked::Paths => path_row(alloc, row, &text),
            Asked::Texts => text_tree(alloc, row, &text),
            Asked::Equality => self.types.row(alloc, row, text),
            Asked::CutsOfFiles(_) | Asked::Files | Asked::Tokens(_) => return Ok(None),
        };
        Ok(Some(answer?))
    }
}
