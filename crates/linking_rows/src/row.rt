//! The lines of a block.

use crate::command::{File, file_of};
use crate::question::{Question, question_of};
use crate::setup::{Setup, setup_of};
use row_pages::RowFault;
use std::alloc::{AllocError, Global};

/// A line that was read.
#[derive(Drop)]
pub enum Row<'t> {
    /// A heading or a comment.
    Comment,
    /// A line that is none of the others.
    Unreadable,
    /// A file that a run can read.
    File(File<'t>),
    /// The words to read as a command line.
    Line(Vec<&'t str>),
    /// The words to run the program on.
    Run(Vec<&'t str>),
    /// The same, behind what its writers take.
    Stop(Vec<&'t str>),
    /// What a session is handed.
    Setup(Setup<'t>),
    /// What a session is asked.
    Question(Question),
}

/// The words of a text.
fn words_of<'t>(alloc: Global, text: &'t str) -> Result<Vec<&'t str>, AllocError> {
    text.split_whitespace().collect(alloc)
}

/// The row that begins with this word, with the rest of its line.
fn row_of<'t>(alloc: Global, word: &str, rest: &'t str) -> Result<Row<'t>, RowFault> {
    match word {
        "file" => Ok(Row::File(file_of(alloc, rest)?)),
        "line" => Ok(Row::Line(words_of(alloc, rest)?)),
        "run" => Ok(Row::Run(words_of(alloc, rest)?)),
        "stop" => Ok(Row::Stop(words_of(alloc, rest)?)),
        _ => session_row_of(alloc, word, rest),
    }
}

/// The row of a session that begins with this word.
fn session_row_of<'t>(alloc: Global, word: &str, rest: &'t str) -> Result<Row<'t>, RowFault> {
    match word {
        "text" | "world" | "main" | "adapter" | "library" | "option" => {
            Ok(Row::Setup(setup_of(alloc, word, rest)?))
        }
        "packages" | "select" | "links" | "build" | "audit" | "signature" => {
            Ok(Row::Question(question_of(alloc, word, rest)?))
        }
        _ => Err(RowFault::Unreadable),
    }
}

/// The row that a line is.
pub fn read_row<'t>(alloc: Global, line: &'t str) -> Result<Row<'t>, AllocError> {
    if line.starts_with('#') {
        return Ok(Row::Comment);
    }
    let (word, rest) = line.split_once(' ').unwrap_or((line, ""));
    match row_of(alloc, word, rest) {
        Ok(row) => Ok(row),
        Err(RowFault::Unreadable) => Ok(Row::Unreadable),
        Err(RowFault::OutOfMemory) => Err(AllocError),
    }
}
