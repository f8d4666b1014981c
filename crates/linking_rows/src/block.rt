//! A block: the lines between two blank ones, over one session and one set of files.

use crate::command::{write_reading, write_run, write_stop};
use crate::question::ask;
use crate::row::{Row, read_row};
use crate::setup::{Texts, hand_over};
use component_linker::Session;
use row_pages::{Page, UNREADABLE};
use std::alloc::{AllocError, Global};

/// A file that a run can read: its path, and its bytes.
type Handed<'r> = (&'r str, &'r [u8]);

/// What the rows of a block work on.
#[derive(Drop)]
struct Desk<'r> {
    alloc: Global,
    files: Vec<Handed<'r>>,
    session: Session<'r>,
    texts: Texts,
    /// What was built last.
    built: Option<Vec<u8>>,
}

impl<'r> Desk<'r> {
    /// Does what a row says, and writes its answer.
    fn answer(&mut self, row: &'r Row<'_>, page: &mut Page) {
        let alloc = self.alloc;
        match row {
            Row::Comment => {}
            Row::Unreadable => page.words(UNREADABLE),
            Row::File(file) => {
                if self.files.push((file.path, file.bytes.as_slice())).is_err() {
                    page.refuse();
                }
            }
            Row::Line(words) => write_reading(alloc, page, words),
            Row::Run(words) => write_run(alloc, &self.files, words, page),
            Row::Stop(words) => write_stop(alloc, &self.files, words, page),
            Row::Setup(setup) => {
                hand_over(alloc, &mut self.session, &mut self.texts, setup, page);
            }
            Row::Question(question) => {
                ask(alloc, &mut self.session, &mut self.built, question, page);
            }
        }
    }

    /// The answer of a row, where all that it asked for found memory.
    fn try_answer(&mut self, row: &'r Row<'_>) -> Result<String, AllocError> {
        let mut page = Page::new(self.alloc);
        self.answer(row, &mut page);
        page.finish()
    }

    /// The answer of a row. Where memory was refused everything is as it was, so the row is asked once more.
    fn answer_again(&mut self, row: &'r Row<'_>) -> Result<String, AllocError> {
        match self.try_answer(row) {
            Ok(text) => Ok(text),
            Err(AllocError) => self.try_answer(row),
        }
    }
}

/// Puts a value behind the others; it is let go where memory is wanting. Written for all sorts of values, since a row costs
/// much to let go.
fn push_to<T: Drop>(found: &mut Vec<T>, value: T) -> Result<(), AllocError> {
    found.push(value)?;
    Ok(())
}

/// The rows of lines, in order.
fn rows_of<'t>(alloc: Global, lines: &'t [String]) -> Result<Vec<Row<'t>>, AllocError> {
    let mut rows = Vec::new(alloc);
    for line in lines {
        push_to(&mut rows, read_row(alloc, line)?)?;
    }
    Ok(rows)
}

/// Puts a line and the answer of its row behind the others.
fn push_answer<'r>(
    text: &mut String,
    desk: &mut Desk<'r>,
    line: &str,
    row: &'r Row<'_>,
) -> Result<(), AllocError> {
    text.push_str(line)?;
    text.push('\n')?;
    text.push_str(&desk.answer_again(row)?)
}

/// The lines, each with the answer of its row behind it.
fn answers<'r>(alloc: Global, lines: &[String], rows: &'r [Row<'_>]) -> Result<String, AllocError> {
    let mut desk: Desk<'r> = Desk {
        alloc,
        files: Vec::new(alloc),
        session: Session::new(alloc),
        texts: Texts::new(),
        built: None,
    };
    let mut text = String::new(alloc);
    for (line, row) in lines.iter().zip(rows) {
        push_answer(&mut text, &mut desk, line, row)?;
    }
    Ok(text)
}

/// The lines of a block, each with its answer behind it.
pub fn transcript(alloc: Global, lines: &[String]) -> Result<String, AllocError> {
    let rows = rows_of(alloc, lines)?;
    answers(alloc, lines, rows.as_slice())
}
