//! Rows of texts that are read or refused, the trees of those that are read, and tokens, names, docs and places: each row
//! of the input is written again with its answer.
//!
//! A line that begins with `= ` says what is asked of the rows behind it, up to the next such line; `asked.rt` and
//! `tokens/asked.rt` list what that can be. Lines that begin with `# ` are titles. A text in a row is spelled as `spelling.rt` says.
#![tactic(auto)]

mod answers;
mod asked;
mod cuts;
mod equality;
mod files;
mod outcome;
mod refusals;
mod spelling;
mod tokens;
mod trees;

use answers::Rows;
use std::alloc::{AllocError, Global};
use std::rt::Files;
use std::{fs, io};

/// What is to be written for a row that can't be read.
fn unread(alloc: Global, row: &str) -> Result<String, AllocError> {
    format!(in alloc; "{row}\n! cannot read this row\n")
}

/// What is to be written for a row that names a file.
fn file_answered(
    rt: &(impl Files + AllocGlobal),
    rows: &Rows,
    name: &str,
) -> Result<String, AllocError> {
    let alloc = rt.alloc();
    match fs::read_to_string(rt, name) {
        Ok(text) => rows.answer_of_file(alloc, name, &text),
        Err(_) => unread(alloc, name),
    }
}

/// What is to be written for a line.
fn answered<'a>(
    rt: &(impl Files + AllocGlobal),
    rows: &mut Rows<'a>,
    line: &'a str,
) -> Result<String, AllocError> {
    let alloc = rt.alloc();
    if line.is_empty() || line.starts_with("# ") {
        return format!(in alloc; "{line}\n");
    }
    if let Some(words) = line.strip_prefix("= ") {
        rows.ask(alloc, words)?;
        return format!(in alloc; "{line}\n");
    }
    if rows.are_files() {
        return file_answered(rt, rows, line);
    }
    match rows.answer(alloc, line)? {
        Some(answer) => Ok(answer),
        None => unread(alloc, line),
    }
}

fn main(rt: HostRuntime) -> io::Result<()> {
    let input = io::read_to_string(rt.alloc(), rt.stdin())?;
    let mut rows = Rows::new(rt.alloc());
    for line in input.lines() {
        rt.print(answered(&rt, &mut rows, line)?)?;
    }
    Ok(())
}
