//! Rows of what can be read off the types of WIT packages alone, and of the order of names: each row of the input is
//! written again with its answer behind it.
//!
//! A line that begins with `= ` says what is asked of the rows behind it, up to the next such line; `asked.rt` lists what
//! that can be. Lines that begin with `# ` are titles.
#![tactic(auto)]

mod arenas;
mod asked;
mod functions;
mod keys;
mod kinds;
mod members;
mod order;
mod packages;
mod row_fault;
mod samples;
mod shorthands;
mod sizes;

use asked::Asked;
use row_fault::RowFault;
use std::alloc::{AllocError, Global};
use std::io;

/// The answer to a row.
fn answer(alloc: Global, asked: Asked<'_>, row: &str) -> Result<String, RowFault> {
    match asked {
        Asked::Order(kind) => order::answer(alloc, kind, row),
        Asked::Size(question) => sizes::answer(alloc, question, row),
        Asked::Function(question) => functions::answer(alloc, question, row),
        Asked::Shorthand => shorthands::answer(alloc, row),
        Asked::Package(question) => packages::answer(alloc, question, row),
        Asked::Keys => keys::answer(alloc, row),
        Asked::Kinds => kinds::answer(alloc, row),
        Asked::Members => members::answer(alloc, row),
        Asked::Arena => arenas::answer(alloc, row),
    }
}

/// What is to be written for a line.
fn answered<'a>(
    alloc: Global,
    asked: &mut Option<Asked<'a>>,
    line: &'a str,
) -> Result<String, AllocError> {
    if line.is_empty() || line.starts_with("# ") {
        return String::from_str(alloc, line);
    }
    if let Some(words) = line.strip_prefix("= ") {
        *asked = asked::asked_by(words);
        return String::from_str(alloc, line);
    }
    let Some(asked) = *asked else {
        return format!(in alloc; "{line}\n! nothing is asked of this row");
    };
    match answer(alloc, asked, line) {
        Ok(answer) => format!(in alloc; "{line} => {answer}"),
        Err(RowFault::Unreadable) => format!(in alloc; "{line}\n! cannot read this row"),
        Err(RowFault::OutOfMemory) => Err(AllocError),
    }
}

fn main(rt: HostRuntime) -> io::Result<()> {
    let alloc = rt.alloc();
    let input = io::read_to_string(alloc, rt.stdin())?;
    let mut asked = None;
    for line in input.lines() {
        rt.println(answered(alloc, &mut asked, line)?)?;
    }
    Ok(())
}
