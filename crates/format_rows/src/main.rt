//! Rows of the binary formats: core modules, components and generated modules. Reads lines from standard input, and prints each
//! with its answer behind it. What each line asks is said at the head of the input.
#![tactic(auto)]

mod component;
mod definitions;
mod generated;
mod instructions;
mod module;
mod names;
mod page;

use page::Page;
use std::alloc::{AllocError, Global};
use std::io;

/// The answer to a row of these bytes.
fn answer_bytes(page: &mut Page, asked: &str, bytes: &[u8]) {
    match asked {
        "module" => module::answer(page, bytes),
        "component" => component::answer(page, bytes),
        "written" => component::answer_written(page, bytes),
        "generated" => generated::answer(page, bytes),
        _ => page.words("! cannot read this row\n"),
    }
}

/// The answer to a row.
fn answer(page: &mut Page, row: &str) {
    let (asked, digits) = row.split_once(' ').unwrap_or(("", ""));
    match hex::decode(page.alloc, digits) {
        Ok(bytes) => answer_bytes(page, asked, &bytes),
        Err(hex::FromHexError::OutOfMemory) => page.refuse(),
        Err(_) => page.words("! cannot read these bytes\n"),
    }
}

/// A line, with its answer behind it where it is a row.
fn transcript(alloc: Global, line: &str) -> Result<String, AllocError> {
    let mut page = Page::new(alloc);
    page.words(line);
    page.words("\n");
    if !line.is_empty() && !line.starts_with('#') {
        answer(&mut page, line);
    }
    page.finish()
}

fn main(rt: HostRuntime) -> io::Result<()> {
    let input = io::read_to_string(rt.alloc(), rt.stdin())?;
    for line in input.lines() {
        rt.print(transcript(rt.alloc(), line)?)?;
    }
    Ok(())
}
