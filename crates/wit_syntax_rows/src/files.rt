//! Rows that are texts one behind the other.

use std::alloc::{AllocError, Global};
use wit_syntax::{SourceFault, SourceMap, SyntaxFault, parse_file};

/// The fault that stands for one of the texts together.
fn fault_of(fault: SourceFault) -> SyntaxFault {
    match fault {
        SourceFault::TooLarge => SyntaxFault::TooLarge,
        SourceFault::OutOfMemory => SyntaxFault::OutOfMemory,
    }
}

/// Why a text isn't taken that is pushed behind the others and read there.
fn refusal(alloc: Global, sources: &mut SourceMap, path: &str, text: &str) -> Option<SyntaxFault> {
    match sources.push(path, text) {
        Ok(offset) => parse_file(alloc, text, offset).err(),
        Err(fault) => Some(fault_of(fault)),
    }
}

/// A row behind which its text, by its path, is read behind those of the rows before it: `ok`, or why it isn't taken, as a
/// source map renders that.
pub fn source_row(
    alloc: Global,
    sources: &mut SourceMap,
    row: &str,
    path: &str,
    text: &str,
) -> Result<String, AllocError> {
    match refusal(alloc, sources, path, text) {
        Some(fault) => {
            let shown = sources.render_fault(&fault)?;
            format!(in alloc; "{row} => {shown}\n")
        }
        None => format!(in alloc; "{row} => ok\n"),
    }
}
