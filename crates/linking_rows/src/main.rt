//! Rows of the linker, by its session and by the program's words: reads blocks of cases from standard input, and prints each
//! line with its answer behind it.
//!
//! A block ends at a blank line, and has a session and files of its own. What each line asks is said at the head of the input.
#![tactic(auto)]

mod block;
mod command;
mod question;
mod refusals;
mod row;
mod setup;
mod signature;
mod stopping;

use std::io;
use std::io::{BufRead, BufReader};

fn main(rt: HostRuntime) -> io::Result<()> {
    let mut lines = Vec::new(rt.alloc());
    for line in BufReader::new(rt.alloc(), rt.reader())?.lines(rt.alloc()) {
        let line = line?;
        if !line.is_empty() {
            lines.push(line)?;
            continue;
        }
        println!(rt; "{}", block::transcript(rt.alloc(), &lines)?)?;
        lines.clear();
    }
    print!(rt; "{}", block::transcript(rt.alloc(), &lines)?)
}
