//! Texts that are cut short.

use crate::outcome::{Call, Outcome, code_of, outcome_of};
use std::alloc::{AllocError, Global};
use std::fmt::Write;
use wit_syntax::Rule;

/// How a text that is cut short is read.
#[derive(Clone, Copy, PartialEq, Eq)]
enum Cut {
    /// It breaks a rule where it is cut.
    AtItsEnd(Rule),
    /// It breaks a rule from there on.
    Before(Rule, u32),
    /// It comes out otherwise.
    Otherwise(Outcome),
}

impl Cut {
    /// What an outcome says of a text of so many bytes.
    fn of(outcome: Outcome, length: usize) -> Cut {
        match outcome {
            Outcome::Broken(rule, span) if span.start as usize == length => Cut::AtItsEnd(rule),
            Outcome::Broken(rule, span) => Cut::Before(rule, span.start),
            other => Cut::Otherwise(other),
        }
    }

    /// Adds what it says, at the end of a line.
    fn write(self, out: &mut String) -> Result<(), AllocError> {
        match self {
            Cut::AtItsEnd(rule) => {
                let code = code_of(rule);
                writeln!(out, "{code} at its end")
            }
            Cut::Before(rule, start) => {
                let code = code_of(rule);
                writeln!(out, "{code} at {start}")
            }
            Cut::Otherwise(outcome) => {
                let code = outcome.code();
                writeln!(out, "{code}")
            }
        }
    }
}

/// Lengths, one behind the other, at which a text comes out alike.
#[derive(Clone, Copy)]
struct Run {
    first: usize,
    last: usize,
    cut: Cut,
}

impl Run {
    /// Adds a line for it.
    fn write(&self, out: &mut String) -> Result<(), AllocError> {
        let first = self.first;
        let last = self.last;
        if first == last {
            write!(out, "    {first}: ")?;
        } else {
            write!(out, "    {first} to {last}: ")?;
        }
        self.cut.write(out)
    }

    /// The run with one more length, if that comes out alike.
    fn with(self, length: usize, cut: Cut) -> Option<Run> {
        if cut == self.cut {
            Some(Run {
                last: length,
                ..self
            })
        } else {
            None
        }
    }
}

/// The front of a text, if it ends between two characters.
fn front(text: &str, length: usize) -> Option<&str> {
    let (bytes, _) = text.as_bytes().split_at_checked(length)?;
    str::from_utf8(bytes).ok()
}

/// Adds a length to the last run, or writes that and begins another.
fn add(out: &mut String, last: Option<Run>, length: usize, cut: Cut) -> Result<Run, AllocError> {
    if let Some(run) = last {
        if let Some(longer) = run.with(length, cut) {
            return Ok(longer);
        }
        run.write(out)?;
    }
    Ok(Run {
        first: length,
        last: length,
        cut,
    })
}

/// A row, and behind it how its text is read where it is cut behind no bytes, `step` bytes, twice as many, and so on. Cuts
/// within a character are left out.
pub fn cuts(alloc: Global, row: &str, text: &str, step: usize) -> Result<String, AllocError> {
    let mut out = format!(in alloc; "{row}\n")?;
    let mut run = None;
    for length in (0..=text.len()).step_by(step.max(1)) {
        if let Some(start) = front(text, length) {
            let outcome = outcome_of(alloc, Call::File, start, 0);
            run = Some(add(&mut out, run, length, Cut::of(outcome, length))?);
        }
    }
    if let Some(last) = run {
        last.write(&mut out)?;
    }
    Ok(out)
}
