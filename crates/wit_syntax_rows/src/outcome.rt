//! How the reading of a text ends.

use std::alloc::Global;
use wit_syntax::{Rule, Span, SyntaxFault, parse_file, parse_type, parse_use_path};

/// The call that reads a text.
#[derive(Clone, Copy, PartialEq, Eq)]
pub enum Call {
    /// `parse_file`
    File,
    /// `parse_use_path`
    Path,
    /// `parse_type`
    Type,
}

/// How it ends.
#[derive(Clone, Copy, PartialEq, Eq)]
pub enum Outcome {
    /// The text is read.
    Read,
    /// A request for memory was refused.
    OutOfMemory,
    /// The text ends too far behind where places count from.
    TooLarge,
    /// The text breaks a rule there, counted from its beginning.
    Broken(Rule, Span),
}

impl Outcome {
    /// What a fault says of a text that begins at `offset`.
    pub fn of_fault(fault: SyntaxFault, offset: u32) -> Outcome {
        match fault {
            SyntaxFault::OutOfMemory => Outcome::OutOfMemory,
            SyntaxFault::TooLarge => Outcome::TooLarge,
            SyntaxFault::Broken { rule, span } => Outcome::Broken(
                rule,
                Span {
                    start: span.start.wrapping_sub(offset),
                    end: span.end.wrapping_sub(offset),
                },
            ),
        }
    }

    /// `ok`, or the code of what stood in the way.
    pub fn code(self) -> &'static str {
        match self {
            Outcome::Read => "ok",
            Outcome::OutOfMemory => "out of memory",
            Outcome::TooLarge => "S8",
            Outcome::Broken(rule, _) => code_of(rule),
        }
    }

    /// Where a rule is broken, if one is.
    pub fn place(self) -> Option<Span> {
        match self {
            Outcome::Broken(_, span) => Some(span),
            _ => None,
        }
    }
}

/// The code of a rule.
pub fn code_of(rule: Rule) -> &'static str {
    match rule {
        Rule::BadCharacter => "S1",
        Rule::OpenComment => "S2",
        Rule::Unexpected => "S3",
        Rule::BadIdentifier => "S4",
        Rule::BadVersion => "S5",
        Rule::BadNumber => "S6",
        Rule::TooDeep => "S7",
    }
}

/// How a call ends on a text that begins at `offset`; only whole texts begin elsewhere than at 0.
pub fn outcome_of(alloc: Global, call: Call, text: &str, offset: u32) -> Outcome {
    let fault = match call {
        Call::File => parse_file(alloc, text, offset).err(),
        Call::Path => parse_use_path(alloc, text).err(),
        Call::Type => parse_type(alloc, text).err(),
    };
    match fault {
        Some(fault) => Outcome::of_fault(fault, offset),
        None => Outcome::Read,
    }
}
