//! What is printed of a line.

use binary_grammar::Fault;
use std::alloc::{AllocError, Global};
use std::fmt::{Debug, Display, Write};

/// What is printed of a line, as it is written.
#[derive(Drop)]
pub struct Page {
    /// Where memory is from.
    pub alloc: Global,
    out: String,
    /// Whether a request for memory was refused; `finish` says so.
    refused: bool,
}

impl Page {
    /// An empty page.
    pub fn new(alloc: Global) -> Page {
        Page {
            alloc,
            out: String::new(alloc),
            refused: false,
        }
    }

    /// What was written, if all of it found memory.
    pub fn finish(self) -> Result<String, AllocError> {
        if self.refused {
            return Err(AllocError);
        }
        Ok(self.out)
    }

    /// Takes note of whether a part was written.
    fn note(&mut self, written: Result<(), AllocError>) {
        self.refused |= written.is_err();
    }

    /// Takes note of a request for memory that was refused.
    pub fn refuse(&mut self) {
        self.refused = true;
    }

    /// Words, wherever they stand in a line.
    pub fn words(&mut self, words: &str) {
        let written = self.out.push_str(words);
        self.note(written);
    }

    /// A value as its users read it.
    pub fn shown<T: Display>(&mut self, value: &T) {
        let written = write!(self.out, "{value}");
        self.note(written);
    }

    /// A value as its source is written.
    pub fn spelled<T: Debug>(&mut self, value: &T) {
        let written = write!(self.out, "{value:?}");
        self.note(written);
    }

    /// Each of these in a line, behind what they are.
    pub fn each<T: Debug>(&mut self, what: &str, items: &[T]) {
        for item in items {
            self.words(what);
            self.spelled(item);
            self.words("\n");
        }
    }

    /// Bytes in hexadecimal.
    pub fn hexadecimal(&mut self, bytes: &[u8]) {
        match hex::encode(self.alloc, bytes) {
            Ok(digits) => self.words(&digits),
            Err(_) => self.refuse(),
        }
    }

    /// The rule that bytes of this length break, and where: counted in bytes from the start.
    pub fn fault(&mut self, length: usize, fault: &Fault) {
        self.spelled(&fault.rule);
        if let Some(offset) = length.checked_sub(fault.left) {
            self.words(" at ");
            self.shown(&offset);
        }
    }
}
