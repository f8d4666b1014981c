//! What is printed of a row.

use std::alloc::{AllocError, Global};
use std::fmt::{Display, Write};

/// What is printed of a row, as it is written.
#[derive(Drop)]
pub struct Page {
    /// Where memory is from.
    pub alloc: Global,
    out: String,
    /// Whether a request for memory was refused; `finish` says so.
    refused: bool,
    /// In how many parts the next line stands.
    depth: usize,
}

impl Page {
    /// An empty page.
    pub fn new(alloc: Global) -> Page {
        Page {
            alloc,
            out: String::new(alloc),
            refused: false,
            depth: 0,
        }
    }

    /// What was written, if all of it found memory.
    pub fn finish(self) -> Result<String, AllocError> {
        if self.refused {
            return Err(AllocError);
        }
        Ok(self.out)
    }

    /// Takes note of a request for memory that was refused.
    pub fn refuse(&mut self) {
        self.refused = true;
    }

    /// The next lines stand in the part of the last one.
    pub fn go_in(&mut self) {
        self.depth = self.depth.saturating_add(1);
    }

    /// The next lines stand behind that part.
    pub fn go_out(&mut self) {
        self.depth = self.depth.saturating_sub(1);
    }

    /// Begins a line.
    pub fn begin(&mut self, words: &str) {
        for _ in 0..self.depth {
            self.words("  ");
        }
        self.words(words);
    }

    /// Goes on with a line.
    pub fn words(&mut self, words: &str) {
        let written = self.out.push_str(words);
        self.refused |= written.is_err();
    }

    /// Goes on with a value as its users read it.
    pub fn shown<T: Display>(&mut self, value: &T) {
        let written = write!(self.out, "{value}");
        self.refused |= written.is_err();
    }

    /// Goes on with a text, if there was memory for it.
    pub fn made(&mut self, text: &Result<String, AllocError>) {
        match text {
            Ok(text) => self.words(text),
            Err(_) => self.refuse(),
        }
    }

    /// Ends a line.
    pub fn end(&mut self) {
        self.words("\n");
    }
}
