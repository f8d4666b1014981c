//! What is printed.

use crate::spelling::escaped;
use std::alloc::{AllocError, Global};
use std::fmt::{Display, Write};

/// What is printed of a block, as it is written.
#[derive(Drop)]
pub struct Page {
    /// Where memory is from.
    pub alloc: Global,
    out: String,
    /// Whether a request for memory was refused; `finish` says so.
    refused: bool,
}

impl Page {
    /// An empty page.
    pub fn new(alloc: Global) -> Page {
        Page {
            alloc,
            out: String::new(alloc),
            refused: false,
        }
    }

    /// What was written, if all of it found memory.
    pub fn finish(self) -> Result<String, AllocError> {
        if self.refused {
            return Err(AllocError);
        }
        Ok(self.out)
    }

    /// Takes note of whether a part was written.
    fn note(&mut self, written: Result<(), AllocError>) {
        self.refused |= written.is_err();
    }

    /// Takes note of a request for memory that was refused.
    pub fn refuse(&mut self) {
        self.refused = true;
    }

    /// Whether a request for memory was refused.
    pub fn is_refused(&self) -> bool {
        self.refused
    }

    /// Words, wherever they stand in a line.
    pub fn words(&mut self, words: &str) {
        let written = self.out.push_str(words);
        self.note(written);
    }

    /// A line of an answer.
    pub fn line(&mut self, text: &str) {
        self.words("  ");
        self.words(text);
        self.words("\n");
    }

    /// A line for what doesn't hold.
    pub fn holds(&mut self, holds: bool, what: &str) {
        if !holds {
            self.words("  ! ");
            self.words(what);
            self.words("\n");
        }
    }

    /// A line of an answer, if its text found memory.
    pub fn made(&mut self, text: Result<String, AllocError>) {
        match text {
            Ok(text) => self.line(&text),
            Err(_) => self.refuse(),
        }
    }

    /// A text, wherever it stands in a line, if it found memory.
    pub fn text(&mut self, text: Result<String, AllocError>) {
        match text {
            Ok(text) => self.words(&text),
            Err(_) => self.refuse(),
        }
    }

    /// What a value is shown as, wherever it stands in a line.
    pub fn shown<T: Display>(&mut self, value: &T) {
        let written = write!(self.out, "{value}");
        self.note(written);
    }

    /// A line with a word and a number.
    pub fn number(&mut self, word: &str, number: usize) {
        let written = write!(self.out, "  {word} {number}\n");
        self.note(written);
    }

    /// A text between quotation marks.
    pub fn quoted(&mut self, text: &str) {
        self.words("\"");
        for character in text.chars() {
            match escaped(character) {
                Some(spelled) => self.words(spelled),
                None => self.character(character),
            }
        }
        self.words("\"");
    }

    fn character(&mut self, character: char) {
        let written = self.out.push(character);
        self.note(written);
    }

    /// Bytes: a text between quotation marks, and in hexadecimal where a zero stands in them or they are no text.
    pub fn bytes(&mut self, bytes: &[u8]) {
        match str::from_utf8(bytes) {
            Ok(text) if !bytes.contains(&0) => self.quoted(text),
            _ => self.hexadecimal(bytes),
        }
    }

    fn hexadecimal(&mut self, bytes: &[u8]) {
        match hex::encode(self.alloc, bytes) {
            Ok(digits) => self.words(&digits),
            Err(_) => self.refuse(),
        }
    }
}
