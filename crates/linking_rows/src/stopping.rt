//! Writers that fail, or take nothing, in the middle of what is written.

use std::alloc::Global;
use std::io;
use std::io::{ErrorKind, Write};

/// What a writer does once it has taken its bytes.
#[derive(Clone, Copy)]
pub enum Ending {
    Fails,
    TakesNothing,
}

/// Takes so many bytes, and then ends.
#[derive(Drop)]
pub struct Stopping {
    /// What it took.
    pub taken: Vec<u8>,
    /// How many bytes it still takes.
    left: usize,
    /// How many it takes a call, at most.
    most: usize,
    ending: Ending,
    is_ended: bool,
    /// Whether it was called again behind its end.
    pub is_called_again: bool,
}

impl Stopping {
    /// One that takes so many bytes, and at most so many of them a call.
    pub fn after(alloc: Global, left: usize, most: usize, ending: Ending) -> Stopping {
        Stopping {
            taken: Vec::new(alloc),
            left,
            most,
            ending,
            is_ended: false,
            is_called_again: false,
        }
    }

    /// Takes note of a call behind the last byte.
    fn end(&mut self) {
        self.is_called_again |= self.is_ended;
        self.is_ended = true;
    }
}

impl Write for Stopping {
    fn write(&mut self, bytes: &[u8]) -> io::Result<usize> {
        if self.left == 0 {
            self.end();
            return match self.ending {
                Ending::Fails => Err(io::Error::from(ErrorKind::Other)),
                Ending::TakesNothing => Ok(0),
            };
        }
        let count = bytes.len().min(self.most).min(self.left);
        self.taken.extend_from_slice(&bytes[..count])?;
        self.left -= count;
        Ok(count)
    }

    fn flush(&mut self) -> io::Result<()> {
        Ok(())
    }
}
