//! Why tokens can't be read.

ghost use Rattle.std.specs.Prelude.{◌≡◌};
ghost use Rattle.wit_productions.specs.declared.fault.ReadError.TheVariants.{Memory};

use std::alloc::{AllocError, AllocFailed};
use wit_tokens::Rule;

/// A broken rule, and where.
#[derive(Clone, Copy)]
pub struct Fault {
    /// The rule that is broken.
    pub rule: Rule,
    /// How many tokens are left from there.
    pub left: usize,
}

/// Why a text wasn't read.
#[derive(Drop)]
pub enum ReadError {
    /// There was no memory for what was read.
    Memory,
    /// The text breaks a rule.
    Malformed(Fault),
}

impl From<AllocError> for ReadError {
    ghost from_gives = { λ _ e. e ≡ Memory };

    fn from(_e: AllocError) -> ReadError {
        ReadError::Memory
    }
}

impl<T: Drop> From<AllocFailed<T>> for ReadError {
    ghost from_gives = { λ _ e. e ≡ Memory };

    fn from(_e: AllocFailed<T>) -> ReadError {
        ReadError::Memory
    }
}
