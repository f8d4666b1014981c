//! Why bytes aren't read.

ghost use Rattle.std.specs.Prelude.{◌≡◌};
ghost use Rattle.binary_grammar.specs.declared.fault.ReadError.TheVariants.{Memory};

use std::alloc::{AllocError, AllocFailed};

/// What is wrong with bytes.
#[derive(Clone, Copy, Debug, PartialEq, Eq)]
pub enum Rule {
    /// The bytes end too soon.
    Short,
    /// What a size counts ends before what has to stand in it does.
    Size,
    /// A number has more than 32 bits or more than five bytes.
    Number,
    /// A name isn't UTF-8.
    Text,
    /// Bytes stand behind the last item of a section.
    Trailing,
    /// A byte says none of the things that may stand there.
    Tag,
    /// An index speaks of nothing that is there.
    Index,
    /// The first eight bytes aren't those of the format.
    Header,
    /// A section stands twice, or behind one that has to follow it.
    Order,
    /// Two names that have to be distinct are equal.
    Duplicate,
    /// A form of the standard that is never read here.
    Unsupported,
}

/// A broken rule, and how many bytes are left from where it is.
#[derive(Clone, Copy, Debug, PartialEq, Eq)]
pub struct Fault {
    pub rule: Rule,
    pub left: usize,
}

/// Why a part of a format isn't read.
#[derive(Debug, Drop)]
pub enum ReadError {
    /// A request for memory was refused.
    Memory,
    /// The bytes aren't of the format.
    Malformed(Fault),
}

impl From<AllocError> for ReadError {
    ghost from_gives = { λ _ e. e ≡ Memory };

    fn from(_e: AllocError) -> ReadError {
        ReadError::Memory
    }
}

impl<T: Drop> From<AllocFailed<T>> for ReadError {
    ghost from_gives = { λ _ e. e ≡ Memory };

    fn from(_e: AllocFailed<T>) -> ReadError {
        ReadError::Memory
    }
}
