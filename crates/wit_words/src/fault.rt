//! Why a text isn't taken.

ghost use Rattle.std.specs.Prelude.{◌≡◌};
ghost use Rattle.wit_words.specs.Codes as codes;

use crate::source_map::Span;
use std::alloc::{AllocError, AllocFailed};
use thiserror::Error;

/// The rule that a text breaks.
#[derive(Clone, Copy, Debug, PartialEq, Eq, Error)]
pub enum Rule {
    /// S1: a character outside comments begins no token.
    #[error("S1 BadCharacter")]
    BadCharacter,
    /// S2: a comment that begins with `/*` has no end.
    #[error("S2 OpenComment")]
    OpenComment,
    /// S4: a run of identifier characters is no identifier.
    #[error("S4 BadIdentifier")]
    BadIdentifier,
    /// S3: a token, or the end, stands where the grammar has none such.
    #[error("S3 Unexpected")]
    Unexpected,
    /// S5: no version stands where one is asked.
    #[error("S5 BadVersion")]
    BadVersion,
    /// S6: the length of a list is 0 or above 4,294,967,295.
    #[error("S6 BadNumber")]
    BadNumber,
    /// S7: a type stands in more than 100 angle brackets.
    #[error("S7 TooDeep")]
    TooDeep,
}

impl Rule {
    /// Its code, as `S3`.
    pub fn code(self) -> &'static str
        ensures { result.now ≡ codes.code self }
    {
        match self {
            Rule::BadCharacter => "S1",
            Rule::OpenComment => "S2",
            Rule::BadIdentifier => "S4",
            Rule::Unexpected => "S3",
            Rule::BadVersion => "S5",
            Rule::BadNumber => "S6",
            Rule::TooDeep => "S7",
        }
    }

    /// Its name, as `Unexpected`.
    pub fn name(self) -> &'static str
        ensures { result.now ≡ codes.name self }
    {
        match self {
            Rule::BadCharacter => "BadCharacter",
            Rule::OpenComment => "OpenComment",
            Rule::BadIdentifier => "BadIdentifier",
            Rule::Unexpected => "Unexpected",
            Rule::BadVersion => "BadVersion",
            Rule::BadNumber => "BadNumber",
            Rule::TooDeep => "TooDeep",
        }
    }
}

/// Why a text isn't taken.
#[derive(Clone, Copy, Debug, PartialEq, Eq, Drop, Error)]
pub enum SyntaxFault {
    /// A request for memory was refused.
    #[error("out of memory")]
    OutOfMemory,
    /// S8: the text would end more than 4,294,967,295 bytes behind the place that spans count from.
    #[error("S8 TooLarge")]
    TooLarge,
    /// The text breaks a rule.
    #[error("{rule}")]
    Broken {
        /// The rule.
        rule: Rule,
        /// Where: the character (S1), the comment up to the text's end (S2), the word with a `%` in front of it (S4), or
        /// the token without one. It is empty at the text's end.
        span: Span,
    },
}

impl From<AllocError> for SyntaxFault {
    ghost use Rattle.wit_words.specs.declared.fault.SyntaxFault.TheVariants.{OutOfMemory};

    ghost from_gives = { λ _ e. e ≡ OutOfMemory };

    fn from(_e: AllocError) -> SyntaxFault {
        SyntaxFault::OutOfMemory
    }
}

impl<T: Drop> From<AllocFailed<T>> for SyntaxFault {
    ghost use Rattle.wit_words.specs.declared.fault.SyntaxFault.TheVariants.{OutOfMemory};

    ghost from_gives = { λ _ e. e ≡ OutOfMemory };

    fn from(_e: AllocFailed<T>) -> SyntaxFault {
        SyntaxFault::OutOfMemory
    }
}
