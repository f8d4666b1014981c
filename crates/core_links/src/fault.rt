//! Why a module isn't linked with a world.

ghost use Rattle.std.specs.Prelude.{◌≡◌};

use std::alloc::{AllocError, AllocFailed};
use thiserror::Error;

/// Why a module isn't linked with a world; its text is what the program prints behind `error: `.
#[derive(Clone, Copy, Debug, PartialEq, Eq, Drop, Error)]
pub enum LinkFault {
    /// X1: what is linked lies outside what is built so far.
    #[error("X1 NotYet")]
    NotYet,
    /// B7: the module imports one pair of names twice.
    #[error("B7 DuplicateImport")]
    DuplicateImport,
    /// B8: a core import stands for nothing.
    #[error("B8 UnknownImport")]
    UnknownImport,
    /// B9: a used core name has two meanings, or a needed item has two core exports.
    #[error("B9 Ambiguous")]
    Ambiguous,
    /// B10: legacy names are rejected, and an import has only a legacy meaning.
    #[error("B10 LegacyName")]
    LegacyName,
    /// B11: a core import or a used core export isn't of its entry's core type.
    #[error("B11 WrongCoreType")]
    WrongCoreType,
    /// B12: a needed core export isn't there.
    #[error("B12 MissingCoreExport")]
    MissingCoreExport,
    /// A request for memory was refused.
    #[error("out of memory")]
    OutOfMemory,
}

impl From<AllocError> for LinkFault {
    ghost use Rattle.core_links.specs.declared.fault.LinkFault.TheVariants.{OutOfMemory};

    ghost from_gives = { λ _ e. e ≡ OutOfMemory };

    fn from(_e: AllocError) -> LinkFault {
        LinkFault::OutOfMemory
    }
}

impl<T: Drop> From<AllocFailed<T>> for LinkFault {
    ghost use Rattle.core_links.specs.declared.fault.LinkFault.TheVariants.{OutOfMemory};

    ghost from_gives = { λ _ e. e ≡ OutOfMemory };

    fn from(_e: AllocFailed<T>) -> LinkFault {
        LinkFault::OutOfMemory
    }
}
