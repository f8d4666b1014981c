//! Why what is linked has no link table, or isn't encoded.

ghost use Rattle.std.specs.Prelude.{◌≡◌, option_map};
ghost use Rattle.wit_component.specs.Code as spec;

use std::alloc::{AllocError, AllocFailed};
use thiserror::Error;

/// Why there is no link table, or no component; its text is what the program prints behind `error: `.
#[derive(Clone, Copy, Debug, PartialEq, Eq, Drop, Error)]
pub enum Fault {
    /// X1: what is linked, or judged, lies outside what is built so far.
    #[error("X1 NotYet")]
    NotYet,
    /// B7: the module imports one pair of names twice.
    #[error("B7 DuplicateImport")]
    DuplicateImport,
    /// B8: a core import stands for nothing.
    #[error("B8 UnknownImport")]
    UnknownImport,
    /// B9: a used core name has two meanings, or a needed item has two core exports.
    #[error("B9 Ambiguous")]
    Ambiguous,
    /// B10: legacy names are rejected, and an import has only a legacy meaning.
    #[error("B10 LegacyName")]
    LegacyName,
    /// B11: a core import or a used core export isn't of its entry's core type.
    #[error("B11 WrongCoreType")]
    WrongCoreType,
    /// B12: a needed core export isn't there.
    #[error("B12 MissingCoreExport")]
    MissingCoreExport,
    /// B25: a size or index of the component would pass 4,294,967,295.
    #[error("B25 TooLarge")]
    TooLarge,
    /// A request for memory was refused.
    #[error("out of memory")]
    OutOfMemory,
}

impl From<AllocError> for Fault {
    ghost use Rattle.wit_component.specs.declared.fault.Fault.TheVariants.{OutOfMemory};

    ghost from_gives = { λ _ e. e ≡ OutOfMemory };

    fn from(_e: AllocError) -> Fault {
        Fault::OutOfMemory
    }
}

impl<T: Drop> From<AllocFailed<T>> for Fault {
    ghost use Rattle.wit_component.specs.declared.fault.Fault.TheVariants.{OutOfMemory};

    ghost from_gives = { λ _ e. e ≡ OutOfMemory };

    fn from(_e: AllocFailed<T>) -> Fault {
        Fault::OutOfMemory
    }
}

impl Fault {
    /// The code of its cause, as `B8`; none for want of memory.
    pub fn code(&self) -> Option<&'static str>
        ensures { option_map (λ s. s.now) result ≡ spec.code self.now }
    {
        match self {
            Fault::NotYet => Some("X1"),
            Fault::DuplicateImport => Some("B7"),
            Fault::UnknownImport => Some("B8"),
            Fault::Ambiguous => Some("B9"),
            Fault::LegacyName => Some("B10"),
            Fault::WrongCoreType => Some("B11"),
            Fault::MissingCoreExport => Some("B12"),
            Fault::TooLarge => Some("B25"),
            Fault::OutOfMemory => None,
        }
    }

    /// The name of its cause, as `UnknownImport`.
    pub fn name(&self) -> &'static str
        ensures { result.now ≡ spec.name self.now }
    {
        match self {
            Fault::NotYet => "NotYet",
            Fault::DuplicateImport => "DuplicateImport",
            Fault::UnknownImport => "UnknownImport",
            Fault::Ambiguous => "Ambiguous",
            Fault::LegacyName => "LegacyName",
            Fault::WrongCoreType => "WrongCoreType",
            Fault::MissingCoreExport => "MissingCoreExport",
            Fault::TooLarge => "TooLarge",
            Fault::OutOfMemory => "OutOfMemory",
        }
    }
}
