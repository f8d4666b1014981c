//! Why a module isn't taken.

ghost use Rattle.std.specs.Prelude.{◌≡◌};

use std::alloc::{AllocError, AllocFailed};
use thiserror::Error;

/// Why a module that can be read isn't taken; its text is what the program prints behind `error: `.
#[derive(Clone, Copy, Debug, PartialEq, Eq, Drop, Error)]
pub enum HandFault {
    /// B22: an argument of a library names neither the library itself nor an adapter or library that was handed in.
    #[error("B22 UnknownAdapter")]
    UnknownAdapter,
    /// B24: another module that stays has the same bytes.
    #[error("B24 DuplicateModule")]
    DuplicateModule,
    /// A request for memory was refused.
    #[error("out of memory")]
    OutOfMemory,
}

impl From<AllocError> for HandFault {
    ghost use Rattle.handed_modules.specs.declared.fault.HandFault.TheVariants.{OutOfMemory};

    ghost from_gives = { λ _ e. e ≡ OutOfMemory };

    fn from(_e: AllocError) -> HandFault {
        HandFault::OutOfMemory
    }
}

impl<T: Drop> From<AllocFailed<T>> for HandFault {
    ghost use Rattle.handed_modules.specs.declared.fault.HandFault.TheVariants.{OutOfMemory};

    ghost from_gives = { λ _ e. e ≡ OutOfMemory };

    fn from(_e: AllocFailed<T>) -> HandFault {
        HandFault::OutOfMemory
    }
}
