//! Why a type isn't linked.

ghost use Rattle.std.specs.Prelude.{◌≡◌};

use std::alloc::{AllocError, AllocFailed};
use thiserror::Error;

/// Why a function or a type that it reaches isn't linked; its text is what the program prints behind `error: `.
#[derive(Clone, Copy, Debug, PartialEq, Eq, Drop, Error)]
pub enum TypeFault {
    /// X1: a resource, or a handle of one, is reached, which is to come.
    #[error("X1 NotYet")]
    NotYet,
    /// B15: an async function, a future, a stream or an error context is reached.
    #[error("B15 AsyncReached")]
    AsyncReached,
    /// B16: a record, a tuple or flags without parts are reached.
    #[error("B16 EmptyTypeReached")]
    EmptyTypeReached,
    /// B17: flags of more than 32 are reached.
    #[error("B17 TooManyFlags")]
    TooManyFlags,
    /// A request for memory was refused.
    #[error("out of memory")]
    OutOfMemory,
}

impl From<AllocError> for TypeFault {
    ghost use Rattle.linked_types.specs.declared.fault.TypeFault.TheVariants.{OutOfMemory};

    ghost from_gives = { λ _ e. e ≡ OutOfMemory };

    fn from(_e: AllocError) -> TypeFault {
        TypeFault::OutOfMemory
    }
}

impl<T: Drop> From<AllocFailed<T>> for TypeFault {
    ghost use Rattle.linked_types.specs.declared.fault.TypeFault.TheVariants.{OutOfMemory};

    ghost from_gives = { λ _ e. e ≡ OutOfMemory };

    fn from(_e: AllocFailed<T>) -> TypeFault {
        TypeFault::OutOfMemory
    }
}
