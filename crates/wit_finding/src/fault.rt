//! Why what a package asks of others isn't found.

ghost use Rattle.std.specs.Prelude.{◌≡◌};

use std::alloc::{AllocError, AllocFailed};
use wit_words::Span;

/// Why what a package asks of others isn't found.
#[derive(Debug, Drop)]
pub enum FindFault {
    /// A package isn't there.
    PackageNotFound(Span),
    /// A package has no interface and no world of that name.
    ItemNotFound(Span),
    /// Memory is wanting.
    OutOfMemory,
}

impl From<AllocError> for FindFault {
    ghost use Rattle.wit_finding.specs.declared.fault.FindFault.TheVariants.{OutOfMemory};

    ghost from_gives = { λ _ e. e ≡ OutOfMemory };

    fn from(_cause: AllocError) -> FindFault {
        FindFault::OutOfMemory
    }
}

impl<T: Drop> From<AllocFailed<T>> for FindFault {
    ghost use Rattle.wit_finding.specs.declared.fault.FindFault.TheVariants.{OutOfMemory};

    ghost from_gives = { λ _ e. e ≡ OutOfMemory };

    fn from(_cause: AllocFailed<T>) -> FindFault {
        FindFault::OutOfMemory
    }
}
