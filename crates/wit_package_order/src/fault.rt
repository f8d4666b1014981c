//! Why packages have no order.

ghost use Rattle.std.specs.Prelude.{◌≡◌};

use std::alloc::{AllocError, AllocFailed};
use wit_words::Span;

/// Why packages have no order.
#[derive(Debug, Drop)]
pub enum PackageOrderFault {
    /// They depend on each other in a circle: here one asks for the next.
    Cycle(Span),
    /// Two of them have one name and version: that of the second stands here.
    ComesTwice(Span),
    /// A request for memory was refused.
    OutOfMemory,
}

impl From<AllocError> for PackageOrderFault {
    ghost use Rattle.wit_package_order.specs.declared.fault.PackageOrderFault.TheVariants.{OutOfMemory};

    ghost from_gives = { λ _ e. e ≡ OutOfMemory };

    fn from(_cause: AllocError) -> PackageOrderFault {
        PackageOrderFault::OutOfMemory
    }
}

impl<T: Drop> From<AllocFailed<T>> for PackageOrderFault {
    ghost use Rattle.wit_package_order.specs.declared.fault.PackageOrderFault.TheVariants.{OutOfMemory};

    ghost from_gives = { λ _ e. e ≡ OutOfMemory };

    fn from(_cause: AllocFailed<T>) -> PackageOrderFault {
        PackageOrderFault::OutOfMemory
    }
}
