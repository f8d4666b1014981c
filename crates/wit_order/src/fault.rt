//! Why names have no order.

ghost use Rattle.std.specs.Prelude.{◌≡◌};

use crate::Span;
use std::alloc::{AllocError, AllocFailed};
use thiserror::Error;

/// Why names have no order.
#[derive(Clone, Copy, Debug, Drop, Error)]
pub enum OrderFault<'a> {
    /// A name is needed that isn't there.
    #[error("{kind} `{name}` does not exist")]
    NameNotFound {
        /// What the names are names of, as it was given: `interface`, `world` or the like.
        kind: &'a str,
        /// The name that isn't there.
        name: &'a str,
        /// Where it is needed.
        span: Span,
    },
    /// Each needed name is there, and one leads back to itself.
    #[error("{kind} `{name}` depends on itself")]
    Cycle {
        /// What the names are names of, as it was given.
        kind: &'a str,
        /// The name that leads back to itself.
        name: &'a str,
        /// Where it is needed by one of those that it leads to, or by itself.
        span: Span,
    },
    /// A request for memory was refused.
    #[error("out of memory")]
    OutOfMemory,
}

impl<'a> From<AllocError> for OrderFault<'a> {
    ghost use Rattle.wit_order.specs.declared.fault.OrderFault.TheVariants.{OutOfMemory};

    ghost from_gives = { λ _ e. e ≡ OutOfMemory };

    fn from(_cause: AllocError) -> OrderFault<'a> {
        OrderFault::OutOfMemory
    }
}

impl<'a, T: Drop> From<AllocFailed<T>> for OrderFault<'a> {
    ghost use Rattle.wit_order.specs.declared.fault.OrderFault.TheVariants.{OutOfMemory};

    ghost from_gives = { λ _ e. e ≡ OutOfMemory };

    fn from(_cause: AllocFailed<T>) -> OrderFault<'a> {
        OrderFault::OutOfMemory
    }
}
