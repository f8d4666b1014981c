//! Why there is no link table.

ghost use Rattle.std.specs.Prelude.{◌≡◌};

use core_links::LinkFault;
use linked_types::TypeFault;
use std::alloc::{AllocError, AllocFailed};
use thiserror::Error;

/// Why a module has no link table with a world; its text is what the program prints behind `error: `.
#[derive(Clone, Copy, Debug, PartialEq, Eq, Drop, Error)]
pub enum TableFault {
    /// X1: what is linked lies outside what is built so far.
    #[error("X1 NotYet")]
    NotYet,
    /// B7 to B12: names or core types aren't those of the world. Never X1 or want of memory, which are `NotYet` and `OutOfMemory`.
    #[error("{0}")]
    Link(LinkFault),
    /// B13: a function asks for a memory, and the module exports none.
    #[error("B13 NoMemory")]
    NoMemory,
    /// B14: a function asks for what makes room in the memory, and the module exports none.
    #[error("B14 NoRealloc")]
    NoRealloc,
    /// B15 to B17: a function, or a type that it reaches, isn't linked. Never X1 or want of memory, which are `NotYet` and `OutOfMemory`.
    #[error("{0}")]
    Types(TypeFault),
    /// A request for memory was refused.
    #[error("out of memory")]
    OutOfMemory,
}

impl From<LinkFault> for TableFault {
    ghost use Rattle.link_table.specs.Cause.{of_link};

    ghost from_gives = { λ fault e. e ≡ of_link fault };

    fn from(fault: LinkFault) -> TableFault {
        match fault {
            LinkFault::NotYet => TableFault::NotYet,
            LinkFault::OutOfMemory => TableFault::OutOfMemory,
            LinkFault::DuplicateImport
            | LinkFault::UnknownImport
            | LinkFault::Ambiguous
            | LinkFault::LegacyName
            | LinkFault::WrongCoreType
            | LinkFault::MissingCoreExport => TableFault::Link(fault),
        }
    }
}

impl From<TypeFault> for TableFault {
    ghost use Rattle.link_table.specs.Cause.{of_type};

    ghost from_gives = { λ fault e. e ≡ of_type fault };

    fn from(fault: TypeFault) -> TableFault {
        match fault {
            TypeFault::NotYet => TableFault::NotYet,
            TypeFault::OutOfMemory => TableFault::OutOfMemory,
            TypeFault::AsyncReached | TypeFault::EmptyTypeReached | TypeFault::TooManyFlags => {
                TableFault::Types(fault)
            }
        }
    }
}

impl From<AllocError> for TableFault {
    ghost use Rattle.link_table.specs.declared.fault.TableFault.TheVariants.{OutOfMemory};

    ghost from_gives = { λ _ e. e ≡ OutOfMemory };

    fn from(_e: AllocError) -> TableFault {
        TableFault::OutOfMemory
    }
}

impl<T: Drop> From<AllocFailed<T>> for TableFault {
    ghost use Rattle.link_table.specs.declared.fault.TableFault.TheVariants.{OutOfMemory};

    ghost from_gives = { λ _ e. e ≡ OutOfMemory };

    fn from(_e: AllocFailed<T>) -> TableFault {
        TableFault::OutOfMemory
    }
}
