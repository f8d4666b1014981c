//! Why there is no component.

ghost use Rattle.std.specs.Prelude.{◌≡◌};

use encodable_worlds::TableFault;
use std::alloc::{AllocError, AllocFailed};
use thiserror::Error;
use type_writing::Fault as WritingFault;

/// Why a module has no component with a world; its text is what the program prints behind `error: `.
#[derive(Clone, Copy, Debug, PartialEq, Eq, Drop, Error)]
pub enum ComponentFault {
    /// X1, B7 to B17, and want of memory: there is no link table, or what the table needs can't be imported yet.
    #[error("{0}")]
    Table(TableFault),
    /// B25: 32 bits can't say an index, a count or a size of the component.
    #[error("B25 TooLarge")]
    TooLarge,
}

impl From<TableFault> for ComponentFault {
    ghost use Rattle.linked_components.specs.declared.fault.ComponentFault.TheVariants.{Table};

    ghost from_gives = { λ fault e. e ≡ Table fault };

    fn from(fault: TableFault) -> ComponentFault {
        ComponentFault::Table(fault)
    }
}

impl From<WritingFault> for ComponentFault {
    ghost use Rattle.linked_components.specs.Faults.{of_writing};

    ghost from_gives = { λ fault e. e ≡ of_writing fault };

    fn from(fault: WritingFault) -> ComponentFault {
        match fault {
            WritingFault::NotYet => ComponentFault::Table(TableFault::NotYet),
            WritingFault::TooLarge => ComponentFault::TooLarge,
            WritingFault::OutOfMemory => ComponentFault::Table(TableFault::OutOfMemory),
        }
    }
}

impl From<AllocError> for ComponentFault {
    ghost use Rattle.linked_components.specs.Faults.{no_memory};

    ghost from_gives = { λ _ e. e ≡ no_memory };

    fn from(_e: AllocError) -> ComponentFault {
        ComponentFault::Table(TableFault::OutOfMemory)
    }
}

impl<T: Drop> From<AllocFailed<T>> for ComponentFault {
    ghost use Rattle.linked_components.specs.Faults.{no_memory};

    ghost from_gives = { λ _ e. e ≡ no_memory };

    fn from(_e: AllocFailed<T>) -> ComponentFault {
        ComponentFault::Table(TableFault::OutOfMemory)
    }
}
