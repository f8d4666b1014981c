//! Why a package can't be pushed.

ghost use Rattle.std.specs.Prelude.{◌≡◌};

use std::alloc::{AllocError, AllocFailed};
use wit_graph_worlds::{FindFault, WorldFault};
use wit_moves::MoveFault;
use wit_types::InterfaceId;
use wit_words::Span;

/// Why a package can't be pushed.
#[derive(Debug, Drop)]
pub enum PushFault {
    /// An item is stable from a version on that the package hasn't reached.
    GateVersion(Span),
    /// A package of the name that stands there is there already.
    DuplicatePackage(Span),
    /// A package that is named isn't there.
    PackageNotFound(Span),
    /// A statement that stays names what isn't there, or is left out.
    ItemNotFound(Span),
    /// A plain name of a world has the name key of one before it on the same side.
    IncludeClash(Span),
    /// This interface is exported by the world that stands there, and needed by one that an export of it needs from outside.
    ExportConflict(InterfaceId, Span),
    /// A handle is of what turns out to be no resource, or the result of a function holds what is lent.
    ForeignShape(Span),
    /// Memory is wanting.
    OutOfMemory,
}

impl From<FindFault> for PushFault {
    ghost use Rattle.wit_graph_parts.specs.Faults.{of_found};

    ghost from_gives = { λ cause e. e ≡ of_found cause };

    fn from(cause: FindFault) -> PushFault {
        match cause {
            FindFault::PackageNotFound(span) => PushFault::PackageNotFound(span),
            FindFault::ItemNotFound(span) => PushFault::ItemNotFound(span),
            FindFault::OutOfMemory => PushFault::OutOfMemory,
        }
    }
}

impl From<MoveFault> for PushFault {
    ghost use Rattle.wit_graph_parts.specs.Faults.{of_moved};

    ghost from_gives = { λ cause e. e ≡ of_moved cause };

    fn from(cause: MoveFault) -> PushFault {
        match cause {
            MoveFault::ItemNotFound(span) => PushFault::ItemNotFound(span),
            MoveFault::OutOfMemory => PushFault::OutOfMemory,
        }
    }
}

impl From<WorldFault> for PushFault {
    ghost use Rattle.wit_graph_parts.specs.Faults.{of_world};

    ghost from_gives = { λ cause e. e ≡ of_world cause };

    fn from(cause: WorldFault) -> PushFault {
        match cause {
            WorldFault::ItemNotFound(span) => PushFault::ItemNotFound(span),
            WorldFault::IncludeClash(span) => PushFault::IncludeClash(span),
            WorldFault::ExportConflict(id, span) => PushFault::ExportConflict(id, span),
            WorldFault::OutOfMemory => PushFault::OutOfMemory,
        }
    }
}

impl From<AllocError> for PushFault {
    ghost use Rattle.wit_graph_parts.specs.declared.fault.PushFault.TheVariants.{OutOfMemory};

    ghost from_gives = { λ _ e. e ≡ OutOfMemory };

    fn from(_cause: AllocError) -> PushFault {
        PushFault::OutOfMemory
    }
}

impl<T: Drop> From<AllocFailed<T>> for PushFault {
    ghost use Rattle.wit_graph_parts.specs.declared.fault.PushFault.TheVariants.{OutOfMemory};

    ghost from_gives = { λ _ e. e ≡ OutOfMemory };

    fn from(_cause: AllocFailed<T>) -> PushFault {
        PushFault::OutOfMemory
    }
}
