//! Why packages can't be pushed together.

ghost use Rattle.std.specs.Prelude.{◌≡◌};

use std::alloc::{AllocError, AllocFailed};
use wit_graph::PushFault;
use wit_package_order::PackageOrderFault;
use wit_words::Span;

/// Why packages can't be pushed together.
#[derive(Debug, Drop)]
pub enum GroupFault {
    /// They depend on each other in a circle: here one asks for the next.
    PackageCycle(Span),
    /// Two of them have one name and version: that of the second stands here.
    ComesTwice(Span),
    /// One of them can't be pushed behind those on which it depends.
    Push(PushFault),
}

impl From<PushFault> for GroupFault {
    ghost use Rattle.wit_groups.specs.declared.fault.GroupFault.TheVariants.{Push};

    ghost from_gives = { λ cause e. e ≡ Push cause };

    fn from(cause: PushFault) -> GroupFault {
        GroupFault::Push(cause)
    }
}

impl From<PackageOrderFault> for GroupFault {
    ghost use Rattle.wit_groups.specs.Pushed.{of_order};

    ghost from_gives = { λ cause e. e ≡ of_order cause };

    fn from(cause: PackageOrderFault) -> GroupFault {
        match cause {
            PackageOrderFault::Cycle(at) => GroupFault::PackageCycle(at),
            PackageOrderFault::ComesTwice(at) => GroupFault::ComesTwice(at),
            PackageOrderFault::OutOfMemory => GroupFault::Push(PushFault::OutOfMemory),
        }
    }
}

impl From<AllocError> for GroupFault {
    ghost use Rattle.wit_graph.specs.Passed.wit_graph_parts-declared-fault-PushFault-TheVariants.{OutOfMemory};
    ghost use Rattle.wit_groups.specs.declared.fault.GroupFault.TheVariants.{Push};

    ghost from_gives = { λ _ e. e ≡ Push OutOfMemory };

    fn from(_cause: AllocError) -> GroupFault {
        GroupFault::Push(PushFault::OutOfMemory)
    }
}

impl<T: Drop> From<AllocFailed<T>> for GroupFault {
    ghost use Rattle.wit_graph.specs.Passed.wit_graph_parts-declared-fault-PushFault-TheVariants.{OutOfMemory};
    ghost use Rattle.wit_groups.specs.declared.fault.GroupFault.TheVariants.{Push};

    ghost from_gives = { λ _ e. e ≡ Push OutOfMemory };

    fn from(_cause: AllocFailed<T>) -> GroupFault {
        GroupFault::Push(PushFault::OutOfMemory)
    }
}
