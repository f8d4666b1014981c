//! Packages.

ghost use Rattle.std.specs.Prelude.{◌≡◌, IfOk, OnOk, IfErr};
ghost use Rattle.wit_offsets.specs.Offsets as spec;
ghost use Rattle.wit_offsets.specs.Walks.{Walks};

use crate::shift::{Placed, Shift, move_all, moved_arena};
use wit_types::UnresolvedPackage;

/// A place doesn't fit into 32 bits.
#[derive(Clone, Copy, Debug, PartialEq, Eq, Drop)]
pub struct TooLarge;

/// Moves the places of a package.
fn move_package(package: UnresolvedPackage, shift: &mut Shift) -> UnresolvedPackage
    ensures { Walks spec.package_by spec.package_spans shift.old «package» shift.new result }
{
    let mut moved = package;
    moved.name_span.move_by(shift);
    move_all(moved.foreign_dep_spans.as_mut_slice(), shift);
    move_all(moved.unknown_type_spans.as_mut_slice(), shift);
    moved.types = moved_arena(moved.types, shift);
    moved.interfaces = moved_arena(moved.interfaces, shift);
    moved.worlds = moved_arena(moved.worlds, shift);
    moved
}

/// The package with each of its places so many bytes further on; refused where one of them would pass 4,294,967,295.
pub fn with_offset(package: UnresolvedPackage, offset: u32) -> Result<UnresolvedPackage, TooLarge>
    ensures ok { IfOk result (λ q. q ≡ spec.package_at offset «package») }
    ensures small { OnOk result (spec.Fits offset «package») }
    ensures cause { IfErr result (λ _. spec.Passes offset «package») }
{
    let mut shift = Shift {
        offset,
        passes: false,
    };
    let moved = move_package(package, &mut shift);
    if shift.passes {
        return Err(TooLarge);
    }
    Ok(moved)
}
