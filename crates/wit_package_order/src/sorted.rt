//! Packages in an order.

ghost use Rattle.std.specs.Prelude.{◌≡◌, ◌<◌, None, Some, map, length, set, slice_get, IfOk};
ghost use Rattle.wit_types.specs.declared.«package».UnresolvedPackage.{UnresolvedPackage};
ghost use Rattle.wit_package_order.specs.Packages as spec;

use std::alloc::{AllocError, Global};
use wit_types::{PackageName, UnresolvedPackage};

/// The packages, to be taken one by one.
fn slots(
    alloc: Global,
    packages: Vec<UnresolvedPackage>,
) -> Result<Vec<Option<UnresolvedPackage>>, AllocError>
    ensures { IfOk result (λ s. s.items ≡ map (λ (p : UnresolvedPackage). Some p) packages.items) }
{
    let mut slots = Vec::new(alloc);
    for package in packages {
        slots.push(Some(package))?;
    }
    Ok(slots)
}

/// Takes the package at a place.
fn taken(slots: &mut Vec<Option<UnresolvedPackage>>, place: usize) -> Option<UnresolvedPackage>
    requires { place < length slots.old.items }
    ensures was { slice_get slots.old.items place ≡ Some result }
    ensures now { slots.new.items ≡ set slots.old.items place None }
{
    slots[place].take()
}

/// The packages in an order of their places.
pub fn sorted_packages(
    alloc: Global,
    packages: Vec<UnresolvedPackage>,
    order: &[usize],
) -> Result<Vec<UnresolvedPackage>, AllocError>
    requires { spec.IsOrder ⟦<PackageName as PartialEq>⟧.eq packages.items order.now }
    ensures { IfOk result (λ sorted. spec.AreAt packages.items order.now sorted.items) }
{
    let mut slots = slots(alloc, packages)?;
    let mut sorted = Vec::new(alloc);
    for place in order {
        if let Some(package) = taken(&mut slots, *place) {
            sorted.push(package)?;
        }
    }
    Ok(sorted)
}
