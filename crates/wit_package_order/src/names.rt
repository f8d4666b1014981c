//! Packages by their names.

ghost use Rattle.std.specs.Prelude.{◌≡◌, length, IfOk, OnOk, IfErr};
ghost use Rattle.wit_package_order.specs.Packages as spec;
ghost use Rattle.wit_package_order.specs.Names.{names, AreNew, IsNamesCause};

use crate::fault::PackageOrderFault;
use indexmap::IndexMap;
use std::alloc::Global;
use wit_types::{PackageName, UnresolvedPackage};

/// The packages by their names, each with its place. Refuses one that has the name of one before it.
pub fn places<'p>(
    alloc: Global,
    packages: &'p [UnresolvedPackage],
) -> Result<IndexMap<&'p PackageName, usize>, PackageOrderFault>
    ensures ok { IfOk result (λ m. names m.entries ≡ spec.named packages.now) }
    ensures distinct { OnOk result (AreNew ⟦<PackageName as PartialEq>⟧.eq packages.now (length packages.now)) }
    ensures cause { IfErr result (IsNamesCause ⟦<PackageName as PartialEq>⟧.eq packages.now) }
{
    let mut found: IndexMap<&PackageName, usize> = IndexMap::new(alloc);
    for (place, package) in packages.iter().enumerate() {
        if found.contains_key(&&package.name) {
            return Err(PackageOrderFault::ComesTwice(package.name_span));
        }
        found.insert(&package.name, place)?;
    }
    Ok(found)
}
