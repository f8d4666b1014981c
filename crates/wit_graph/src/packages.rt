//! Packages that name interfaces of others.

ghost use Rattle.std.specs.Prelude.{◌≡◌, ◌↔◌, ◌⊎◌, ◌<◌, ℕ, Some, length, map, IfOk, IfSome, OnOk};
ghost use Rattle.wit_order.specs.Order.{Has};
ghost use Rattle.wit_graph.specs.Graph.{AreWhole, IsNamedIn};
ghost use Rattle.wit_graph.specs.Packages as spec;
ghost use Rattle.wit_reach.specs.Paths.{AreRising};

use crate::tables::Tables;
use std::alloc::{AllocError, Global};
use std::collections::BTreeSet;
use wit_elaborated::law_elaborated_worlds_are_there;
use wit_reach::{add_all, add_uses, named_interfaces};
use wit_types::{Arena, Interface, InterfaceId, Package, PackageId, WorldId};

/// The interfaces of a package.
fn interface_ids(alloc: Global, package: &Package) -> Result<Vec<InterfaceId>, AllocError>
    ensures { IfOk result (λ ids. ids.items ≡ map (λ e. e.1) «package».now.interfaces.entries) }
{
    let mut ids = Vec::with_capacity(alloc, package.interfaces.len())?;
    for id in package.interfaces.values() {
        ids.push(*id)?;
    }
    Ok(ids)
}

/// The worlds of a package.
fn world_ids(alloc: Global, package: &Package) -> Result<Vec<WorldId>, AllocError>
    ensures { IfOk result (λ ids. ids.items ≡ map (λ e. e.1) «package».now.worlds.entries) }
{
    let mut ids = Vec::with_capacity(alloc, package.worlds.len())?;
    for id in package.worlds.values() {
        ids.push(*id)?;
    }
    Ok(ids)
}

/// Adds the interfaces that a world names.
fn add_world(
    alloc: Global,
    set: &mut BTreeSet<usize>,
    tables: &Tables,
    id: WorldId,
) -> Result<(), AllocError>
    requires whole { AreWhole tables.now }
    requires there { id < length tables.now.worlds.listed }
    ensures was { OnOk result ((j : ℕ) → Has set.old.keys j → Has set.new.keys j) }
    ensures new { OnOk result ((j : ℕ) → spec.IsNamedByWorld tables.now id j → Has set.new.keys j) }
    ensures only { OnOk result ((j : ℕ) → Has set.new.keys j → Has set.old.keys j ⊎ spec.IsNamedByWorld tables.now id j) }
{
    law_elaborated_worlds_are_there();
    let world = tables.worlds.elaborated().get(id);
    let named = named_interfaces(alloc, &tables.types, world)?;
    add_all(set, named.as_slice())
}

/// Adds the interfaces that worlds name.
fn add_worlds(
    alloc: Global,
    set: &mut BTreeSet<usize>,
    tables: &Tables,
    ids: &[WorldId],
) -> Result<(), AllocError>
    requires whole { AreWhole tables.now }
    requires there { (i : ℕ) → Has ids.now i → i < length tables.now.worlds.listed }
    ensures was { OnOk result ((j : ℕ) → Has set.old.keys j → Has set.new.keys j) }
    ensures new { OnOk result ((i j : ℕ) → Has ids.now i → spec.IsNamedByWorld tables.now i j → Has set.new.keys j) }
    ensures only { OnOk result ((j : ℕ) → Has set.new.keys j → Has set.old.keys j ⊎ ((i : ℕ) × Has ids.now i × spec.IsNamedByWorld tables.now i j)) }
{
    for id in ids {
        add_world(alloc, set, tables, *id)?;
    }
    Ok(())
}

/// The interfaces that are named in a package.
fn named_in(
    alloc: Global,
    tables: &Tables,
    package: &Package,
) -> Result<BTreeSet<usize>, AllocError>
    requires whole { AreWhole tables.now }
    requires there { Has tables.now.packages «package».now }
    ensures { IfOk result (λ named. (j : ℕ) → Has named.keys j ↔ IsNamedIn tables.now «package».now j) }
{
    let interfaces = interface_ids(alloc, package)?;
    let worlds = world_ids(alloc, package)?;
    let mut named = BTreeSet::new(alloc);
    add_uses(&mut named, tables.interfaces.uses(), interfaces.as_slice())?;
    add_worlds(alloc, &mut named, tables, worlds.as_slice())?;
    Ok(named)
}

/// The package to which an interface belongs, where that is another one.
fn other_package(
    interfaces: &Arena<Interface>,
    own: PackageId,
    id: InterfaceId,
) -> Option<PackageId>
    requires { id < length interfaces.now }
    ensures some { IfSome result (spec.IsOfOther interfaces.now own id) }
    ensures all { (q : ℕ) → spec.IsOfOther interfaces.now own id q → result ≡ Some q }
{
    let owner = interfaces.get(id).package?;
    if owner == own { None } else { Some(owner) }
}

/// Adds the package to which an interface belongs, where that is another one.
fn add_owner(
    set: &mut BTreeSet<usize>,
    interfaces: &Arena<Interface>,
    own: PackageId,
    id: InterfaceId,
) -> Result<(), AllocError>
    requires { id < length interfaces.now }
    ensures was { OnOk result ((q : ℕ) → Has set.old.keys q → Has set.new.keys q) }
    ensures new { OnOk result ((q : ℕ) → spec.IsOfOther interfaces.now own id q → Has set.new.keys q) }
    ensures only { OnOk result ((q : ℕ) → Has set.new.keys q → Has set.old.keys q ⊎ spec.IsOfOther interfaces.now own id q) }
{
    if let Some(owner) = other_package(interfaces, own, id) {
        set.insert(owner.index())?;
    }
    Ok(())
}

/// Adds the packages to which interfaces belong, where those are others.
fn add_owners(
    set: &mut BTreeSet<usize>,
    interfaces: &Arena<Interface>,
    own: PackageId,
    ids: &[InterfaceId],
) -> Result<(), AllocError>
    requires { (i : ℕ) → Has ids.now i → i < length interfaces.now }
    ensures was { OnOk result ((q : ℕ) → Has set.old.keys q → Has set.new.keys q) }
    ensures new { OnOk result ((i q : ℕ) → Has ids.now i → spec.IsOfOther interfaces.now own i q → Has set.new.keys q) }
    ensures only { OnOk result ((q : ℕ) → Has set.new.keys q → Has set.old.keys q ⊎ ((i : ℕ) × Has ids.now i × spec.IsOfOther interfaces.now own i q)) }
{
    for id in ids {
        add_owner(set, interfaces, own, *id)?;
    }
    Ok(())
}

/// The interfaces of a set.
fn interfaces_of(alloc: Global, set: &BTreeSet<usize>) -> Result<Vec<InterfaceId>, AllocError>
    ensures { IfOk result (λ found. found.items ≡ set.now.keys) }
{
    let mut found = Vec::with_capacity(alloc, set.len())?;
    for index in set {
        found.push(InterfaceId::from_index(*index))?;
    }
    Ok(found)
}

/// The packages of a set, by rising ids.
fn packages_of(alloc: Global, set: &BTreeSet<usize>) -> Result<Vec<PackageId>, AllocError>
    ensures keys { IfOk result (λ found. found.items ≡ set.now.keys) }
    ensures rising { IfOk result (λ found. AreRising found.items) }
{
    let mut found = Vec::with_capacity(alloc, set.len())?;
    for index in set {
        found.push(PackageId::from_index(*index))?;
    }
    Ok(found)
}

/// The packages of which a package names an interface, but for itself, by rising ids.
pub fn package_deps(
    alloc: Global,
    tables: &Tables,
    id: PackageId,
) -> Result<Vec<PackageId>, AllocError>
    requires whole { AreWhole tables.now }
    requires there { id < length tables.now.packages }
    ensures { IfOk result (λ deps. spec.ArePackageDeps tables.now id deps.items) }
{
    law_elaborated_worlds_are_there();
    let named = named_in(alloc, tables, tables.packages.get(id))?;
    let interfaces = interfaces_of(alloc, &named)?;
    let mut owners = BTreeSet::new(alloc);
    add_owners(
        &mut owners,
        tables.interfaces.all(),
        id,
        interfaces.as_slice(),
    )?;
    packages_of(alloc, &owners)
}

/// All packages, each behind those of which it names an interface.
pub fn ordered(alloc: Global, tables: &Tables) -> Result<Vec<PackageId>, AllocError>
    requires { AreWhole tables.now }
    ensures { IfOk result (λ order. spec.ArePackagesInOrder tables.now order.items) }
{
    let mut order = Vec::with_capacity(alloc, tables.packages.len())?;
    for index in 0..tables.packages.len() {
        order.push(PackageId::from_index(index))?;
    }
    Ok(order)
}
