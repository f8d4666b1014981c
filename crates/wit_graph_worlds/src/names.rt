//! What a package names.

ghost use Rattle.std.specs.Prelude.{◌≡◌, ◌+◌, map, bytes_eq, IfOk, OnOk};
ghost use Rattle.indexmap.specs.IndexMap.{insert_entry};
ghost use Rattle.wit_graph_worlds.specs.Names as spec;

use indexmap::IndexMap;
use std::alloc::{AllocError, Global};
use wit_types::{Id, Interface, InterfaceId, PackageName, WorldId};
use wit_uses::MovedWorld;

/// The name of a package once more.
pub fn copied_name(name: &PackageName) -> Result<PackageName, AllocError>
    ensures { IfOk result (spec.IsSameName name.now) }
{
    Ok(name.clone()?)
}

/// The next index.
fn next(index: usize) -> Result<usize, AllocError>
    ensures { IfOk result (λ n. n ≡ index + 1) }
{
    match index.checked_add(1) {
        Some(next) => Ok(next),
        None => Err(AllocError),
    }
}

/// Adds a name.
fn add_name<T>(
    alloc: Global,
    names: &mut IndexMap<String, Id<T>>,
    name: &str,
    id: Id<T>,
) -> Result<(), AllocError>
    ensures { OnOk result (map spec.by_bytes names.new.entries ≡ insert_entry bytes_eq (map spec.by_bytes names.old.entries) name.now id) }
{
    let name = String::from_str(alloc, name)?;
    names.insert(name, id)?;
    Ok(())
}

/// The names of interfaces, as far as they have some, of which the first has that index.
pub fn interface_names(
    alloc: Global,
    first: usize,
    interfaces: &[Interface],
) -> Result<IndexMap<String, InterfaceId>, AllocError>
    ensures { IfOk result (λ names. spec.AreNames (spec.interface_names first interfaces.now) names.entries) }
{
    let mut names = IndexMap::new(alloc);
    let mut index = first;
    for interface in interfaces {
        if let Some(name) = &interface.name {
            let id = InterfaceId::from_index(index);
            add_name(alloc, &mut names, name.as_str(), id)?;
        }
        index = next(index)?;
    }
    Ok(names)
}

/// The names of worlds of which the first has that index.
pub fn world_names(
    alloc: Global,
    first: usize,
    worlds: &[MovedWorld],
) -> Result<IndexMap<String, WorldId>, AllocError>
    ensures { IfOk result (λ names. spec.AreNames (spec.world_names first worlds.now) names.entries) }
{
    let mut names = IndexMap::new(alloc);
    let mut index = first;
    for world in worlds {
        let id = WorldId::from_index(index);
        add_name(alloc, &mut names, world.name.as_str(), id)?;
        index = next(index)?;
    }
    Ok(names)
}
