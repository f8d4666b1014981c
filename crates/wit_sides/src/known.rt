//! Names that an `include` changes and that are there.

ghost use Rattle.std.specs.Prelude.{◌≡◌, ◌++◌, bytes_eq, string_bytes, OnOk, IfOk};
ghost use Rattle.std.specs.List.{list_any, list_all};
ghost use Rattle.wit_sides.specs.Known as spec;

use indexmap::IndexMap;
use name_places::FirstPlaces;
use std::alloc::{AllocError, Global};
use wit_types::{IncludeName, World, WorldItem, WorldKey};

/// Adds the plain names of a side.
fn add_names<'a>(
    names: &mut FirstPlaces<'a>,
    side: &'a IndexMap<WorldKey, WorldItem>,
) -> Result<(), AllocError>
    ensures { OnOk result (names.new ≡ names.old ++ spec.names_of side.entry.now.entries) }
{
    for key in side.keys() {
        if let WorldKey::Name(name) = key {
            names.push(name.as_str())?;
        }
    }
    Ok(())
}

/// Whether the name that is changed is among these.
fn has(names: &FirstPlaces, name: &IncludeName) -> bool
    ensures { result ≡ list_any (bytes_eq (string_bytes name.now.name)) names.now }
{
    names.first(name.name.as_str()).is_some()
}

/// Whether all names that are changed are among these.
fn all_there(there: &FirstPlaces, names: &[IncludeName]) -> bool
    ensures { result ≡ list_all (λ n. list_any (bytes_eq (string_bytes n.name)) there.now) names.now }
{
    names.iter().all(|name| has(there, name))
}

/// Whether each name that an `include` changes is a plain name of the included world (WIT, Item: `include`).
pub fn are_there(alloc: Global, names: &[IncludeName], world: &World) -> Result<bool, AllocError>
    ensures { IfOk result (λ there. there ≡ spec.are_there names.now world.now) }
{
    let mut there = FirstPlaces::new(alloc);
    add_names(&mut there, &world.imports)?;
    add_names(&mut there, &world.exports)?;
    Ok(all_there(&there, names))
}
