//! Names of types in the world that includes another.

ghost use Rattle.std.specs.Prelude.{◌≡◌, Some, IfOk};
ghost use Rattle.wit_includes.specs.Included as spec;

use std::alloc::{AllocError, Global};
use wit_sides::Renames;
use wit_types::{TypeDef, TypeOwner, WorldId};

/// Whether something belongs to a world.
fn is_of_world(world: WorldId, owner: TypeOwner) -> bool
    ensures { result ≡ spec.is_of_world world owner }
{
    match owner {
        TypeOwner::World(owner) => owner == world,
        TypeOwner::Interface(_) | TypeOwner::None => false,
    }
}

/// A type under another name.
fn with_name(def: TypeDef, name: String) -> TypeDef
    ensures { result ≡ record def { name = Some name } }
{
    let mut named = def;
    named.name = Some(name);
    named
}

/// What a type of a world is called there.
fn renamed_def(
    alloc: Global,
    renames: &Renames,
    world: WorldId,
    def: TypeDef,
) -> Result<TypeDef, AllocError>
    ensures { IfOk result (spec.IsRenamedDef renames.now world def) }
{
    if !is_of_world(world, def.owner) {
        return Ok(def);
    }
    match &def.name {
        Some(name) => {
            let name = renames.renamed(alloc, name.as_str())?;
            Ok(with_name(def, name))
        }
        None => Ok(def),
    }
}

/// Types, those of a world as they are called there.
pub fn renamed_defs(
    alloc: Global,
    renames: &Renames,
    world: WorldId,
    defs: Vec<TypeDef>,
) -> Result<Vec<TypeDef>, AllocError>
    ensures { IfOk result (λ found. spec.AreRenamedDefs renames.now world defs.items found.items) }
{
    let mut found = Vec::with_capacity(alloc, defs.len())?;
    for def in defs {
        found.push(renamed_def(alloc, renames, world, def)?)?;
    }
    Ok(found)
}
