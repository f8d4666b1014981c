//! The types of a world.

ghost use Rattle.std.specs.Prelude.{◌<◌, ◌↔◌, length, IfOk, IsTrue};
ghost use Rattle.wit_reach.specs.Paths.{AreRising};
ghost use Rattle.wit_reach.specs.Types as spec;

use crate::ids::add_side;
use crate::made::made_of_within;
use std::alloc::{AllocError, Global};
use wit_types::{Arena, TypeDef, TypeId, TypeOwner, World, WorldId};

/// Whether a type belongs to a world, or nowhere.
fn is_local(types: &Arena<TypeDef>, world: WorldId, id: TypeId) -> bool
    requires { id < length types.now }
    ensures { IsTrue result ↔ spec.IsLocalAt world types.now id }
{
    match types.get(id).owner {
        TypeOwner::World(owner) => owner == world,
        TypeOwner::Interface(_) => false,
        TypeOwner::None => true,
    }
}

/// Those types that belong to a world, or nowhere, in their order.
fn local_of(
    alloc: Global,
    types: &Arena<TypeDef>,
    world: WorldId,
    ids: &[TypeId],
) -> Result<Vec<TypeId>, AllocError>
    requires there { spec.AreTypesThere types.now ids.now }
    requires rising { AreRising ids.now }
    ensures { IfOk result (λ found. spec.AreLocalOf world types.now ids.now found.items) }
{
    let mut found = Vec::new(alloc);
    for id in ids {
        if is_local(types, world, *id) {
            found.push(*id)?;
        }
    }
    Ok(found)
}

/// The types of a world, by rising ids: those that its items are made of over any number of steps, as far as they belong to it, or
/// nowhere. Types are made of earlier ones, and all that the items name are there.
pub fn world_types(
    alloc: Global,
    types: &Arena<TypeDef>,
    id: WorldId,
    world: &World,
) -> Result<Vec<TypeId>, AllocError>
    requires backward { spec.AreTypesBackward types.now }
    requires there { spec.AreSidesThere types.now world.now }
    ensures { IfOk result (λ order. spec.AreWorldTypes id types.now world.now order.items) }
{
    let mut ids = Vec::new(alloc);
    add_side(&mut ids, &world.imports)?;
    add_side(&mut ids, &world.exports)?;
    let seen = made_of_within(alloc, types, TypeOwner::World(id), ids.as_slice())?;
    local_of(alloc, types, id, seen.as_slice())
}
