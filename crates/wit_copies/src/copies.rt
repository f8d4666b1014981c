//! Types that are copied.

ghost use Rattle.std.specs.Prelude.{◌≡◌, ◌<◌, ◌+◌, ◌^◌, length, IfOk};
ghost use Rattle.wit_reach.specs.Paths.{AreRising};
ghost use Rattle.wit_reach.specs.Types.{AreTypesThere};
ghost use Rattle.wit_copies.specs.Copies as spec;

use indexmap::IndexSet;
use std::alloc::{AllocError, Global};
use std::marker::Model;
use wit_moves::{TypeMap, moved_def};
use wit_types::{Arena, TypeDef, TypeId, TypeOwner, WorldId};

/// Types that are copied, one behind the other from a place on.
#[derive(Drop)]
pub struct Copies {
    ids: IndexSet<usize>,
    base: usize,
}

impl Model for Copies {
    ghost use Rattle.std.specs.Prelude.{◌<◌, ◌+◌, ◌^◌, length};
    ghost use Rattle.wit_copies.specs.Copies.{Copies};

    ghost Value = { Copies };

    ghost view = { λ c. record { ids = c.ids.keys; base = c.base } };

    ghost invariant = { λ c. c.base + length c.ids.keys < 2 ^ 64 };
}

impl TypeMap for Copies {
    ghost use Rattle.wit_copies.specs.Copies as spec;

    ghost goes = { spec.goes };

    fn moved_id(&self, id: TypeId) -> TypeId {
        match self.ids.get_index_of(&id.index()) {
            Some(place) => TypeId::from_index(self.base + place),
            None => id,
        }
    }
}

impl Copies {
    /// Says that types are copied, each once, by rising ids.
    pub fn new(alloc: Global, ids: &[TypeId], base: usize) -> Result<Copies, AllocError>
        requires rising { AreRising ids.now }
        requires room { base + length ids.now < 2 ^ 64 }
        ensures { IfOk result (λ c. c ≡ record { ids = ids.now; base = base }) }
    {
        let mut places = IndexSet::new(alloc);
        for id in ids {
            places.insert(id.index())?;
        }
        Ok(Copies { ids: places, base })
    }
}

/// Where what belongs to a world, an interface or nowhere belongs in the world that includes the one.
fn copied_owner(from: WorldId, into: WorldId, owner: TypeOwner) -> TypeOwner
    ensures { result ≡ spec.copied_owner from into owner }
{
    match owner {
        TypeOwner::World(world) => TypeOwner::World(if world == from { into } else { world }),
        TypeOwner::Interface(interface) => TypeOwner::Interface(interface),
        TypeOwner::None => TypeOwner::None,
    }
}

/// A copy of a type.
fn copied_def(
    copies: &Copies,
    from: WorldId,
    into: WorldId,
    def: &TypeDef,
) -> Result<TypeDef, AllocError>
    ensures { IfOk result (spec.IsCopiedDef copies.now from into def.now) }
{
    let clone = def.clone()?;
    Ok(moved_def(copies, copied_owner(from, into, def.owner), clone))
}

/// Copies of the types with these ids, in their order: what belonged to the one world belongs to the other, and what is copied is
/// made of copies.
pub fn copied_defs(
    alloc: Global,
    copies: &Copies,
    from: WorldId,
    into: WorldId,
    types: &Arena<TypeDef>,
    ids: &[TypeId],
) -> Result<Vec<TypeDef>, AllocError>
    requires { AreTypesThere types.now ids.now }
    ensures { IfOk result (λ found. spec.AreCopied copies.now from into types.now ids.now found.items) }
{
    let mut found = Vec::with_capacity(alloc, ids.len())?;
    for id in ids {
        found.push(copied_def(copies, from, into, types.get(*id))?)?;
    }
    Ok(found)
}
