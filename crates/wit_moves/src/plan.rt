//! Which types stay, and where they stand.

ghost use Rattle.std.specs.Prelude.{◌≡◌, ℕ, ◌+◌, ◌<◌, ◌^◌, length, IfOk, IfErr, OnOk};
ghost use Rattle.wit_moves.specs.Plan as spec;
ghost use Rattle.wit_moves.specs.View as seen;

use crate::kinds::{has_kind, moved_def};
use crate::places::{InterfacePlaces, TypePlaces, WorldPlaces};
use std::alloc::{AllocError, AllocFailed, Global};
use wit_features::{Features, Span, TypeDef, TypeId, TypeOwner};

/// Where the interfaces and worlds stand to which types belong.
#[derive(Drop)]
pub struct OwnerPlaces {
    /// Interfaces.
    pub interfaces: InterfacePlaces,
    /// Worlds.
    pub worlds: WorldPlaces,
}

/// Why what stays can't be moved.
#[derive(Debug, Drop)]
pub enum MoveFault {
    /// It names something that is left out, or that isn't there.
    ItemNotFound(Span),
    /// Memory is wanting.
    OutOfMemory,
}

impl From<AllocError> for MoveFault {
    ghost use Rattle.wit_moves.specs.declared.plan.MoveFault.TheVariants.{OutOfMemory};

    ghost from_gives = { λ _ e. e ≡ OutOfMemory };

    fn from(_cause: AllocError) -> MoveFault {
        MoveFault::OutOfMemory
    }
}

impl<T: Drop> From<AllocFailed<T>> for MoveFault {
    ghost use Rattle.wit_moves.specs.declared.plan.MoveFault.TheVariants.{OutOfMemory};

    ghost from_gives = { λ _ e. e ≡ OutOfMemory };

    fn from(_cause: AllocFailed<T>) -> MoveFault {
        MoveFault::OutOfMemory
    }
}

/// Whether what a type belongs to stands somewhere.
fn has_owner(owners: &OwnerPlaces, owner: TypeOwner) -> bool
    ensures { result ≡ spec.is_owner_placed (seen.owners owners.now) owner }
{
    match owner {
        TypeOwner::World(id) => owners.worlds.has_id(id),
        TypeOwner::Interface(id) => owners.interfaces.has_id(id),
        TypeOwner::None => true,
    }
}

/// What a type belongs to, where it stands.
fn moved_owner(owners: &OwnerPlaces, owner: TypeOwner) -> TypeOwner
    ensures { result ≡ spec.moved_owner (seen.owners owners.now) owner }
{
    match owner {
        TypeOwner::World(id) => TypeOwner::World(owners.worlds.to(id)),
        TypeOwner::Interface(id) => TypeOwner::Interface(owners.interfaces.to(id)),
        TypeOwner::None => TypeOwner::None,
    }
}

/// Whether a type stays: one with a name where its gates let it and what it belongs to does, one without where all that it is
/// made of does.
fn stays(features: &Features, owners: &OwnerPlaces, places: &TypePlaces, def: &TypeDef) -> bool
    ensures { result ≡ spec.type_stays features.now (seen.owners owners.now) places.now def.now }
{
    match &def.name {
        Some(_) => features.keeps(&def.stability) && has_owner(owners, def.owner),
        None => has_kind(places, &def.kind),
    }
}

/// Says where a type stands: at the next place, if it stays. Answers the place that is next then.
fn place_type(places: &mut TypePlaces, next: usize, stays: bool) -> Result<usize, AllocError>
    requires { next + 1 < 2 ^ 64 }
    ensures { IfOk result (λ n. record { places = places.new; next = n } ≡ spec.with_place stays (record { places = places.old; next = next })) }
{
    if stays {
        places.push(TypeId::from_index(next))?;
        return Ok(next + 1);
    }
    places.leave_out()?;
    Ok(next)
}

/// Where types stand behind others that have places already: those that stay one behind the other from a place on. Refuses where one
/// that stays is made of one that doesn't.
pub fn type_places(
    features: &Features,
    owners: &OwnerPlaces,
    others: TypePlaces,
    base: usize,
    defs: &[TypeDef],
) -> Result<TypePlaces, MoveFault>
    requires { base + length defs.now + 1 < 2 ^ 64 }
    ensures ok { IfOk result (spec.AreTypesPlaced features.now (seen.owners owners.now) others base defs.now) }
    ensures cause { IfErr result (spec.IsPlaceCause features.now (seen.owners owners.now) others base defs.now) }
{
    let mut places = others;
    let mut next = base;
    for def in defs {
        let stays = stays(features, owners, &places, def);
        if stays && !has_kind(&places, &def.kind) {
            return Err(MoveFault::ItemNotFound(def.span));
        }
        next = place_type(&mut places, next, stays)?;
    }
    Ok(places)
}

/// Adds a type of that number, if it stands somewhere.
fn add_def(
    found: &mut Vec<TypeDef>,
    owners: &OwnerPlaces,
    places: &TypePlaces,
    index: usize,
    def: TypeDef,
) -> Result<(), AllocError>
    ensures { OnOk result (spec.AddsDef (seen.owners owners.now) places.now index def found.old.items found.new.items) }
{
    if places.has_id(TypeId::from_index(index)) {
        let owner = moved_owner(owners, def.owner);
        found.push(moved_def(places, owner, def))?;
    }
    Ok(())
}

/// The types that stand somewhere, of which the first has that number, as they are there.
pub fn moved_defs(
    alloc: Global,
    owners: &OwnerPlaces,
    places: &TypePlaces,
    first: usize,
    defs: Vec<TypeDef>,
) -> Result<Vec<TypeDef>, AllocError>
    requires { first + length defs.items < 2 ^ 64 }
    ensures { IfOk result (λ v. spec.AreMovedDefs (seen.owners owners.now) places.now first defs.items v.items) }
{
    let mut found = Vec::new(alloc);
    let mut index = first;
    for def in defs {
        add_def(&mut found, owners, places, index, def)?;
        index += 1;
    }
    Ok(found)
}
