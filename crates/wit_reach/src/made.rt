//! What types are made of over any number of steps.

ghost use Rattle.std.specs.Prelude.{◌≡◌, ℕ, ◌<◌, ◌⊎◌, length, IfOk, OnOk};
ghost use Rattle.wit_types.specs.Passed.wit_order-Order.{Has};
ghost use Rattle.wit_reach.specs.Paths.{AreEnds};
ghost use Rattle.wit_reach.specs.Types.{AreTypesBackward, AreTypesThere, IsMadeOf};
ghost use Rattle.wit_reach.specs.Made as spec;

use crate::ids::add_kind;
use crate::reach::{add_all, turned};
use std::alloc::{AllocError, Global};
use std::collections::BTreeSet;
use wit_types::{Arena, TypeDef, TypeId, TypeOwner};

/// Into which types a walk sees; others are there as wholes.
#[derive(Drop)]
enum Sight {
    /// Into all.
    All,
    /// Into those into which an owner sees.
    Of(TypeOwner),
}

/// Whether an owner sees into the types of an owner: it does into its own, and into those that belong nowhere.
fn is_open(by: TypeOwner, owner: TypeOwner) -> bool
    ensures { result ≡ spec.is_open by owner }
{
    owner == by || owner == TypeOwner::None
}

/// Whether a walk sees into the types of an owner.
fn sees_into(sight: &Sight, owner: TypeOwner) -> bool
    ensures { result ≡ spec.sees_into sight.now owner }
{
    match sight {
        Sight::All => true,
        Sight::Of(by) => is_open(*by, owner),
    }
}

/// Adds those types to the set of which a type is made, if a walk sees into it.
fn add_parts(
    alloc: Global,
    set: &mut BTreeSet<usize>,
    types: &Arena<TypeDef>,
    sight: &Sight,
    id: TypeId,
) -> Result<(), AllocError>
    requires { id < length types.now }
    ensures was { OnOk result ((i : ℕ) → Has set.old.keys i → Has set.new.keys i) }
    ensures new { OnOk result ((i : ℕ) → spec.Sees sight.now types.now id i → Has set.new.keys i) }
    ensures only { OnOk result ((i : ℕ) → Has set.new.keys i → Has set.old.keys i ⊎ spec.Sees sight.now types.now id i) }
{
    let def = types.get(id);
    if !sees_into(sight, def.owner) {
        return Ok(());
    }
    let mut ids = Vec::new(alloc);
    add_kind(&mut ids, &def.kind)?;
    add_all(set, ids.as_slice())
}

/// All that a walk sees from the starts on, by rising ids: from the last on, each time with what it is made of, which comes before it.
fn reached(
    alloc: Global,
    types: &Arena<TypeDef>,
    sight: &Sight,
    starts: &[TypeId],
) -> Result<Vec<TypeId>, AllocError>
    requires backward { AreTypesBackward types.now }
    requires there { AreTypesThere types.now starts.now }
    ensures { IfOk result (λ order. AreEnds (spec.Sees sight.now types.now) (Has starts.now) order.items) }
{
    let mut left = BTreeSet::new(alloc);
    add_all(&mut left, starts)?;
    let mut falling = Vec::new(alloc);
    while let Some(index) = left.pop_last() {
        let id = TypeId::from_index(index);
        add_parts(alloc, &mut left, types, sight, id)?;
        falling.push(id)?;
    }
    turned(alloc, falling.as_slice())
}

/// The types that these are made of over any number of steps, and themselves, each once, by rising ids. Types are made of earlier ones,
/// and these are there.
pub fn made_of(
    alloc: Global,
    types: &Arena<TypeDef>,
    ids: &[TypeId],
) -> Result<Vec<TypeId>, AllocError>
    requires backward { AreTypesBackward types.now }
    requires there { AreTypesThere types.now ids.now }
    ensures { IfOk result (λ order. AreEnds (IsMadeOf types.now) (Has ids.now) order.items) }
{
    reached(alloc, types, &Sight::All, ids)
}

/// The same as an owner sees them: types that belong to another are there, but not what they are made of. Types are made of earlier
/// ones, and these are there.
pub fn made_of_within(
    alloc: Global,
    types: &Arena<TypeDef>,
    by: TypeOwner,
    ids: &[TypeId],
) -> Result<Vec<TypeId>, AllocError>
    requires backward { AreTypesBackward types.now }
    requires there { AreTypesThere types.now ids.now }
    ensures { IfOk result (λ order. AreEnds (spec.IsMadeOfWithin by types.now) (Has ids.now) order.items) }
{
    reached(alloc, types, &Sight::Of(by), ids)
}

/// What is reached as an owner sees it is reached.
pub fn law_seen_is_made()
    ensures { spec.SeenIsMade }
{}
