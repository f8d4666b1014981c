//! The types of each interface that are needed.

ghost use Rattle.std.specs.Prelude.{◌≡◌, ◌<◌, ◌++◌, ◌∷◌, [], ℕ, Some, length, slice_get, IfOk, OnOk};
ghost use Rattle.wit_types.specs.Passed.wit_order-Places.{row};
ghost use Rattle.wit_reach.specs.Paths.{AreRising};
ghost use Rattle.wit_reach.specs.Types.{AreTypesBackward, AreTypesThere};
ghost use Rattle.wit_reach.specs.Lists.{AreOwnersThere};
ghost use Rattle.wit_reach.specs.Needed as spec;

use crate::deps::interface_of;
use crate::made::made_of;
use std::alloc::{AllocError, Global};
use std::marker::Model;
use wit_types::{Arena, InterfaceId, TypeDef, TypeId};

/// For each interface, by its id, those of its types that are needed: each once, by rising ids.
#[derive(Drop)]
pub struct NeededTypes {
    of: Vec<Vec<TypeId>>,
}

impl Model for NeededTypes {
    ghost use Rattle.std.specs.Prelude.{List, ℕ};

    ghost Value = { List (List ℕ) };

    ghost use Rattle.std.specs.Prelude.{map};

    ghost view = { λ n. map (λ v. v.items) n.of.items };
}

/// For each interface no types.
fn no_types(alloc: Global, interfaces: usize) -> Result<Vec<Vec<TypeId>>, AllocError>
    ensures size { IfOk result (λ of. length of.items ≡ interfaces) }
    ensures empty { IfOk result (λ of. (j : ℕ) → row of.items j ≡ []) }
{
    let mut of = Vec::with_capacity(alloc, interfaces)?;
    for _interface in 0..interfaces {
        of.push(Vec::new(alloc))?;
    }
    Ok(of)
}

/// Puts a type behind the others of the interface to which it belongs, if it belongs to one.
fn put(of: &mut Vec<Vec<TypeId>>, types: &Arena<TypeDef>, id: TypeId) -> Result<(), AllocError>
    requires there { id < length types.now }
    requires owner { AreOwnersThere (length of.old.items) types.now }
    ensures size { OnOk result (length of.new.items ≡ length of.old.items) }
    ensures own { OnOk result ((j : ℕ) → spec.BelongsTo types.now id j → row of.new.items j ≡ row of.old.items j ++ id ∷ []) }
    ensures others { OnOk result ((j : ℕ) → (spec.BelongsTo types.now id j → ⊥) → row of.new.items j ≡ row of.old.items j) }
{
    if let Some(interface) = interface_of(types.get(id).owner) {
        of[interface.index()].push(id)?;
    }
    Ok(())
}

/// The types of a list by their interfaces.
fn by_interface(
    alloc: Global,
    types: &Arena<TypeDef>,
    interfaces: usize,
    order: &[TypeId],
) -> Result<Vec<Vec<TypeId>>, AllocError>
    requires there { AreTypesThere types.now order.now }
    requires owners { AreOwnersThere interfaces types.now }
    requires rising { AreRising order.now }
    ensures size { IfOk result (λ of. length of.items ≡ interfaces) }
    ensures sorted { IfOk result (λ of. spec.AreSorted types.now order.now of.items) }
{
    let mut of = no_types(alloc, interfaces)?;
    for id in order {
        put(&mut of, types, *id)?;
    }
    Ok(of)
}

impl NeededTypes {
    /// The types that these are made of over any number of steps, and themselves, by the interfaces to which they belong; those that
    /// belong to none are left out. Types are made of earlier ones, these are there, and so are the interfaces to which types belong.
    pub fn new(
        alloc: Global,
        types: &Arena<TypeDef>,
        interfaces: usize,
        ids: &[TypeId],
    ) -> Result<NeededTypes, AllocError>
        requires backward { AreTypesBackward types.now }
        requires there { AreTypesThere types.now ids.now }
        requires owners { AreOwnersThere interfaces types.now }
        ensures { IfOk result (λ needed. spec.AreNeeded interfaces types.now ids.now needed) }
    {
        let order = made_of(alloc, types, ids)?;
        let of = by_interface(alloc, types, interfaces, order.as_slice())?;
        Ok(NeededTypes { of })
    }

    /// Those of an interface that is there, by rising ids.
    pub fn of_interface(&self, interface: InterfaceId) -> &[TypeId]
        requires { interface < length self.now }
        ensures { slice_get self.now interface ≡ Some result.now }
    {
        self.of[interface.index()].as_slice()
    }
}
