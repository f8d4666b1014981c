//! Worlds with all that they import in the end.

ghost use Rattle.std.specs.Prelude.{◌≡◌, ℕ, ◌<◌, length, IfOk, IfErr, OnOk};
ghost use Rattle.wit_reach.specs.Passed.wit_order-Order.{Has};
ghost use Rattle.wit_reach.specs.Paths.{AreRising, AreBackward};
ghost use Rattle.wit_reach.specs.Reach.{Lists, Uses, IsElaboration};
ghost use Rattle.wit_reach.specs.Lists.{AreListsOf, AreOwnersThere, AreInterfacesThere};
ghost use Rattle.wit_reach.specs.Types.{AreTypesBackward, AreSidesThere};
ghost use Rattle.wit_reach.specs.declared.reach.ElaborateFault.TheVariants as fault;
ghost use Rattle.wit_elaborated.specs.Elaborated.{interface_keys, elaborated};
ghost use Rattle.wit_elaborated.specs.Worlds as spec;

use crate::imports::elaborated_imports;
use indexmap::IndexMap;
use std::alloc::Global;
use std::mem::replace;
use wit_reach::{
    Arena, ElaborateFault, Interface, InterfaceId, TypeDef, World, elaborate,
    law_elaborated_are_there, law_lists_are_there, world_lists,
};

/// The interfaces that a world imports in the end, dependencies first.
fn order_of(
    alloc: Global,
    types: &Arena<TypeDef>,
    uses: &[Vec<InterfaceId>],
    world: &World,
) -> Result<Vec<InterfaceId>, ElaborateFault>
    requires uses { AreBackward (Uses uses.now) }
    requires types { AreTypesBackward types.now }
    requires owners { AreOwnersThere (length uses.now) types.now }
    requires sides { AreSidesThere types.now world.now }
    requires interfaces { AreInterfacesThere (length uses.now) world.now }
    ensures ok { IfOk result (λ order. ((i : ℕ) → Has order.items i → i < length uses.now) × ((lists : Lists) × AreListsOf types.now (Uses uses.now) world.now lists × IsElaboration uses.now lists order.items)) }
    ensures cause { IfErr result (spec.IsElaboratedCause types.now uses.now world.now) }
{
    law_lists_are_there();
    law_elaborated_are_there();
    let lists = world_lists(alloc, types, uses, world)?;
    elaborate(alloc, uses, &lists)
}

/// Puts what a world imports in the end in the place of what it lists, where these are the interfaces.
fn put_imports(
    alloc: Global,
    interfaces: &Arena<Interface>,
    order: &[InterfaceId],
    world: &mut World,
) -> Result<(), ElaborateFault>
    requires there { (i : ℕ) → Has order.now i → i < length interfaces.now }
    requires rising { AreRising order.now }
    requires listed { (i : ℕ) → Has (interface_keys world.old.imports.entries) i → Has order.now i }
    ensures ok { OnOk result ((world.new.imports.entries ≡ elaborated interfaces.now order.now world.old.imports.entries) × (world.new ≡ record world.old { imports = world.new.imports })) }
    ensures memory { IfErr result (λ e. e ≡ fault.OutOfMemory) }
{
    let imports = replace(&mut world.imports, IndexMap::new(alloc));
    world.imports = elaborated_imports(alloc, interfaces, order, imports)?;
    Ok(())
}

/// Puts what a world imports in the end in the place of what it lists.
fn put_elaborated(
    alloc: Global,
    types: &Arena<TypeDef>,
    interfaces: &Arena<Interface>,
    uses: &[Vec<InterfaceId>],
    world: &mut World,
) -> Result<(), ElaborateFault>
    requires rows { length uses.now ≡ length interfaces.now }
    requires uses { AreBackward (Uses uses.now) }
    requires types { AreTypesBackward types.now }
    requires owners { AreOwnersThere (length uses.now) types.now }
    requires sides { AreSidesThere types.now world.old }
    requires interfaces { AreInterfacesThere (length uses.now) world.old }
    requires keys { spec.AreKeysOfItems world.old.imports.entries }
    ensures ok { OnOk result (spec.IsElaboratedWorld types.now interfaces.now uses.now world.old world.new) }
    ensures cause { IfErr result (spec.IsElaboratedCause types.now uses.now world.old) }
{
    let order = order_of(alloc, types, uses, world)?;
    put_imports(alloc, interfaces, order.as_slice(), world)
}

/// A world with all that it imports in the end: its own imports, and the interfaces on which these, the types that it uses and its
/// exports depend. For each interface there stands of which it uses types, all with lower ids. Refuses exactly where an export depends
/// on an interface that isn't exported and that depends on one that is, want of memory aside. (Component Model, WIT, Worlds)
pub fn elaborated_world(
    alloc: Global,
    types: &Arena<TypeDef>,
    interfaces: &Arena<Interface>,
    uses: &[Vec<InterfaceId>],
    world: World,
) -> Result<World, ElaborateFault>
    requires rows { length uses.now ≡ length interfaces.now }
    requires uses { AreBackward (Uses uses.now) }
    requires types { AreTypesBackward types.now }
    requires owners { AreOwnersThere (length uses.now) types.now }
    requires sides { AreSidesThere types.now world }
    requires interfaces { AreInterfacesThere (length uses.now) world }
    requires keys { spec.AreKeysOfItems world.imports.entries }
    ensures ok { IfOk result (spec.IsElaboratedWorld types.now interfaces.now uses.now world) }
    ensures cause { IfErr result (spec.IsElaboratedCause types.now uses.now world) }
{
    let mut found = world;
    put_elaborated(alloc, types, interfaces, uses, &mut found).and(Ok(found))
}
