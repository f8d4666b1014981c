//! Interfaces and worlds that come to a graph.

ghost use Rattle.std.specs.Prelude.{◌≡◌, ◌++◌, List, length, IfOk, IfErr, OnOk};
ghost use Rattle.wit_order.specs.Order.{Has};
ghost use Rattle.wit_types.specs.declared.interface.TypeDef.{TypeDef};
ghost use Rattle.wit_types.specs.declared.world.World.{World};
ghost use Rattle.wit_reach.specs.Paths.{AreBackward};
ghost use Rattle.wit_reach.specs.Reach.{Uses};
ghost use Rattle.wit_reach.specs.Types.{AreTypesBackward};
ghost use Rattle.wit_graph_worlds.specs.Passed.wit_elaborated-Worlds.{AreKeysOfItems};
ghost use Rattle.wit_moves.specs.Breaks.{AnyOf, IsKept};
ghost use Rattle.wit_moves.specs.View.{owners};
ghost use Rattle.wit_graph_worlds.specs.Passed.wit_plans-Checks.{WorldBreaks, InterfaceBreaks};
ghost use Rattle.wit_graph_worlds.specs.Passed.wit_plans-Moves.{AreMovedInterfaces, AreMovedWorlds};
ghost use Rattle.wit_graph_worlds.specs.Passed.wit_plans-Plans.{standing};
ghost use Rattle.wit_graph_worlds.specs.Passed.wit_placed-There.{AreBelow};
ghost use Rattle.wit_shapes.specs.Passed.wit_resources-Natures.{natures as natures_of};
ghost use Rattle.wit_shapes.specs.Passed.wit_resources-declared-natures-Nature.{Nature};
ghost use Rattle.wit_graph_worlds.specs.Sound.{AreElaborated, AreSound};
ghost use Rattle.wit_graph_parts.specs.Interfaces.{HasGrown};
ghost use Rattle.wit_graph_parts.specs.Parts as spec;

use crate::fault::PushFault;
use crate::interfaces::{Interfaces, lent};
use crate::types::shape_checked;
use indexmap::IndexMap;
use std::alloc::{AllocError, Global};
use wit_features::Features;
use wit_graph_worlds::{
    MovedWorld, Plan, Standing, Worlds, add_worlds, interface_names,
    law_moved_interfaces_are_there, law_moved_worlds_are_there, moved_interfaces, moved_worlds,
    world_names,
};
use wit_shapes::{Natures, check_functions, check_side};
use wit_types::{Arena, Interface, InterfaceId, PackageId, TypeDef, World, WorldId};
use wit_words::Span;

/// What a package is put behind a graph by.
#[derive(Drop)]
pub struct Move<'a> {
    /// The features that are active.
    pub features: &'a Features,
    /// The package.
    pub owner: PackageId,
    /// Where all that stays stands.
    pub plan: &'a Plan,
}

/// Where all stands.
fn standing_of<'a>(plan: &'a Plan) -> Standing<'a>
    ensures { result ≡ standing (owners plan.now.owners) plan.now.types }
{
    Standing {
        types: &plan.types,
        interfaces: &plan.owners.interfaces,
        worlds: &plan.owners.worlds,
    }
}

/// Refuses interfaces of which one has a function whose result holds what is lent.
fn check_interfaces(natures: &Natures, interfaces: &[Interface]) -> Result<(), Span>
    ensures ok { OnOk result (IsKept (AnyOf (spec.InterfaceBreaks natures.now) interfaces.now)) }
    ensures cause { IfErr result (AnyOf (spec.InterfaceBreaks natures.now) interfaces.now) }
{
    for interface in interfaces {
        check_functions(natures, &interface.functions)?;
    }
    Ok(())
}

/// The same of a world.
fn check_world(natures: &Natures, world: &MovedWorld) -> Result<(), Span>
    ensures ok { OnOk result (IsKept (spec.WorldBreaks natures.now world.now)) }
    ensures cause { IfErr result (spec.WorldBreaks natures.now world.now) }
{
    check_side(natures, world.imports.as_slice())?;
    check_side(natures, world.exports.as_slice())
}

/// The same of worlds.
fn check_worlds(natures: &Natures, worlds: &[MovedWorld]) -> Result<(), Span>
    ensures ok { OnOk result (IsKept (AnyOf (spec.WorldBreaks natures.now) worlds.now)) }
    ensures cause { IfErr result (AnyOf (spec.WorldBreaks natures.now) worlds.now) }
{
    for world in worlds {
        check_world(natures, world)?;
    }
    Ok(())
}

/// The interfaces of a package that stay, where they stand. Refuses a function of theirs whose result holds what is lent.
fn own_interfaces(
    alloc: Global,
    natures: &Natures,
    by: &Move,
    own: Vec<Interface>,
) -> Result<Vec<Interface>, PushFault>
    ensures ok { IfOk result (λ moved. AreMovedInterfaces by.now.features.now (standing (owners by.now.plan.now.owners) by.now.plan.now.types) by.now.owner own.items moved.items) }
    ensures shapes { IfOk result (λ moved. IsKept (AnyOf (spec.InterfaceBreaks natures.now) moved.items)) }
    ensures cause { IfErr result (spec.IsShapeCause (spec.InterfacesBreak by.now.features.now (standing (owners by.now.plan.now.owners) by.now.plan.now.types) by.now.owner natures.now own.items)) }
{
    let standing = standing_of(by.plan);
    let moved = moved_interfaces(alloc, by.features, &standing, by.owner, own)?;
    shape_checked(check_interfaces(natures, moved.as_slice()))?;
    Ok(moved)
}

/// Adds the interfaces of a package that stay behind those that are there. Answers their names. Refuses a function of theirs whose result
/// holds what is lent. Some of them may be there then.
pub fn add_interfaces(
    alloc: Global,
    types: &Arena<TypeDef>,
    natures: &Natures,
    interfaces: &mut Interfaces,
    by: &Move,
    own: Vec<Interface>,
) -> Result<IndexMap<String, InterfaceId>, PushFault>
    requires backward { AreTypesBackward types.now }
    requires natures { natures.now ≡ natures_of types.now }
    requires below { AreBelow (length types.now) by.now.plan.now.types }
    requires kept { IsKept (AnyOf (InterfaceBreaks by.now.features.now (standing (owners by.now.plan.now.owners) by.now.plan.now.types)) own.items) }
    ensures ok { IfOk result (λ names. spec.AreInterfacesAdded by.now.features.now (standing (owners by.now.plan.now.owners) by.now.plan.now.types) by.now.owner types.now own.items interfaces.old interfaces.new names.entries) }
    ensures cause { IfErr result (spec.IsShapeCause (spec.InterfacesBreak by.now.features.now (standing (owners by.now.plan.now.owners) by.now.plan.now.types) by.now.owner natures.now own.items)) }
    ensures grown { HasGrown interfaces.old interfaces.new }
{
    law_moved_interfaces_are_there();
    let moved = own_interfaces(alloc, natures, by, own)?;
    let names = interface_names(alloc, interfaces.all().len(), moved.as_slice())?;
    interfaces.extend(alloc, types, moved)?;
    Ok(names)
}

/// The worlds of a package that stay, where they stand, without what they include. Refuses a function of theirs whose result holds what is
/// lent.
fn own_worlds(
    alloc: Global,
    natures: &Natures,
    by: &Move,
    own: Vec<World>,
) -> Result<Vec<MovedWorld>, PushFault>
    ensures ok { IfOk result (λ moved. AreMovedWorlds by.now.features.now (standing (owners by.now.plan.now.owners) by.now.plan.now.types) own.items moved.items) }
    ensures shapes { IfOk result (λ moved. IsKept (AnyOf (spec.WorldBreaks natures.now) moved.items)) }
    ensures cause { IfErr result (spec.IsShapeCause (spec.WorldsBreak by.now.features.now (standing (owners by.now.plan.now.owners) by.now.plan.now.types) natures.now own.items)) }
{
    let standing = standing_of(by.plan);
    let moved = moved_worlds(alloc, by.features, &standing, own)?;
    shape_checked(check_worlds(natures, moved.as_slice()))?;
    Ok(moved)
}

/// Adds the worlds of a package that stay behind those that are there, with all that they include and import in the end. Answers their
/// names. Refuses a function of theirs whose result holds what is lent, and else what can't be included or imported. Some types and worlds
/// may be there then.
pub fn add_own_worlds(
    alloc: Global,
    types: &mut Arena<TypeDef>,
    natures: &Natures,
    worlds: &mut Worlds,
    interfaces: &Interfaces,
    by: &Move,
    own: Vec<World>,
) -> Result<IndexMap<String, WorldId>, PushFault>
    requires rows { length interfaces.now.uses ≡ length interfaces.now.all }
    requires uses { AreBackward (Uses interfaces.now.uses) }
    requires sound { AreSound (length interfaces.now.uses) types.old worlds.old }
    requires elaborated { AreElaborated types.old interfaces.now.all interfaces.now.uses worlds.old }
    requires natures { natures.now ≡ natures_of types.old }
    requires below { AreBelow (length types.old) by.now.plan.now.types }
    requires among { AreBelow (length interfaces.now.uses) by.now.plan.now.owners.interfaces }
    requires kept { IsKept (AnyOf (WorldBreaks by.now.features.now (standing (owners by.now.plan.now.owners) by.now.plan.now.types)) own.items) }
    requires keys { (w : World) → Has own.items w → AreKeysOfItems w.imports.entries }
    ensures ok { IfOk result (λ names. spec.AreWorldsAdded by.now.features.now (standing (owners by.now.plan.now.owners) by.now.plan.now.types) by.now.owner interfaces.now own.items types.old types.new worlds.old worlds.new names.entries) }
    ensures sound { OnOk result (AreSound (length interfaces.now.uses) types.new worlds.new) }
    ensures elaborated { OnOk result (AreElaborated types.new interfaces.now.all interfaces.now.uses worlds.new) }
    ensures cause { IfErr result (spec.IsWorldsCause by.now.features.now (standing (owners by.now.plan.now.owners) by.now.plan.now.types) by.now.owner interfaces.now own.items types.old worlds.old) }
    ensures types_grown { (more : List TypeDef) × (types.new ≡ types.old ++ more) }
    ensures listed_grown { (more : List World) × (worlds.new.listed ≡ worlds.old.listed ++ more) }
    ensures elaborated_grown { (more : List World) × (worlds.new.elaborated ≡ worlds.old.elaborated ++ more) }
{
    law_moved_worlds_are_there();
    let moved = own_worlds(alloc, natures, by, own)?;
    let names = world_names(alloc, worlds.listed().len(), moved.as_slice())?;
    add_worlds(alloc, types, worlds, &lent(interfaces), by.owner, moved)?;
    Ok(names)
}
