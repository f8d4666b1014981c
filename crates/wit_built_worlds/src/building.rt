//! The worlds of a package, as far as they are brought together.

ghost use Rattle.std.specs.Prelude.{◌≡◌, ℕ, ◌+◌, ◌<◌, ◌≤◌, ◌^◌, List, [], ◌∷◌, ◌++◌, map, length, slice_get, Some, IfOk, OnOk, IfErr};
ghost use Rattle.wit_scopes.specs.Scopes as scope;
ghost use Rattle.wit_scopes.specs.Scopes.{WorldScope as WorldTree};
ghost use Rattle.wit_scopes.specs.View as scope_view;
ghost use Rattle.wit_rules.specs.Breaks.{IsKept, IsFaultOf};
ghost use Rattle.wit_rules.specs.declared.fault.PackageFault.TheVariants.{OutOfMemory};
ghost use Rattle.wit_types.specs.declared.interface.TypeDef.{TypeDef};
ghost use Rattle.wit_types.specs.declared.interface.TypeOwner.TheVariants as belongs;
ghost use Rattle.wit_interfaces.specs.Passed.wit_orders-Needs.{types_of};
ghost use Rattle.wit_interfaces.specs.Passed.wit_arena-Tree.{Name, in_world};
ghost use Rattle.wit_interfaces.specs.Passed.wit_resources-Natures.{natures as natures_of};
ghost use Rattle.wit_readiness.specs.Passed.wit_foreign-Needs.{NeedTree};
ghost use Rattle.wit_readiness.specs.Passed.wit_foreign-Items.{AreItemsOf, interfaces_in, worlds_in};
ghost use Rattle.wit_interfaces.specs.Passed.wit_resolved_scopes-Scope.{AreReady, ResolvesScope};
ghost use Rattle.wit_interfaces.specs.Passed.wit_resolved_scopes-InArena.{Context};
ghost use Rattle.wit_interfaces.specs.Passed.wit_resolved_scopes-Texts.{labelled_texts, own_members as members_of};
ghost use Rattle.wit_interfaces.specs.Adding as adding;
ghost use Rattle.wit_built_worlds.specs.Adding as spec;
ghost use Rattle.wit_worlds.specs.Making.{MayMake, MakesWorld};
ghost use Rattle.wit_interfaces.specs.Labelled as labels;
ghost use Rattle.wit_built_worlds.specs.Places.{worlds_at, AreWorldPlaces};

use name_places::FirstPlaces;
use std::alloc::{AllocError, Global};
use std::collections::VecDeque;
use wit_interfaces::{Building, ResolvedScope, add_labelled, bring_members};
use wit_readiness::ForeignItems;
use wit_rules::PackageFault;
use wit_scopes::{ItemScope, Member, WorldScope};
use wit_types::{Arena, InterfaceId, TypeOwner, World, WorldId};
use wit_worlds::{Left, Paths, own_members, world_of};

/// The worlds of a package, as far as they are brought together.
#[derive(Drop)]
pub struct BuiltWorlds<'a> {
    /// The names of the package's own so far.
    pub names: FirstPlaces<'a>,
    /// The worlds of other packages that are asked for, and the package's own so far.
    pub worlds: Arena<World>,
}

/// The members that belong to a world.
fn members_in<'a>(alloc: Global, world: &WorldScope<'a>) -> Result<Vec<Member<'a>>, AllocError>
    ensures { IfOk result (λ v. scope_view.members v.items ≡ members_of (scope_view.world_scope world.now).members) }
{
    let members = &world.members;
    own_members(alloc, members.as_slice())
}

/// The types and functions that belong to a world, in the arena; P6 to P9 where they are refused.
fn bring_own<'a>(
    building: &mut Building<'a>,
    id: WorldId,
    world: &WorldScope<'a>,
) -> Result<ResolvedScope<'a>, PackageFault>
    requires ready { AreReady building.old.known (types_of (members_of (scope_view.world_scope world.now).members)) (members_of (scope_view.world_scope world.now).members) }
    requires natures { building.old.natures ≡ natures_of building.old.types }
    ensures resolves { IfOk result (λ r. ResolvesScope building.old.known (belongs.World id) building.old.types (types_of (members_of (scope_view.world_scope world.now).members)) (members_of (scope_view.world_scope world.now).members) building.new.types r.table r.functions.items) }
    ensures natures { OnOk result (building.new.natures ≡ natures_of building.new.types) }
    ensures known { OnOk result (building.new.known ≡ building.old.known) }
    ensures interfaces { OnOk result (building.new.interfaces ≡ building.old.interfaces) }
    ensures kept { (c : Context) → adding.MayBring c (in_world world.now.name.name.now) (belongs.World id) building.old.known building.old.types (members_of (scope_view.world_scope world.now).members) → OnOk result (IsKept (adding.MembersBreak c (in_world world.now.name.name.now) (members_of (scope_view.world_scope world.now).members))) }
    ensures cause { (c : Context) → adding.MayBring c (in_world world.now.name.name.now) (belongs.World id) building.old.known building.old.types (members_of (scope_view.world_scope world.now).members) → IfErr result (IsFaultOf (adding.MembersBreak c (in_world world.now.name.name.now) (members_of (scope_view.world_scope world.now).members))) }
{
    let members = members_in(building.types.allocator(), world)?;
    bring_members(
        &mut building.types,
        &mut building.natures,
        &building.known,
        TypeOwner::World(id),
        members.as_slice(),
    )
}

/// A world of what is made of its scope and of the interfaces that stand in it.
fn make_world<'b, 'a>(
    building: &'b Building<'a>,
    worlds: &'b BuiltWorlds<'a>,
    items: &'b ForeignItems<'a>,
    world: &WorldScope<'a>,
    scope: ResolvedScope<'a>,
    labelled: VecDeque<InterfaceId>,
) -> Result<World, AllocError>
    requires { MayMake (spec.paths_of building.now.known items.now worlds.now.names) (scope_view.world_scope world.now) building.now.types scope.table scope.functions.items labelled.items }
    ensures { IfOk result (MakesWorld (spec.paths_of building.entry.now.known items.entry.now worlds.entry.now.names) (scope_view.world_scope world.now) building.entry.now.types scope.entry.table scope.entry.functions.items labelled.items) }
{
    let ResolvedScope { table, functions } = scope;
    let left = Left {
        functions: VecDeque::from(functions),
        labelled,
    };
    let paths = Paths {
        interfaces: &building.known,
        first_interface: items.interfaces(),
        worlds: &worlds.names,
        first_world: items.worlds(),
        items,
    };
    let alloc = building.types.allocator();
    world_of(alloc, &building.types, &paths, world, &table, left)
}

/// Keeps what is made of a world.
fn keep_world<'a>(
    worlds: &mut BuiltWorlds<'a>,
    name: &'a str,
    world: World,
) -> Result<(), PackageFault>
    ensures names { OnOk result (worlds.new.names ≡ worlds.old.names ++ name.entry.now ∷ []) }
    ensures behind { OnOk result (worlds.new.worlds ≡ worlds.old.worlds ++ world ∷ []) }
    ensures memory { IfErr result (λ fault. fault ≡ OutOfMemory) }
{
    worlds.names.push(name)?;
    worlds.worlds.alloc(world)?;
    Ok(())
}

/// Adds a world, whose own members are in the arena, behind the others, with the interfaces that stand in it; P6 to P9 where
/// these are refused.
fn finish_world<'a>(
    building: &mut Building<'a>,
    worlds: &mut BuiltWorlds<'a>,
    items: &ForeignItems<'a>,
    world: &WorldScope<'a>,
    scope: ResolvedScope<'a>,
) -> Result<(), PackageFault>
    requires ready { spec.IsWorldReadyIn building.old.known (spec.paths_of building.old.known items.now worlds.old.names) (scope_view.world_scope world.now) }
    requires numbered { spec.AreNumbered (spec.paths_of building.old.known items.now worlds.old.names) }
    requires scope { (a : List TypeDef) × ResolvesScope building.old.known (belongs.World (length worlds.old.worlds)) a (types_of (members_of (scope_view.world_scope world.now).members)) (members_of (scope_view.world_scope world.now).members) building.old.types scope.table scope.functions.items }
    requires natures { building.old.natures ≡ natures_of building.old.types }
    ensures natures { OnOk result (building.new.natures ≡ natures_of building.new.types) }
    ensures known { OnOk result (building.new.known ≡ building.old.known) }
    ensures names { OnOk result (worlds.new.names ≡ worlds.old.names ++ world.now.name.name.now ∷ []) }
    ensures so_many { OnOk result (length worlds.new.worlds ≡ length worlds.old.worlds + 1) }
    ensures adds { (c : Context) (a : List TypeDef) → ResolvesScope building.old.known (belongs.World (length worlds.old.worlds)) a (types_of (members_of (scope_view.world_scope world.now).members)) (members_of (scope_view.world_scope world.now).members) building.old.types scope.entry.table scope.entry.functions.items → spec.MayAddWorld c building.old.known a building.old.interfaces worlds.old.worlds (spec.paths_of building.old.known items.now worlds.old.names) (scope_view.world_scope world.now) → OnOk result (spec.AddsWorld c building.old.known a building.old.interfaces worlds.old.worlds (scope_view.world_scope world.now) building.new.types building.new.interfaces worlds.new.worlds) }
    ensures kept { (c : Context) → labels.MayAddTexts c building.old.known building.old.types (length building.old.interfaces) (labelled_texts (scope_view.world_scope world.now)) → OnOk result (IsKept (labels.TextsBreak c (labelled_texts (scope_view.world_scope world.now)))) }
    ensures cause { (c : Context) → labels.MayAddTexts c building.old.known building.old.types (length building.old.interfaces) (labelled_texts (scope_view.world_scope world.now)) → IfErr result (IsFaultOf (labels.TextsBreak c (labelled_texts (scope_view.world_scope world.now)))) }
{
    match add_labelled(building, world) {
        Ok(labelled) => {
            let made = make_world(building, worlds, items, world, scope, labelled)?;
            keep_world(worlds, world.name.name, made)
        }
        Err(fault) => Err(fault),
    }
}

/// Adds a world behind the others; P6 to P9 where its own members or those of an interface that stands in it are refused.
fn add_world<'a>(
    building: &mut Building<'a>,
    worlds: &mut BuiltWorlds<'a>,
    items: &ForeignItems<'a>,
    world: &WorldScope<'a>,
) -> Result<(), PackageFault>
    requires ready { spec.IsWorldReadyIn building.old.known (spec.paths_of building.old.known items.now worlds.old.names) (scope_view.world_scope world.now) }
    requires numbered { length worlds.old.worlds < 2 ^ 64 → spec.AreNumbered (spec.paths_of building.old.known items.now worlds.old.names) }
    requires natures { building.old.natures ≡ natures_of building.old.types }
    ensures natures { OnOk result (building.new.natures ≡ natures_of building.new.types) }
    ensures known { OnOk result (building.new.known ≡ building.old.known) }
    ensures names { OnOk result (worlds.new.names ≡ worlds.old.names ++ world.now.name.name.now ∷ []) }
    ensures so_many { OnOk result (length worlds.new.worlds ≡ length worlds.old.worlds + 1) }
    ensures adds { (c : Context) → spec.MayAddWorld c building.old.known building.old.types building.old.interfaces worlds.old.worlds (spec.paths_of building.old.known items.now worlds.old.names) (scope_view.world_scope world.now) → OnOk result (spec.AddsWorld c building.old.known building.old.types building.old.interfaces worlds.old.worlds (scope_view.world_scope world.now) building.new.types building.new.interfaces worlds.new.worlds) }
    ensures kept { (c : Context) → spec.MayAddWorld c building.old.known building.old.types building.old.interfaces worlds.old.worlds (spec.paths_of building.old.known items.now worlds.old.names) (scope_view.world_scope world.now) → OnOk result (IsKept (spec.WorldBreaks c (scope_view.world_scope world.now))) }
    ensures cause { (c : Context) → spec.MayAddWorld c building.old.known building.old.types building.old.interfaces worlds.old.worlds (spec.paths_of building.old.known items.now worlds.old.names) (scope_view.world_scope world.now) → IfErr result (IsFaultOf (spec.WorldBreaks c (scope_view.world_scope world.now))) }
{
    let id = WorldId::from_index(worlds.worlds.len());
    match bring_own(building, id, world) {
        Ok(scope) => finish_world(building, worlds, items, world, scope),
        Err(fault) => Err(fault),
    }
}

/// The world that stands at a place.
fn world_at<'s, 'a>(scopes: &'s [ItemScope<'a>], place: usize) -> &'s WorldScope<'a>
    requires { (w : WorldTree) × (slice_get (map scope_view.item_scope scopes.now) place ≡ Some (scope.world w)) }
    ensures { slice_get (map scope_view.item_scope scopes.entry.now) place ≡ Some (scope.world (scope_view.world_scope result.now)) }
{
    match &scopes[place] {
        ItemScope::World(world) => world,
        ItemScope::Interface(_) => unreachable!(),
    }
}

/// Adds the worlds of a package that stand at these places behind those of other packages, in this order, in which each stands behind those that it
/// includes, and the interfaces that stand in them behind all others. They are refused where one of their scopes is: P6 to P9;
/// then nothing is said of what is built, which is to be dropped.
pub fn add_worlds<'a>(
    building: &mut Building<'a>,
    built: &mut BuiltWorlds<'a>,
    items: &ForeignItems<'a>,
    scopes: &[ItemScope<'a>],
    places: &[usize],
) -> Result<(), PackageFault>
    requires places { AreWorldPlaces (map scope_view.item_scope scopes.now) places.now }
    requires ready { spec.AreReadyBehind building.old.known items.now (worlds_at (map scope_view.item_scope scopes.now) places.now) }
    requires items { (needs : List NeedTree) × AreItemsOf needs items.now }
    requires first { (built.old.names ≡ []) × (length built.old.worlds ≡ worlds_in items.now) }
    requires interfaces { interfaces_in items.now + length building.old.known.names ≤ length building.old.interfaces }
    requires natures { building.old.natures ≡ natures_of building.old.types }
    ensures natures { OnOk result (building.new.natures ≡ natures_of building.new.types) }
    ensures known { OnOk result (building.new.known ≡ building.old.known) }
    ensures names { OnOk result (built.new.names ≡ map (λ w. w.name.text) (worlds_at (map scope_view.item_scope scopes.now) places.now)) }
    ensures adds { (c : Context) → spec.MayAddWorlds c building.old.known building.old.types building.old.interfaces items.now built.old.worlds (worlds_at (map scope_view.item_scope scopes.now) places.now) → OnOk result (spec.AddsWorlds c building.old.known building.old.types building.old.interfaces built.old.worlds (worlds_at (map scope_view.item_scope scopes.now) places.now) building.new.types building.new.interfaces built.new.worlds) }
    ensures kept { (c : Context) → spec.MayAddWorlds c building.old.known building.old.types building.old.interfaces items.now built.old.worlds (worlds_at (map scope_view.item_scope scopes.now) places.now) → OnOk result (IsKept (spec.WorldsBreak c (worlds_at (map scope_view.item_scope scopes.now) places.now))) }
    ensures cause { (c : Context) → spec.MayAddWorlds c building.old.known building.old.types building.old.interfaces items.now built.old.worlds (worlds_at (map scope_view.item_scope scopes.now) places.now) → IfErr result (IsFaultOf (spec.WorldsBreak c (worlds_at (map scope_view.item_scope scopes.now) places.now))) }
{
    prove!(items.interfaces() <= building.interfaces.len());
    for place in places {
        let world = world_at(scopes, *place);
        if let Err(fault) = add_world(building, built, items, world) {
            return Err(fault);
        }
    }
    Ok(())
}
