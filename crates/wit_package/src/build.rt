//! The interfaces and worlds of a package, brought in behind what it asks of others.

ghost use Rattle.std.specs.Prelude.{◌≡◌, List, [], length, map, OnOk, IfErr};
ghost use Rattle.wit_rules.specs.Breaks.{IsKept, IsFaultOf};
ghost use Rattle.wit_built_worlds.specs.Passed.wit_resources-Natures.{natures as natures_of};
ghost use Rattle.wit_placeholders.specs.Passed.wit_foreign-Needs.{NeedTree};
ghost use Rattle.wit_placeholders.specs.Passed.wit_foreign-Items.{AreItemsOf, interfaces_in, worlds_in};
ghost use Rattle.wit_built_worlds.specs.Passed.wit_resolved_scopes-InArena.{Context};
ghost use Rattle.wit_scopes.specs.View as scope_view;
ghost use Rattle.wit_built_worlds.specs.Passed.wit_interfaces-Places.{interfaces_at, AreInterfacePlaces};
ghost use Rattle.wit_built_worlds.specs.Places.{worlds_at, AreWorldPlaces};
ghost use Rattle.wit_package.specs.Built as spec;

use wit_built_worlds::{Building, BuiltWorlds, add_interfaces, add_worlds};
use wit_placeholders::ForeignItems;
use wit_rules::PackageFault;
use wit_scopes::ItemScope;

/// Brings the interfaces in behind those of other packages, and then the worlds, each sort in this order, in which each stands
/// behind what it needs. They are refused where one of their scopes is: P6 to P9; then nothing is said of what is built, which
/// is to be dropped.
pub fn build<'a>(
    scopes: &[ItemScope<'a>],
    building: &mut Building<'a>,
    built: &mut BuiltWorlds<'a>,
    items: &ForeignItems<'a>,
    interfaces: &[usize],
    worlds: &[usize],
) -> Result<(), PackageFault>
    requires interface_places { AreInterfacePlaces (map scope_view.item_scope scopes.now) interfaces.now }
    requires world_places { AreWorldPlaces (map scope_view.item_scope scopes.now) worlds.now }
    requires ready { spec.AreReadyTogether building.old.known items.now (interfaces_at (map scope_view.item_scope scopes.now) interfaces.now) (worlds_at (map scope_view.item_scope scopes.now) worlds.now) }
    requires items { (needs : List NeedTree) × AreItemsOf needs items.now }
    requires none { (building.old.known.names ≡ []) × (building.old.known.tables ≡ []) }
    requires first { (built.old.names ≡ []) × (length built.old.worlds ≡ worlds_in items.now) }
    requires interfaces { length building.old.interfaces ≡ interfaces_in items.now }
    requires natures { building.old.natures ≡ natures_of building.old.types }
    ensures builds { (c : Context) → spec.MayBuild c building.old.known building.old.types building.old.interfaces items.now built.old.worlds (interfaces_at (map scope_view.item_scope scopes.now) interfaces.now) (worlds_at (map scope_view.item_scope scopes.now) worlds.now) → OnOk result (spec.Builds c building.old.types building.old.interfaces built.old.worlds (interfaces_at (map scope_view.item_scope scopes.now) interfaces.now) (worlds_at (map scope_view.item_scope scopes.now) worlds.now) building.new.types building.new.interfaces built.new.worlds) }
    ensures kept { (c : Context) → spec.MayBuild c building.old.known building.old.types building.old.interfaces items.now built.old.worlds (interfaces_at (map scope_view.item_scope scopes.now) interfaces.now) (worlds_at (map scope_view.item_scope scopes.now) worlds.now) → OnOk result (IsKept (spec.ItemsBreak c (interfaces_at (map scope_view.item_scope scopes.now) interfaces.now) (worlds_at (map scope_view.item_scope scopes.now) worlds.now))) }
    ensures cause { (c : Context) → spec.MayBuild c building.old.known building.old.types building.old.interfaces items.now built.old.worlds (interfaces_at (map scope_view.item_scope scopes.now) interfaces.now) (worlds_at (map scope_view.item_scope scopes.now) worlds.now) → IfErr result (IsFaultOf (spec.ItemsBreak c (interfaces_at (map scope_view.item_scope scopes.now) interfaces.now) (worlds_at (map scope_view.item_scope scopes.now) worlds.now))) }
{
    match add_interfaces(building, scopes, interfaces) {
        Ok(()) => add_worlds(building, built, items, scopes, worlds),
        Err(fault) => Err(fault),
    }
}
