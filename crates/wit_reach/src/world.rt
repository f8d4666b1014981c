//! What a world lists.

ghost use Rattle.std.specs.Prelude.{◌≡◌, ℕ, ◌<◌, ◌⊎◌, ◌↔◌, ◌++◌, length, OnOk, IfOk};
ghost use Rattle.wit_types.specs.Passed.wit_order-Order.{Has};
ghost use Rattle.wit_reach.specs.Reach.{Uses, lists_of};
ghost use Rattle.wit_reach.specs.Types.{AreTypesBackward, AreSidesThere};
ghost use Rattle.wit_reach.specs.Deps.{AreUsed};
ghost use Rattle.wit_reach.specs.Lists as spec;

use crate::deps::{add_deps, interfaces_of};
use crate::reach::{WorldLists, add_all};
use indexmap::IndexMap;
use std::alloc::{AllocError, Global};
use std::collections::BTreeSet;
use wit_types::{Arena, InterfaceId, TypeDef, TypeId, World, WorldItem, WorldKey};

/// Adds the type that an item is, if it is one.
fn add_type(ids: &mut Vec<TypeId>, item: &WorldItem) -> Result<(), AllocError>
    ensures { OnOk result (ids.new.items ≡ ids.old.items ++ spec.item_type item.now) }
{
    if let WorldItem::TypeItem { id, .. } = item {
        ids.push(*id)?;
    }
    Ok(())
}

/// Adds the types that are imported or exported.
fn add_type_items(
    ids: &mut Vec<TypeId>,
    side: &IndexMap<WorldKey, WorldItem>,
) -> Result<(), AllocError>
    ensures { OnOk result (ids.new.items ≡ ids.old.items ++ spec.type_items side.now.entries) }
{
    for item in side.values() {
        add_type(ids, item)?;
    }
    Ok(())
}

/// Adds the interface that an item is, if it is one.
fn add_interface(ids: &mut Vec<InterfaceId>, item: &WorldItem) -> Result<(), AllocError>
    ensures { OnOk result (ids.new.items ≡ ids.old.items ++ spec.item_interface item.now) }
{
    if let WorldItem::Interface { id, .. } = item {
        ids.push(*id)?;
    }
    Ok(())
}

/// Adds the interfaces that are imported or exported, by whatever keys.
fn add_interfaces(
    ids: &mut Vec<InterfaceId>,
    side: &IndexMap<WorldKey, WorldItem>,
) -> Result<(), AllocError>
    ensures { OnOk result (ids.new.items ≡ ids.old.items ++ spec.interfaces_of side.now.entries) }
{
    for item in side.values() {
        add_interface(ids, item)?;
    }
    Ok(())
}

/// Adds the interface that stands under a label, if that is one.
fn add_labelled(
    ids: &mut Vec<InterfaceId>,
    key: &WorldKey,
    item: &WorldItem,
) -> Result<(), AllocError>
    ensures { OnOk result (ids.new.items ≡ ids.old.items ++ spec.labelled (key.now, item.now)) }
{
    match key {
        WorldKey::Name(_) => add_interface(ids, item),
        WorldKey::Interface(_) => Ok(()),
    }
}

/// Adds the interfaces under labels.
fn add_all_labelled(
    ids: &mut Vec<InterfaceId>,
    side: &IndexMap<WorldKey, WorldItem>,
) -> Result<(), AllocError>
    ensures { OnOk result (ids.new.items ≡ ids.old.items ++ spec.labelled_in side.now.entries) }
{
    for (key, item) in side.iter() {
        add_labelled(ids, key, item)?;
    }
    Ok(())
}

/// Adds the interface that stands under its own name, if that is one.
fn add_listed(
    ids: &mut Vec<InterfaceId>,
    key: &WorldKey,
    item: &WorldItem,
) -> Result<(), AllocError>
    ensures { OnOk result (ids.new.items ≡ ids.old.items ++ spec.listed (key.now, item.now)) }
{
    match key {
        WorldKey::Name(_) => Ok(()),
        WorldKey::Interface(_) => add_interface(ids, item),
    }
}

/// Adds the interfaces under their own names.
fn add_all_listed(
    ids: &mut Vec<InterfaceId>,
    side: &IndexMap<WorldKey, WorldItem>,
) -> Result<(), AllocError>
    ensures { OnOk result (ids.new.items ≡ ids.old.items ++ spec.listed_in side.now.entries) }
{
    for (key, item) in side.iter() {
        add_listed(ids, key, item)?;
    }
    Ok(())
}

/// Adds the interfaces of which these use types. For each interface there stands of which it uses types.
pub fn add_uses(
    set: &mut BTreeSet<usize>,
    uses: &[Vec<InterfaceId>],
    interfaces: &[InterfaceId],
) -> Result<(), AllocError>
    requires { (i : ℕ) → Has interfaces.now i → i < length uses.now }
    ensures was { OnOk result ((j : ℕ) → Has set.old.keys j → Has set.new.keys j) }
    ensures new { OnOk result ((i j : ℕ) → Has interfaces.now i → Uses uses.now i j → Has set.new.keys j) }
    ensures only { OnOk result ((j : ℕ) → Has set.new.keys j → Has set.old.keys j ⊎ ((i : ℕ) × Has interfaces.now i × Uses uses.now i j)) }
{
    for interface in interfaces {
        add_all(set, uses[interface.index()].as_slice())?;
    }
    Ok(())
}

/// Adds the interfaces of which the types of a world are other names.
fn add_world_deps(
    alloc: Global,
    set: &mut BTreeSet<usize>,
    types: &Arena<TypeDef>,
    world: &World,
) -> Result<(), AllocError>
    requires backward { AreTypesBackward types.now }
    requires there { AreSidesThere types.now world.now }
    ensures was { OnOk result ((j : ℕ) → Has set.old.keys j → Has set.new.keys j) }
    ensures new { OnOk result ((j : ℕ) → AreUsed types.now (spec.item_types world.now) j → Has set.new.keys j) }
    ensures only { OnOk result ((j : ℕ) → Has set.new.keys j → Has set.old.keys j ⊎ AreUsed types.now (spec.item_types world.now) j) }
{
    let mut ids = Vec::new(alloc);
    add_type_items(&mut ids, &world.imports)?;
    add_type_items(&mut ids, &world.exports)?;
    add_deps(set, types, ids.as_slice())
}

/// Adds what the interfaces use that a world imports under labels.
fn add_labelled_uses(
    alloc: Global,
    set: &mut BTreeSet<usize>,
    uses: &[Vec<InterfaceId>],
    world: &World,
) -> Result<(), AllocError>
    requires { (i : ℕ) → Has (spec.labelled_in world.now.imports.entries) i → i < length uses.now }
    ensures was { OnOk result ((j : ℕ) → Has set.old.keys j → Has set.new.keys j) }
    ensures new { OnOk result ((j : ℕ) → spec.IsLabelledUse (Uses uses.now) world.now j → Has set.new.keys j) }
    ensures only { OnOk result ((j : ℕ) → Has set.new.keys j → Has set.old.keys j ⊎ spec.IsLabelledUse (Uses uses.now) world.now j) }
{
    let mut ids = Vec::new(alloc);
    add_all_labelled(&mut ids, &world.imports)?;
    add_uses(set, uses, ids.as_slice())
}

/// The interfaces of which types are used in a world.
fn used_interfaces(
    alloc: Global,
    types: &Arena<TypeDef>,
    uses: &[Vec<InterfaceId>],
    world: &World,
) -> Result<Vec<InterfaceId>, AllocError>
    requires backward { AreTypesBackward types.now }
    requires there { AreSidesThere types.now world.now }
    requires labelled { (i : ℕ) → Has (spec.labelled_in world.now.imports.entries) i → i < length uses.now }
    ensures { IfOk result (λ used. (j : ℕ) → Has used.items j ↔ spec.IsUsedIn types.now (Uses uses.now) world.now j) }
{
    let mut set = BTreeSet::new(alloc);
    add_world_deps(alloc, &mut set, types, world)?;
    add_labelled_uses(alloc, &mut set, uses, world)?;
    interfaces_of(alloc, &set)
}

/// What a world lists: the interfaces that it imports under their own names, those of which types are used in it, and those that it
/// exports. For each interface there stands of which it uses types.
pub fn world_lists(
    alloc: Global,
    types: &Arena<TypeDef>,
    uses: &[Vec<InterfaceId>],
    world: &World,
) -> Result<WorldLists, AllocError>
    requires backward { AreTypesBackward types.now }
    requires there { AreSidesThere types.now world.now }
    requires labelled { (i : ℕ) → Has (spec.labelled_in world.now.imports.entries) i → i < length uses.now }
    ensures { IfOk result (λ lists. spec.AreListsOf types.now (Uses uses.now) world.now (lists_of lists)) }
{
    let mut imports = Vec::new(alloc);
    add_all_listed(&mut imports, &world.imports)?;
    let mut exports = Vec::new(alloc);
    add_interfaces(&mut exports, &world.exports)?;
    let used = used_interfaces(alloc, types, uses, world)?;
    Ok(WorldLists {
        imports,
        used,
        exports,
    })
}

/// The interfaces that a world names: those that it imports or exports, by whatever keys, and those of which its types are other names.
pub fn named_interfaces(
    alloc: Global,
    types: &Arena<TypeDef>,
    world: &World,
) -> Result<Vec<InterfaceId>, AllocError>
    requires backward { AreTypesBackward types.now }
    requires there { AreSidesThere types.now world.now }
    ensures { IfOk result (λ named. (j : ℕ) → Has named.items j ↔ spec.IsNamedBy types.now world.now j) }
{
    let mut listed = Vec::new(alloc);
    add_interfaces(&mut listed, &world.imports)?;
    add_interfaces(&mut listed, &world.exports)?;
    let mut set = BTreeSet::new(alloc);
    add_all(&mut set, listed.as_slice())?;
    add_world_deps(alloc, &mut set, types, world)?;
    interfaces_of(alloc, &set)
}

/// All that a world lists is there, where its interfaces and those to which types belong are.
pub fn law_lists_are_there()
    ensures { spec.ListsAreThere }
{}
