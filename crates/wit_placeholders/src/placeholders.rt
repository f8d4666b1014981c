//! An interface or a world for each id that is asked for.

ghost use Rattle.std.specs.Prelude.{◌≡◌, ℕ, List, [], ◌∷◌, ◌++◌, length, IfOk, OnOk};
ghost use Rattle.wit_types.specs.declared.interface.Interface.{Interface};
ghost use Rattle.wit_types.specs.declared.world.World.{World};
ghost use Rattle.wit_types.specs.declared.«package».AstItem.{AstItem};
ghost use Rattle.wit_types.specs.declared.«package».AstItem.TheVariants as ids;
ghost use Rattle.wit_foreign.specs.Passed.wit_arena-Tree.{Owner};
ghost use Rattle.wit_foreign.specs.Passed.wit_arena-Meaning.{Has};
ghost use Rattle.wit_foreign.specs.Needs.{NeedTree};
ghost use Rattle.wit_foreign.specs.View as seen;
ghost use Rattle.wit_foreign.specs.Items.{need_owner, AreItemsOf};
ghost use Rattle.wit_placeholders.specs.Placeholders as spec;

use indexmap::IndexMap;
use std::alloc::{AllocError, Global};
use wit_foreign::{ForeignItems, Need};
use wit_types::{Arena, AstItem, Docs, Interface, InterfaceId, Stability, World, WorldId};

/// Interfaces and worlds of other packages, of which nothing is known but their names.
#[derive(Drop)]
pub struct Placeholders {
    /// The interfaces by their ids.
    pub interfaces: Arena<Interface>,
    /// The worlds by their ids.
    pub worlds: Arena<World>,
}

/// The id of what is asked for, which is there.
fn item_of<'a>(items: &ForeignItems<'a>, need: &Need<'a>) -> AstItem
    requires { (i : AstItem) × Has items.now (need_owner (seen.need need.now), i) }
    ensures { Has items.now (need_owner (seen.need need.now), result) }
{
    match items.get(&need.package, &need.item, need.asked) {
        Some(item) => item,
        None => unreachable!(),
    }
}

/// An interface of which nothing is known but the name by which it is asked for.
fn unknown_interface(alloc: Global, need: &Need<'_>) -> Result<Interface, AllocError>
    ensures { (needs : List NeedTree) (w : Owner) → spec.IsFirstAsk needs w (seen.need need.now) → IfOk result (spec.IsUnknownInterface needs w) }
{
    let name = String::from_str(alloc, need.item.name)?;
    Ok(Interface {
        name: Some(name),
        types: IndexMap::new(alloc),
        functions: IndexMap::new(alloc),
        docs: Docs { contents: None },
        stability: Stability::Unknown,
        package: None,
        span: need.item.span,
    })
}

/// A world of which nothing is known but the name by which it is asked for.
fn unknown_world(alloc: Global, need: &Need<'_>) -> Result<World, AllocError>
    ensures { (needs : List NeedTree) (w : Owner) → spec.IsFirstAsk needs w (seen.need need.now) → IfOk result (spec.IsUnknownWorld needs w) }
{
    let name = String::from_str(alloc, need.item.name)?;
    Ok(World {
        name,
        imports: IndexMap::new(alloc),
        exports: IndexMap::new(alloc),
        package: None,
        docs: Docs { contents: None },
        stability: Stability::Unknown,
        includes: Vec::new(alloc),
        span: need.item.span,
    })
}

/// Adds an interface under the next id; where it is asked for under another, it is there.
fn add_interface(
    alloc: Global,
    interfaces: &mut Arena<Interface>,
    id: InterfaceId,
    need: &Need<'_>,
) -> Result<(), AllocError>
    ensures next { id ≡ length interfaces.old → OnOk result ((d : Interface) × ((needs : List NeedTree) (w : Owner) → spec.IsFirstAsk needs w (seen.need need.now) → spec.IsUnknownInterface needs w d) × (interfaces.new ≡ interfaces.old ++ d ∷ [])) }
    ensures there { (id ≡ length interfaces.old → ⊥) → interfaces.new ≡ interfaces.old }
{
    if id.index() != interfaces.len() {
        return Ok(());
    }
    let interface = unknown_interface(alloc, need)?;
    interfaces.alloc(interface)?;
    Ok(())
}

/// Adds a world under the next id; where it is asked for under another, it is there.
fn add_world(
    alloc: Global,
    worlds: &mut Arena<World>,
    id: WorldId,
    need: &Need<'_>,
) -> Result<(), AllocError>
    ensures next { id ≡ length worlds.old → OnOk result ((d : World) × ((needs : List NeedTree) (w : Owner) → spec.IsFirstAsk needs w (seen.need need.now) → spec.IsUnknownWorld needs w d) × (worlds.new ≡ worlds.old ++ d ∷ [])) }
    ensures there { (id ≡ length worlds.old → ⊥) → worlds.new ≡ worlds.old }
{
    if id.index() != worlds.len() {
        return Ok(());
    }
    let world = unknown_world(alloc, need)?;
    worlds.alloc(world)?;
    Ok(())
}

/// Adds what is asked for under the next id of its sort; what is asked for under another is there.
fn add_item(
    alloc: Global,
    interfaces: &mut Arena<Interface>,
    worlds: &mut Arena<World>,
    item: AstItem,
    need: &Need<'_>,
) -> Result<(), AllocError>
    ensures next_interface { item ≡ ids.Interface (length interfaces.old) → OnOk result ((d : Interface) × ((needs : List NeedTree) (w : Owner) → spec.IsFirstAsk needs w (seen.need need.now) → spec.IsUnknownInterface needs w d) × (interfaces.new ≡ interfaces.old ++ d ∷ [])) }
    ensures next_world { item ≡ ids.World (length worlds.old) → OnOk result ((d : World) × ((needs : List NeedTree) (w : Owner) → spec.IsFirstAsk needs w (seen.need need.now) → spec.IsUnknownWorld needs w d) × (worlds.new ≡ worlds.old ++ d ∷ [])) }
    ensures interfaces { (item ≡ ids.Interface (length interfaces.old) → ⊥) → interfaces.new ≡ interfaces.old }
    ensures worlds { (item ≡ ids.World (length worlds.old) → ⊥) → worlds.new ≡ worlds.old }
{
    match item {
        AstItem::Interface(id) => add_interface(alloc, interfaces, id, need),
        AstItem::World(id) => add_world(alloc, worlds, id, need),
    }
}

/// An interface and a world for each that is asked for, under its id: nothing is known of them but their names, and each is
/// said to stand where it is first asked for.
pub fn placeholders_of<'a>(
    alloc: Global,
    items: &ForeignItems<'a>,
    needs: &[Need<'a>],
) -> Result<Placeholders, AllocError>
    requires { AreItemsOf (seen.needs needs.now) items.now }
    ensures { IfOk result (λ p. spec.ArePlaceholders (seen.needs needs.now) items.now p.interfaces p.worlds) }
{
    let mut interfaces = Arena::new(alloc);
    let mut worlds = Arena::new(alloc);
    for need in needs {
        let item = item_of(items, need);
        add_item(alloc, &mut interfaces, &mut worlds, item, need)?;
    }
    Ok(Placeholders { interfaces, worlds })
}
