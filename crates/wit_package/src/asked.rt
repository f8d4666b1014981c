//! What a package asks of others.

ghost use Rattle.std.specs.Prelude.{◌≡◌, List, [], map, IfOk};
ghost use Rattle.wit_scopes.specs.View as scope_view;
ghost use Rattle.wit_built_worlds.specs.Passed.wit_resources-Natures.{natures as natures_of};
ghost use Rattle.wit_placeholders.specs.Passed.wit_foreign-Needs.{AreUses, needs_in};
ghost use Rattle.wit_placeholders.specs.Passed.wit_foreign-Items.{AreItemsOf};
ghost use Rattle.wit_placeholders.specs.Passed.wit_foreign-Unknown.{AreUnknown};
ghost use Rattle.wit_placeholders.specs.Passed.wit_foreign-View as seen;
ghost use Rattle.wit_package.specs.Start as spec;

use name_places::FirstPlaces;
use std::alloc::{AllocError, Global};
use wit_arena::Types;
use wit_built_worlds::{Building, BuiltWorlds, Natures};
use wit_placeholders::{
    ForeignItems, Known, Need, add_unknown_types, foreign_items, placeholders_of,
};
use wit_syntax::Span;
use wit_types::{Arena, Interface};

/// A package before anything of its own is brought in: the types, interfaces and worlds of others that it asks for are there.
#[derive(Drop)]
pub struct Start<'a> {
    /// Its types and interfaces.
    pub building: Building<'a>,
    /// Its worlds.
    pub worlds: BuiltWorlds<'a>,
    /// Where each unknown type is first used.
    pub spans: Vec<Span>,
}

/// What is known of all types.
fn natures_in(types: &Types) -> Result<Natures, AllocError>
    ensures { IfOk result (λ n. n ≡ natures_of types.now) }
{
    let mut natures = Natures::new(types.allocator());
    natures.catch_up(types)?;
    Ok(natures)
}

/// Interfaces, with room for so many more.
fn with_room(interfaces: Arena<Interface>, capacity: usize) -> Result<Arena<Interface>, AllocError>
    ensures { IfOk result (λ a. a ≡ interfaces) }
{
    let mut items = interfaces.into_items();
    items.reserve(capacity)?;
    Ok(Arena::from_items(items))
}

/// The types, interfaces and worlds of others that are asked for, with room for so many interfaces of its own.
pub fn start_of<'a>(
    alloc: Global,
    items: &ForeignItems<'a>,
    needs: &[Need<'a>],
    capacity: usize,
) -> Result<Start<'a>, AllocError>
    requires items { AreItemsOf (seen.needs needs.now) items.now }
    requires uses { AreUses (seen.needs needs.now) }
    ensures { IfOk result (λ s. spec.IsStart (seen.needs needs.now) items.now s.building.known s.building.types s.building.natures s.building.interfaces s.worlds.names s.worlds.worlds s.spans.items) }
{
    // Most interfaces have a type at least.
    let mut types = Types::with_capacity(alloc, capacity)?;
    let unknown = add_unknown_types(&mut types, items, needs)?;
    let natures = natures_in(&types)?;
    let others = placeholders_of(alloc, items, needs)?;
    let interfaces = with_room(others.interfaces, capacity)?;
    let known = Known::with_capacity(alloc, unknown.types, capacity)?;
    Ok(Start {
        building: Building {
            known,
            types,
            natures,
            interfaces,
        },
        worlds: BuiltWorlds {
            names: FirstPlaces::new(alloc),
            worlds: others.worlds,
        },
        spans: unknown.spans,
    })
}
