//! What worlds import and export.

ghost use Rattle.std.specs.Prelude.{◌≡◌, ◌<◌, true, map, Some, length, slice_get, OnOk, IfOk, IfErr};
ghost use Rattle.wit_features.specs.Passed.wit_words-declared-source_map-Span.{Span};
ghost use Rattle.wit_features.specs.Passed.wit_types-declared-world_key-WorldKey.{WorldKey};
ghost use Rattle.wit_moves.specs.Moved.{to};
ghost use Rattle.wit_moves.specs.Worlds as spec;

use crate::functions::{has_signature, move_function};
use crate::interfaces::stays;
use crate::places::{InterfacePlaces, TypePlaces};
use crate::plan::MoveFault;
use indexmap::IndexMap;
use std::alloc::{AllocError, Global};
use wit_features::{Features, WorldItem, WorldKey};

/// Whether an item stays: where its gates let it, a type where it stands somewhere.
fn item_stays(features: &Features, places: &TypePlaces, item: &WorldItem) -> bool
    ensures { result ≡ spec.item_stays features.now places.now item.now }
{
    match item {
        WorldItem::Interface { stability, .. } => features.keeps(stability),
        WorldItem::Function(function) => stays(features, places, function),
        WorldItem::TypeItem { id, .. } => places.has_id(*id),
    }
}

/// Whether an interface stands somewhere, and all types that a function takes and gives do.
fn has_item(places: &TypePlaces, interfaces: &InterfacePlaces, item: &WorldItem) -> bool
    ensures { result ≡ spec.is_item_placed places.now interfaces.now item.now }
{
    match item {
        WorldItem::Interface { id, .. } => interfaces.has_id(*id),
        WorldItem::Function(function) => has_signature(places, function),
        WorldItem::TypeItem { id, .. } => places.has_id(*id),
    }
}

/// Moves an item to the interface and the types where they stand.
fn move_item(places: &TypePlaces, interfaces: &InterfacePlaces, item: &mut WorldItem)
    ensures { spec.IsMovedItem (to places.now) (to interfaces.now) item.old item.new }
{
    match item {
        WorldItem::Interface { id, .. } => *id = interfaces.to(*id),
        WorldItem::Function(function) => move_function(places, function),
        WorldItem::TypeItem { id, .. } => *id = places.to(*id),
    }
}

/// Moves an item, if it stays. Answers whether it does.
fn place_item(
    features: &Features,
    places: &TypePlaces,
    interfaces: &InterfacePlaces,
    item: &mut WorldItem,
) -> bool
    ensures stays { result ≡ spec.item_stays features.now places.now item.old }
    ensures moved { result ≡ true → spec.IsMovedItem (to places.now) (to interfaces.now) item.old item.new }
{
    let stays = item_stays(features, places, item);
    if stays {
        move_item(places, interfaces, item);
    }
    stays
}

/// Moves the items that stay; the others go.
fn move_items(
    features: &Features,
    places: &TypePlaces,
    interfaces: &InterfacePlaces,
    side: &mut IndexMap<WorldKey, WorldItem>,
)
    ensures { spec.AreMovedItems features.now places.now interfaces.now side.old.entries side.new.entries }
{
    side.retain(
        |_key: &WorldKey, item: &mut WorldItem| -> bool
            ensures { (result ≡ spec.item_stays features.entry.now places.entry.now item.old) × (result ≡ true → spec.IsMovedItem (to places.entry.now) (to interfaces.entry.now) item.old item.new) }
        { place_item(features, places, interfaces, item) },
    );
}

/// A key, of an interface the one where that stands.
fn moved_key(interfaces: &InterfacePlaces, key: WorldKey) -> WorldKey
    ensures { result ≡ spec.moved_key (to interfaces.now) key }
{
    match key {
        WorldKey::Name(name) => WorldKey::Name(name),
        WorldKey::Interface(id) => WorldKey::Interface(interfaces.to(id)),
    }
}

/// The items with their keys moved.
fn moved_keys(
    alloc: Global,
    interfaces: &InterfacePlaces,
    side: IndexMap<WorldKey, WorldItem>,
) -> Result<Vec<(WorldKey, WorldItem)>, AllocError>
    ensures { IfOk result (λ found. found.items ≡ map (spec.moved_entry (to interfaces.now)) side.entries) }
{
    let mut found = Vec::with_capacity(alloc, side.len())?;
    for (key, item) in side {
        found.push((moved_key(interfaces, key), item))?;
    }
    Ok(found)
}

/// What a world imports or exports, with what of it stays moved to where its interfaces and types stand, in its order.
pub fn moved_side(
    alloc: Global,
    features: &Features,
    places: &TypePlaces,
    interfaces: &InterfacePlaces,
    side: IndexMap<WorldKey, WorldItem>,
) -> Result<Vec<(WorldKey, WorldItem)>, AllocError>
    ensures { IfOk result (λ found. spec.IsMovedSide features.now places.now interfaces.now side.entries found.items) }
{
    let mut kept = side;
    move_items(features, places, interfaces, &mut kept);
    moved_keys(alloc, interfaces, kept)
}

/// The item at a place.
fn item_at(side: &IndexMap<WorldKey, WorldItem>, place: usize) -> &WorldItem
    requires { place < length side.now.entries }
    ensures { (key : WorldKey) × (slice_get side.now.entries place ≡ Some (key, result.now)) }
{
    match side.get_index(place) {
        Some((_, item)) => item,
        None => unreachable!(),
    }
}

/// Refuses a side on which an item stays whose interface doesn't stand anywhere, or a function that takes or gives a type that
/// doesn't.
pub fn check_side(
    features: &Features,
    places: &TypePlaces,
    interfaces: &InterfacePlaces,
    side: &IndexMap<WorldKey, WorldItem>,
) -> Result<(), MoveFault>
    ensures ok { OnOk result ((at : Span) → spec.SideBreaks features.now places.now interfaces.now side.now.entries at → ⊥) }
    ensures cause { IfErr result (spec.IsSideCause features.now places.now interfaces.now side.now.entries) }
{
    for place in 0..side.len() {
        let item = item_at(side, place);
        if item_stays(features, places, item) && !has_item(places, interfaces, item) {
            return Err(MoveFault::ItemNotFound(item.span()));
        }
    }
    Ok(())
}
