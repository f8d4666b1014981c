//! What a world imports or exports, copied.

ghost use Rattle.std.specs.Prelude.{◌≡◌, IfOk};
ghost use Rattle.wit_moves.specs.Worlds.{IsMovedItem};
ghost use Rattle.wit_copies.specs.Same.{IsSameKey, IsSameItem};
ghost use Rattle.wit_copies.specs.Copies as spec;

use crate::copies::Copies;
use indexmap::IndexMap;
use std::alloc::{AllocError, Global};
use wit_moves::{TypeMap, move_function};
use wit_types::{WorldItem, WorldKey};

/// A clone of a key.
fn clone_key(key: &WorldKey) -> Result<WorldKey, AllocError>
    ensures { IfOk result (IsSameKey key.now) }
{
    match key {
        WorldKey::Name(name) => Ok(WorldKey::Name(name.clone()?)),
        WorldKey::Interface(id) => Ok(WorldKey::Interface(*id)),
    }
}

/// A clone of an item.
fn clone_item(item: &WorldItem) -> Result<WorldItem, AllocError>
    ensures { IfOk result (IsSameItem item.now) }
{
    match item {
        WorldItem::Interface {
            id,
            stability,
            span,
        } => Ok(WorldItem::Interface {
            id: *id,
            stability: stability.clone()?,
            span: *span,
        }),
        WorldItem::Function(function) => Ok(WorldItem::Function(function.clone()?)),
        WorldItem::TypeItem { id, span } => Ok(WorldItem::TypeItem {
            id: *id,
            span: *span,
        }),
    }
}

/// Puts the types that an item is made of where they are found.
fn move_item(copies: &Copies, item: &mut WorldItem)
    ensures { IsMovedItem (spec.goes copies.now) (λ i. i) item.old item.new }
{
    match item {
        WorldItem::Interface { .. } => {}
        WorldItem::Function(function) => move_function(copies, function),
        WorldItem::TypeItem { id, .. } => *id = copies.moved_id(*id),
    }
}

/// A copy of an item.
fn copied_item(copies: &Copies, item: &WorldItem) -> Result<WorldItem, AllocError>
    ensures { IfOk result (spec.IsCopiedItem copies.now item.now) }
{
    let mut copy = clone_item(item)?;
    move_item(copies, &mut copy);
    Ok(copy)
}

/// Copies of what a world imports or exports, in their order, made of copies of its types.
pub fn copied_side(
    alloc: Global,
    copies: &Copies,
    side: &IndexMap<WorldKey, WorldItem>,
) -> Result<Vec<(WorldKey, WorldItem)>, AllocError>
    ensures { IfOk result (λ found. spec.AreCopiedEntries copies.now side.now.entries found.items) }
{
    let mut found = Vec::with_capacity(alloc, side.len())?;
    for (key, item) in side.iter() {
        found.push((clone_key(key)?, copied_item(copies, item)?))?;
    }
    Ok(found)
}
