//! What a world imports or exports, by places.

ghost use Rattle.std.specs.Prelude.{◌≡◌, ◌<◌, Some, length, slice_get, IsSome};
ghost use Rattle.wit_core_names.specs.Texts.{known};
ghost use Rattle.wit_core_items.specs.Places as spec;

use indexmap::IndexMap;
use wit_core_names::Tables;
use wit_types::{Function, WorldItem, WorldKey};

/// What is at a place, and its key.
pub fn entry_at(side: &IndexMap<WorldKey, WorldItem>, entry: usize) -> (&WorldKey, &WorldItem)
    requires { entry < length side.now.entries }
    ensures { slice_get side.entry.now.entries entry ≡ Some (result.0.now, result.1.now) }
{
    match side.get_index(entry) {
        Some((key, item)) => (key, item),
        None => unreachable!(),
    }
}

/// The function of the world itself that an item is.
pub fn own_function(item: &WorldItem) -> &Function
    requires { IsSome (spec.own_function item.now) }
    ensures { spec.own_function item.entry.now ≡ Some result.now }
{
    match item {
        WorldItem::Function(function) => function,
        _ => unreachable!(),
    }
}

/// The function at a place of the interface that an item is.
pub fn interface_function<'a>(
    tables: &Tables<'a>,
    item: &WorldItem,
    function: usize,
) -> &'a Function
    requires { IsSome (spec.function_in (known tables.now) item.now function) }
    ensures { spec.function_in (known tables.entry.now) item.now function ≡ Some result.now }
{
    let WorldItem::Interface { id, .. } = item else {
        unreachable!()
    };
    match tables.interfaces.get(*id).functions.get_index(function) {
        Some((_, function)) => function,
        None => unreachable!(),
    }
}
