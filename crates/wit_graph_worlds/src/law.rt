//! Laws of worlds that take types of other interfaces by use.

ghost use Rattle.wit_graph_worlds.specs.Uses.{AddedWorldsTakeByUse, SameWorldTakesByUse};

use wit_uses::{
    law_brought_takes_by_use, law_included_sides_are_there, law_included_types_are_backward,
};

/// Where a world takes types of others by use alone, so does one that says the same (WIT, Use, Item: `world`).
pub fn law_same_world_takes_by_use()
    ensures { SameWorldTakesByUse }
{}

/// Where the worlds of a graph take types of others by use alone, and worlds of a package without what they include, so do all of them when
/// these are added with what they include.
pub fn law_added_worlds_take_by_use()
    ensures { AddedWorldsTakeByUse }
{
    law_included_types_are_backward();
    law_included_sides_are_there();
    law_brought_takes_by_use();
}
