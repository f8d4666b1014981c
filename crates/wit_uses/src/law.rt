//! Laws of types that are used.

ghost use Rattle.wit_uses.specs.Included.{BroughtTakesByUse};
ghost use Rattle.wit_uses.specs.Joined.{JoinedWorldsTakeByUse};
ghost use Rattle.wit_uses.specs.Moved.{InterfacesStillTakeByUse, MovedInterfacesTakeByUse, MovedWorldsTakeByUse, PlacedWorldsTakeByUse};
ghost use Rattle.wit_uses.specs.Uses.{TakenAreUsed};

use wit_joined::{law_included_sides_are_there, law_included_types_are_backward};
use wit_placed::law_worlds_take_places_alone;

/// All that an owner sees that its types are made of is its own, belongs nowhere, or is of an interface of which types that it lists use one,
/// where it takes types of others by use alone (WIT, Use).
pub fn law_taken_are_used()
    ensures { TakenAreUsed }
{}

/// What stays of a package whose interfaces take types of others by use alone does so where it stands in a graph, and so does the graph (WIT,
/// Use, Feature Gates, Packages).
pub fn law_moved_interfaces_take_by_use()
    ensures { MovedInterfacesTakeByUse }
{}

/// So it is of a world of the package, without what it includes.
pub fn law_moved_worlds_take_by_use()
    ensures { MovedWorldsTakeByUse }
{}

/// So it is of all worlds of the package, each of which takes a place of its own.
pub fn law_placed_worlds_take_by_use()
    ensures { PlacedWorldsTakeByUse }
{
    law_worlds_take_places_alone();
}

/// Interfaces still do where more types come behind theirs.
pub fn law_interfaces_still_take_by_use()
    ensures { InterfacesStillTakeByUse }
{}

/// What a world that takes types of others by use alone brings to one that includes it does so as well, its copies being of that world (WIT, Use,
/// Item: `include`).
pub fn law_brought_takes_by_use()
    ensures { BroughtTakesByUse }
{}

/// A world of a package with all that it includes takes types of others by use alone, where it does and those that it includes do, which still do.
pub fn law_joined_worlds_take_by_use()
    ensures { JoinedWorldsTakeByUse }
{
    law_included_types_are_backward();
    law_included_sides_are_there();
    law_brought_takes_by_use();
}
