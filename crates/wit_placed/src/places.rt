//! Laws of the places that a package takes in a graph.

ghost use Rattle.wit_placed.specs.Order.{InterfacesTakePlaces, MovedInterfacesHoldTheirTypes, MovedNamelessAreFree, MovedTypesBelong};
ghost use Rattle.wit_placed.specs.Worlds.{WorldsTakePlaces, WorldsTakePlacesAlone};

/// Interfaces that stay take so many places behind those of a graph as they are.
pub fn law_interfaces_take_places()
    ensures { InterfacesTakePlaces }
{}

/// With a package behind them, the types of a graph belong to interfaces that are there.
pub fn law_moved_types_belong()
    ensures { MovedTypesBelong }
{}

/// Where the interfaces of a package hold their types, and those of a graph theirs, among which types of other packages are found, so do
/// all of them.
pub fn law_moved_interfaces_hold_their_types()
    ensures { MovedInterfacesHoldTheirTypes }
{}

/// Where types without names belong nowhere, of a package and of a graph, so do all of them where the package stands in the graph.
pub fn law_moved_nameless_are_free()
    ensures { MovedNamelessAreFree }
{}

/// Worlds that stay take so many places behind those of a graph as they are.
pub fn law_worlds_take_places()
    ensures { WorldsTakePlaces }
{}

/// Each is the only one of the package, and of those for which it asks, to take its place.
pub fn law_worlds_take_places_alone()
    ensures { WorldsTakePlacesAlone }
{}
