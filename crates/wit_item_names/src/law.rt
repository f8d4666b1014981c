//! Laws of names of items.

ghost use Rattle.wit_item_names.specs.Added.{AddedWorldsArePlain, AddedWorldsUseNamed};
ghost use Rattle.wit_item_names.specs.Apart.{NamesTellInterfacesApart};
ghost use Rattle.wit_item_names.specs.Placed.{PlacedAreNamedApart, PlacedUseNamed, PlacedWorldsArePlain};
ghost use Rattle.wit_item_names.specs.Pushed.{PushedAreUsedNamed};
ghost use Rattle.wit_item_names.specs.Tables.{FoundAreNamed, PlacedTablesNameNamed};
ghost use Rattle.wit_item_names.specs.Whole.{PushedItemsAreNamed};

use wit_graph_worlds::{
    law_added_worlds_take_by_use, law_brought_takes_by_use, law_interfaces_still_take_by_use,
    law_moved_interfaces_take_by_use, law_placed_worlds_take_by_use,
};
use wit_labels::{law_included_sides_are_there, law_included_types_are_backward};

/// Where names tell packages apart, and the interfaces of each, and no part of these has a mark that stands between them, no two interfaces have
/// one text (WIT, Package Names).
pub fn law_names_tell_interfaces_apart()
    ensures { NamesTellInterfacesApart }
{}

/// Where names tell the packages and interfaces of a graph apart, and the interfaces of a package, whose name is new, they do so in the graph
/// with the package (WIT, Package Names).
pub fn law_placed_are_named_apart()
    ensures { PlacedAreNamedApart }
{}

/// Where interfaces of which types are used have names, of a graph and of a package, they have where the package stands in the graph; so it is of
/// those that its worlds use and import, without what these include (WIT, Use, Item: `world`).
pub fn law_placed_use_named()
    ensures { PlacedUseNamed }
{}

/// Where the worlds of a graph, and those that come to it, use and import interfaces that have names, so do all of them with what they include
/// (WIT, Item: `include`).
pub fn law_added_worlds_use_named()
    ensures { AddedWorldsUseNamed }
{
    law_included_types_are_backward();
    law_included_sides_are_there();
    law_brought_takes_by_use();
}

/// Where interfaces of which types are used, or that worlds import otherwise than under a label, have names in a graph and in a package, they have
/// in the graph with the package (WIT, Use, Packages).
pub fn law_pushed_are_used_named()
    ensures { PushedAreUsedNamed }
{
    law_included_types_are_backward();
    law_included_sides_are_there();
    law_brought_takes_by_use();
    law_placed_use_named();
    law_added_worlds_use_named();
}

/// Where the worlds of a graph import what has plain names, and those that come to it, so do all of them with what they include (WIT, Item:
/// `include`; Component Model, Import and Export Definitions).
pub fn law_added_worlds_are_plain()
    ensures { AddedWorldsArePlain }
{
    law_included_types_are_backward();
    law_included_sides_are_there();
    law_brought_takes_by_use();
}

/// Where worlds of a package import what has plain names, so does what stays of each where it stands in a graph, without what it includes.
pub fn law_placed_worlds_are_plain()
    ensures { PlacedWorldsArePlain }
{}

/// Where tables of packages name interfaces that have names, so has what a package finds of those for which it asks (WIT, Use, Packages).
pub fn law_found_are_named()
    ensures { FoundAreNamed }
{}

/// They do with a package that comes to them, whose table is of the names of its interfaces.
pub fn law_placed_tables_name_named()
    ensures { PlacedTablesNameNamed }
{}

/// Where the items of a graph and those of a package are named, and take types of others by use alone, so it is of all of them when the package
/// has come to the graph (WIT, Packages, Use, Package Names).
pub fn law_pushed_items_are_named()
    ensures { PushedItemsAreNamed }
{
    law_included_types_are_backward();
    law_included_sides_are_there();
    law_brought_takes_by_use();
    law_moved_interfaces_take_by_use();
    law_interfaces_still_take_by_use();
    law_placed_worlds_take_by_use();
    law_added_worlds_take_by_use();
    law_placed_are_named_apart();
    law_pushed_are_used_named();
    law_placed_worlds_are_plain();
    law_added_worlds_are_plain();
}
