//! Laws of graphs.

ghost use Rattle.wit_named_graphs.specs.Added.{AddedItemsAreNamed};
ghost use Rattle.wit_named_graphs.specs.Pushed.{PushedGraphsAreNamed};

use wit_item_names::{
    law_found_are_named, law_placed_tables_name_named, law_pushed_items_are_named,
};
use wit_moved_trees::law_moved_types_are_backward;
use wit_placed::{
    law_found_are_there, law_found_types_are_there, law_interfaces_take_places,
    law_moved_interfaces_are_there, law_moved_interfaces_hold_their_types, law_moved_types_belong,
    law_moved_worlds_are_there,
};

/// Where a graph's interfaces and worlds take types of others by use alone and its names tell things apart, and so do those of a package of a new
/// name that is added to it, they do with the package, if interfaces that it finds have names (WIT, Packages, Use, Package Names).
pub fn law_added_items_are_named()
    ensures { AddedItemsAreNamed }
{
    law_pushed_items_are_named();
    law_moved_types_are_backward();
    law_found_types_are_there();
    law_interfaces_take_places();
    law_moved_types_belong();
    law_moved_interfaces_hold_their_types();
    law_moved_interfaces_are_there();
    law_moved_worlds_are_there();
}

/// Where so it is of a graph, whose packages name interfaces that have names, and of a package of a new name, so it is of the graph when
/// `Graph::push` has answered for the package (WIT, Packages, Use, Package Names).
pub fn law_pushed_graphs_are_named()
    ensures { PushedGraphsAreNamed }
{
    law_added_items_are_named();
    law_found_are_there();
    law_found_are_named();
    law_placed_tables_name_named();
}
