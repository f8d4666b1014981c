//! Laws of names in graphs.

ghost use Rattle.wit_labelled_graphs.specs.Labelled.{EmptyGraphsAreLabelled, PushedGraphsAreLabelled};
ghost use Rattle.wit_labelled_graphs.specs.Named.{EmptyGraphsHaveNamedWorlds, PushedGraphsHaveNamedWorlds};

use wit_labels::{
    law_elaborated_sides_are_named, law_elaborated_worlds_are_apart, law_joined_sides_are_named,
    law_joined_worlds_are_apart, law_moved_interfaces_are_apart, law_moved_types_have_labels_apart,
    law_moved_worlds_are_apart, law_moved_worlds_are_named,
};

/// A graph without packages has no names that are one.
pub fn law_empty_graphs_are_labelled()
    ensures { EmptyGraphsAreLabelled }
{}

/// Where labels within each type of a graph and of a package differ, and names of the parameters of each function, so they do in the graph when
/// `Graph::push` has answered for the package (WIT, Items, Types, Item: `include`; Component Model, WIT, Worlds).
pub fn law_pushed_graphs_are_labelled()
    ensures { PushedGraphsAreLabelled }
{
    law_moved_types_have_labels_apart();
    law_moved_interfaces_are_apart();
    law_moved_worlds_are_apart();
    law_joined_worlds_are_apart();
    law_elaborated_worlds_are_apart();
}

/// Worlds of a graph without packages have no names.
pub fn law_empty_graphs_have_named_worlds()
    ensures { EmptyGraphsHaveNamedWorlds }
{}

/// Where functions of worlds of a graph and of a package stand under their names, which have no marks, once on each side, so they do in the
/// graph when `Graph::push` has answered for the package (WIT, Item: `world`, Item: `include`).
pub fn law_pushed_graphs_have_named_worlds()
    ensures { PushedGraphsHaveNamedWorlds }
{
    law_moved_worlds_are_named();
    law_joined_sides_are_named();
    law_elaborated_sides_are_named();
}
