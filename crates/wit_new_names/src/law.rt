//! Laws of new names.

ghost use Rattle.wit_new_names.specs.Graphs.{EmptyGraphsAreKnown, PushedGraphsAreKnown};
ghost use Rattle.wit_new_names.specs.Names.{NewNamesAreNew};

/// Where each package stands under its name, a package whose name none of these equals has a text that none of the packages has (WIT,
/// Package Names).
pub fn law_new_names_are_new()
    ensures { NewNamesAreNew }
{}

/// In a graph without packages each stands under its name.
pub fn law_empty_graphs_are_known()
    ensures { EmptyGraphsAreKnown }
{}

/// Where each package of a graph stands under its name and `Graph::push` has answered for a package, this has a text that none of them has,
/// and it stands under its name with them (WIT, Packages, Package Names).
pub fn law_pushed_graphs_are_known()
    ensures { PushedGraphsAreKnown }
{}
