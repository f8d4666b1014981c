//! Laws of graphs that come of texts.

ghost use Rattle.text_graphs.specs.Graphs.{NamesTellInterfacesApart, TextGraphsAreNamed};
ghost use Rattle.text_graphs.specs.Meant.{TextGraphsMeanTheirTexts};
ghost use Rattle.text_graphs.specs.Owned.{TextGraphsHaveOwners};
ghost use Rattle.text_graphs.specs.There.{TextPackagesAreThere};

use wit_labelled_packages::{
    law_empty_graphs_are_known, law_empty_graphs_are_labelled, law_empty_graphs_have_named_worlds,
    law_moved_names_read_back, law_moved_packages_have_named_worlds, law_parsed_names_read_back,
    law_parsed_packages_have_named_worlds, law_parsed_packages_have_names_apart,
    law_pushed_graphs_are_known, law_pushed_graphs_are_labelled,
    law_pushed_graphs_have_named_worlds,
};
use wit_named_packages::{
    law_moved_packages_are_named, law_moved_packages_are_well_formed,
    law_moved_packages_have_names_apart, law_names_tell_interfaces_apart,
    law_parsed_packages_are_named, law_parsed_packages_are_well_formed,
    law_pushed_graphs_are_named,
};
use wit_pushed_trees::{
    law_empty_graphs_are_meant, law_empty_graphs_are_owned, law_empty_graphs_have_names_stand,
    law_empty_graphs_have_types_known, law_empty_worlds_are_meant, law_empty_worlds_are_said,
    law_graphs_give_their_names, law_moved_packages_have_owners,
    law_moved_packages_have_their_items, law_moved_packages_mean_their_texts,
    law_moved_types_are_known, law_moved_worlds_are_named_apart, law_pushed_graphs_are_owned,
    law_pushed_graphs_have_names_stand, law_pushed_graphs_have_trees,
    law_pushed_graphs_mean_their_texts, law_pushed_packages_are_said,
    law_pushed_packages_list_their_items, law_pushed_types_are_known, law_pushed_worlds_are_meant,
    law_pushed_worlds_are_said, law_resolved_packages_are_of_texts,
    law_resolved_packages_have_owners, law_resolved_packages_have_their_items,
    law_resolved_types_are_known, law_resolved_worlds_are_named_apart,
};

/// Packages that come of texts are a graph in which interfaces and worlds take types of others by use alone, and names that have to tell
/// things apart do: those of packages, of interfaces, of what stands in one scope, labels of types and parameters of functions (WIT,
/// Packages, Use, Package Names, Item: `world`).
pub fn law_text_graphs_are_named()
    ensures { TextGraphsAreNamed }
{
    law_parsed_packages_are_well_formed();
    law_moved_packages_are_well_formed();
    law_parsed_packages_are_named();
    law_moved_packages_are_named();
    law_pushed_graphs_are_named();
    law_empty_graphs_are_known();
    law_parsed_names_read_back();
    law_moved_names_read_back();
    law_pushed_graphs_are_known();
    law_empty_graphs_are_labelled();
    law_parsed_packages_have_names_apart();
    law_moved_packages_have_names_apart();
    law_pushed_graphs_are_labelled();
    law_empty_graphs_have_named_worlds();
    law_parsed_packages_have_named_worlds();
    law_moved_packages_have_named_worlds();
    law_pushed_graphs_have_named_worlds();
}

/// In such a graph no two interfaces have one text: `Resolve::id_of` tells any two apart that have a name (WIT, Package Names).
pub fn law_text_names_tell_interfaces_apart()
    ensures { NamesTellInterfacesApart }
{
    law_names_tell_interfaces_apart();
    law_text_graphs_are_named();
}

/// In such a graph every name means what scope gives it over all texts. Each package has the name that one of the texts says that were pushed; each interface and each
/// world is of such a package and means what the text does whose it is by its owner: each name stands for what it means there by lexical scope, and each that it takes of another package for what stands in the graph
/// under that, by the names of the package and of the interface; a function of a resource is of that for which the resource's name stands. A world includes the worlds
/// to which its text's paths lead, and has besides its own what these bring alone: each function, interface and type that it imports or exports is one that its text says
/// or the text of a world that it includes, and so on, under names that change, functions under their own, and every statement that says so stays by the features that
/// were active when its text was pushed. All interfaces and worlds have owners, and each type has a tree (WIT, Packages, Package Names, Items, Feature Gates, Use, Types).
pub fn law_text_graphs_mean_their_texts()
    ensures { TextGraphsMeanTheirTexts }
{
    law_text_graphs_are_named();
    law_resolved_packages_are_of_texts();
    law_moved_packages_mean_their_texts();
    law_pushed_packages_are_said();
    law_empty_graphs_are_meant();
    law_pushed_graphs_mean_their_texts();
    law_empty_worlds_are_meant();
    law_pushed_worlds_are_meant();
    law_empty_worlds_are_said();
    law_pushed_worlds_are_said();
    law_resolved_packages_have_owners();
    law_moved_packages_have_owners();
    law_resolved_worlds_are_named_apart();
    law_moved_worlds_are_named_apart();
    law_empty_graphs_are_owned();
    law_pushed_graphs_are_owned();
    law_pushed_graphs_have_trees();
    law_graphs_give_their_names();
    law_empty_graphs_have_names_stand();
    law_pushed_graphs_have_names_stand();
    law_resolved_types_are_known();
    law_moved_types_are_known();
    law_empty_graphs_have_types_known();
    law_pushed_types_are_known();
    law_parsed_names_read_back();
    law_moved_names_read_back();
    law_empty_graphs_are_known();
    law_pushed_graphs_are_known();
}

/// In such a graph each name stands for a package of that name, all interfaces and worlds have owners, what a package has under a name being its own under
/// that, no two worlds are one, and of each type more than its name is known: no `TypeDefKind::Unknown` is left (WIT, Packages, Package Names, Types).
pub fn law_text_graphs_have_owners()
    ensures { TextGraphsHaveOwners }
{
    law_text_graphs_mean_their_texts();
}

/// All packages of the texts that were pushed are there: each of these is read, and its files, and each package that is nested in one, are resolved to a package
/// of which the name is there; and of the interfaces and worlds of the files each that has a name and stays, by the features that were active then, stands there under
/// it, with what of its own text stays: types and functions under their names; what a world imports and exports, under labels or, by paths, as the interfaces that have
/// these names, with the members of an interface that stands in it; and all that the worlds bring that it includes, under names that change. Under names these packages
/// have no other interfaces and worlds, and interfaces no other types and functions (WIT, Packages, Nested Packages, Package Names, Items, Use, Feature Gates).
pub fn law_text_packages_are_there()
    ensures { TextPackagesAreThere }
{
    law_resolved_packages_have_their_items();
    law_moved_packages_have_their_items();
    law_pushed_packages_list_their_items();
    law_empty_graphs_have_names_stand();
    law_pushed_graphs_have_names_stand();
}
