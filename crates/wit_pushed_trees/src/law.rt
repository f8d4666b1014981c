//! Laws of packages that mean what their texts do.

ghost use Rattle.wit_pushed_trees.specs.Agreed.{PushedPackagesAreAgreed};
ghost use Rattle.wit_pushed_trees.specs.Apart.{MovedWorldsAreNamedApart, ResolvedWorldsAreNamedApart};
ghost use Rattle.wit_pushed_trees.specs.Asked.{MovedPackagesAskByName, ResolvedPackagesAskByName};
ghost use Rattle.wit_pushed_trees.specs.Found.{AskedItemsAreFoundByName, AskedTypesStandForTheSame, EmptyNamesStand, EqualNamesAreTheSame, PushedNamesStand};
ghost use Rattle.wit_pushed_trees.specs.Giving.{GraphsGiveTheirNames, KnownTypesStandAlone};
ghost use Rattle.wit_pushed_trees.specs.Known.{EmptyTypesAreKnown, MovedTypesAreKnown, PushedTypesAreKnown, ResolvedTypesAreKnown};
ghost use Rattle.wit_pushed_trees.specs.Meant.{EmptyGraphsAreMeant, PushedGraphsMeanTheirTexts, PushedPackagesAreSaid, ResolvedPackagesAreOfTexts};
ghost use Rattle.wit_pushed_trees.specs.MeantWorlds.{EmptyWorldsAreMeant, PushedWorldsAreMeant};
ghost use Rattle.wit_pushed_trees.specs.Owned.{EmptyGraphsAreOwned, MovedPackagesHaveOwners, PushedGraphsAreOwned, ResolvedPackagesHaveOwners};
ghost use Rattle.wit_pushed_trees.specs.Packages.{MovedPackagesMeanTheirTexts, ResolvedPackagesMeanTheirTexts};
ghost use Rattle.wit_pushed_trees.specs.Pushed.{PushedInterfacesMeanTheirTexts, PushedTypesStandForTheSame, PushedWorldsMeanTheirTexts};
ghost use Rattle.wit_pushed_trees.specs.Said.{EmptyWorldsAreSaid, PushedWorldsAreSaid};
ghost use Rattle.wit_pushed_trees.specs.There.{MovedPackagesHaveTheirItems, PushedPackagesListTheirItems, ResolvedPackagesHaveTheirItems};
ghost use Rattle.wit_pushed_trees.specs.Whole.{PushedGraphsHaveTrees, PushedGraphsKeepWhatWas};

use wit_copied_trees::{
    law_included_functions_stand_for_the_same, law_included_types_stand_for_the_same,
};
use wit_moved_trees::{
    law_moved_functions_stand_for_the_same, law_moved_names_stand_for_the_same,
    law_moved_types_stand_for_the_same,
};

/// The interfaces and worlds of a package to which files are resolved mean what their texts do, whatever is given for names of other packages: each
/// name stands for what it means there by lexical scope; each function takes and gives what is written, and one of a resource is of that for which the
/// resource's name stands. Of what worlds import, export and include themselves the gates that stand in front of it say the same (WIT, Items, Use, Types, Feature Gates).
pub fn law_resolved_packages_mean_their_texts()
    ensures { ResolvedPackagesMeanTheirTexts }
{}

/// They do wherever the texts stand among others.
pub fn law_moved_packages_mean_their_texts()
    ensures { MovedPackagesMeanTheirTexts }
{}

/// Where a graph has for the names of other packages what is given for them, the types of a package that stay stand in the graph for what they
/// stood for in the package, when `Graph::push` has answered for it (WIT, Packages, Types).
pub fn law_pushed_types_stand_for_the_same()
    ensures { PushedTypesStandForTheSame }
{
    law_moved_types_stand_for_the_same();
}

/// Then each interface that came to the graph means what its text does, if those of the package did (WIT, Item: `interface`, Use, Types).
pub fn law_pushed_interfaces_mean_their_texts()
    ensures { PushedInterfacesMeanTheirTexts }
{
    law_pushed_types_stand_for_the_same();
    law_moved_names_stand_for_the_same();
    law_moved_functions_stand_for_the_same();
}

/// So does what each world that came has itself, and what it includes is what its text does; all of it, and the world, stays by the features that are active (WIT, Item:
/// `world`, `include`, Use, Types, Feature Gates).
pub fn law_pushed_worlds_mean_their_texts()
    ensures { PushedWorldsMeanTheirTexts }
{
    law_pushed_types_stand_for_the_same();
    law_moved_functions_stand_for_the_same();
}

/// Each interface and world that a package to which files are resolved asks of another is the one of the other's under the name by which the text
/// asks for it, and of types that it asks for their names alone are known (WIT, Packages, Use).
pub fn law_resolved_packages_ask_by_name()
    ensures { ResolvedPackagesAskByName }
{}

/// They are wherever the texts stand among others.
pub fn law_moved_packages_ask_by_name()
    ensures { MovedPackagesAskByName }
{}

/// Names of packages that are equal by `==` have the same texts and versions (WIT, Package Names).
pub fn law_equal_names_are_the_same()
    ensures { EqualNamesAreTheSame }
{}

/// In a graph without packages each name stands for a package of that name.
pub fn law_empty_graphs_have_names_stand()
    ensures { EmptyNamesStand }
{}

/// Each does when `Graph::push` has answered for a package, where each did (WIT, Packages, Package Names).
pub fn law_pushed_graphs_have_names_stand()
    ensures { PushedNamesStand }
{}

/// Where each name stands for a package of that name, each interface and world that a package asks of others, as far as it is found, is the one of
/// the package of that name under the name by which it is asked for (WIT, Packages, Use).
pub fn law_asked_items_are_found_by_name()
    ensures { AskedItemsAreFoundByName }
{}

/// Then each type that a package asks for is found where what stands is what is given for its name, in a graph that gives what stands in it (WIT, Use,
/// Types).
pub fn law_asked_types_stand_for_the_same()
    ensures { AskedTypesStandForTheSame }
{}

/// No two of a package's own worlds have one name, if files are resolved to it (WIT, Item: `world`).
pub fn law_resolved_worlds_are_named_apart()
    ensures { ResolvedWorldsAreNamedApart }
{}

/// None have wherever its texts stand among others.
pub fn law_moved_worlds_are_named_apart()
    ensures { MovedWorldsAreNamedApart }
{}

/// A package to which files are resolved has owners of all that it holds, those of its texts: its interfaces and worlds are its own under their names,
/// and those that it asks of others are the others' (WIT, Packages, Package Names).
pub fn law_resolved_packages_have_owners()
    ensures { ResolvedPackagesHaveOwners }
{}

/// It has them wherever the texts stand among others.
pub fn law_moved_packages_have_owners()
    ensures { MovedPackagesHaveOwners }
{}

/// A graph without packages has none.
pub fn law_empty_graphs_are_owned()
    ensures { EmptyGraphsAreOwned }
{}

/// A graph that has owners of all that it holds, by the names of its packages and of what stands in them, no two worlds of which are one, has more when
/// `Graph::push` has answered for a package of a new name that has owners and names its worlds apart: whose an interface or a world of the package was, it
/// still is where it stands (WIT, Packages, Package Names).
pub fn law_pushed_graphs_are_owned()
    ensures { PushedGraphsAreOwned }
{}

/// Where what is given for names of interfaces is what stands in the graph under them, the graph and a package that is pushed to it agree on names of
/// other packages, by the owners of what the graph holds then: the interfaces and worlds that came mean what their texts do (WIT, Packages, Use, Types).
pub fn law_pushed_packages_are_agreed()
    ensures { PushedPackagesAreAgreed }
{}

/// More than their names is known of a package's own types, if files are resolved to it (WIT, Types, Use).
pub fn law_resolved_types_are_known()
    ensures { ResolvedTypesAreKnown }
{}

/// It is wherever the texts stand among others.
pub fn law_moved_types_are_known()
    ensures { MovedTypesAreKnown }
{}

/// It is of all types of a graph without packages.
pub fn law_empty_graphs_have_types_known()
    ensures { EmptyTypesAreKnown }
{}

/// It is of all types of a graph when `Graph::push` has answered for a package of which it is, if it was (WIT, Types, Use).
pub fn law_pushed_types_are_known()
    ensures { PushedTypesAreKnown }
{}

/// Where more than its name is known of each type, what types stand for doesn't depend on what is given for names (WIT, Types).
pub fn law_known_types_stand_alone()
    ensures { KnownTypesStandAlone }
{}

/// A graph gives for each name of an interface, by the name of its package and its own, what stands in it under that: no two packages have one name, and no
/// two interfaces of a package do (WIT, Packages, Package Names, Use).
pub fn law_graphs_give_their_names()
    ensures { GraphsGiveTheirNames }
{}

/// Each type of a graph has a tree, also those that came with what worlds include, when `Graph::push` has answered for a package of which each has, if each
/// of the graph's had (WIT, Types, Item: `include`).
pub fn law_pushed_graphs_have_trees()
    ensures { PushedGraphsHaveTrees }
{
    law_moved_types_stand_for_the_same();
    law_included_types_stand_for_the_same();
}

/// What was in a graph stays when `Graph::push` has answered for a package: each type stands under its id for what it stood for, and each world has what it had, itself and
/// in the end (WIT, Packages).
pub fn law_pushed_graphs_keep_what_was()
    ensures { PushedGraphsKeepWhatWas }
{}

/// A package to which files are resolved has their name, and means what they say (WIT, Packages, Items).
pub fn law_resolved_packages_are_of_texts()
    ensures { ResolvedPackagesAreOfTexts }
{
    law_resolved_packages_mean_their_texts();
}

/// In a graph without packages no interface means anything.
pub fn law_empty_graphs_are_meant()
    ensures { EmptyGraphsAreMeant }
{}

/// Each package of a graph has the name that one of some texts says; and so it is, with one package's texts more, when `Graph::push` has answered for that
/// package (WIT, Package Names).
pub fn law_pushed_packages_are_said()
    ensures { PushedPackagesAreSaid }
{}

/// Each interface of a graph is of the package of one of some texts, and means what one of these does, each name that its text takes of another package standing
/// for what stands in the graph under that; and so it is, with one package's texts more, when `Graph::push` has answered for that package (WIT, Packages, Item:
/// `interface`, Use, Types).
pub fn law_pushed_graphs_mean_their_texts()
    ensures { PushedGraphsMeanTheirTexts }
{
    law_pushed_interfaces_mean_their_texts();
}

/// In a graph without packages no world means anything.
pub fn law_empty_worlds_are_meant()
    ensures { EmptyWorldsAreMeant }
{}

/// Each world of a graph is of the package of one of some texts; what it has itself means what the text of its name does, it includes the worlds to which paths of
/// that text lead, all by statements that stay by the features that were active when the package was pushed, and has besides what these bring alone; and so it is, with
/// one package's texts more, when `Graph::push` has answered for that package (WIT, Packages, Item: `world`, `include`, Feature Gates).
pub fn law_pushed_worlds_are_meant()
    ensures { PushedWorldsAreMeant }
{
    law_pushed_worlds_mean_their_texts();
}

/// In a graph without packages no world imports or exports anything.
pub fn law_empty_worlds_are_said()
    ensures { EmptyWorldsAreSaid }
{}

/// Each function, interface and type that a world of a graph imports or exports is one that texts say: its own text, or the text of a world that it includes,
/// and so on, under names that change, types of an included world being the including one's. A function is of the sort and of the resource that are written there;
/// it takes, under the names of the text, and gives what is written, each name standing for what it means there by lexical scope. Every statement that says so stays,
/// by the features that were active when its package was pushed: the world's, the item's own, that of the resource that a function is of, and each `include`. So it is,
/// with one package's texts more, when `Graph::push` has answered for that package (WIT, Item: `world`, `include`, Use, Types, Feature Gates).
pub fn law_pushed_worlds_are_said()
    ensures { PushedWorldsAreSaid }
{
    law_moved_types_stand_for_the_same();
    law_moved_functions_stand_for_the_same();
    law_included_types_stand_for_the_same();
    law_included_functions_stand_for_the_same();
}

/// Each interface that has a name in the texts of a package, and each world, is one of the package's own, with all types and functions of its own text, and a world
/// with all that it imports, exports and includes, and with all members of interfaces that stand in it, if files are resolved to the package (WIT, Item: `interface`,
/// `world`).
pub fn law_resolved_packages_have_their_items()
    ensures { ResolvedPackagesHaveTheirItems }
{}

/// It is wherever the texts stand among others.
pub fn law_moved_packages_have_their_items()
    ensures { MovedPackagesHaveTheirItems }
{}

/// And it is there under its name when `Graph::push` has answered for the package, if it stays by the features that are active, with what of its own text stays:
/// types and functions under their names; what a world imports and exports, under labels or, by paths, as the interfaces that have these names, with the members of
/// an interface that stands in it; and all that the worlds bring that it includes, under names that change (WIT, Item: `include`, Use, Feature Gates).
pub fn law_pushed_packages_list_their_items()
    ensures { PushedPackagesListTheirItems }
{}
