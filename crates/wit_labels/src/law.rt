//! Laws of names within types and functions.

ghost use Rattle.wit_labels.specs.Included.{BroughtIsApart, JoinedWorldsAreApart};
ghost use Rattle.wit_labels.specs.Named.{BroughtSidesArePlain, ElaboratedSidesAreNamed, JoinedSidesAreNamed, MovedSidesAreNamed, MovedWorldsAreNamed, SidesAreNamed};
ghost use Rattle.wit_labels.specs.Moved.{ElaboratedWorldsAreApart, MovedInterfacesAreApart, MovedTypesHaveLabelsApart, MovedWorldsAreApart};

/// What stays of types whose labels differ has labels that differ (WIT, Types, Feature Gates).
pub fn law_moved_types_have_labels_apart()
    ensures { MovedTypesHaveLabelsApart }
{}

/// What stays of interfaces whose functions have parameters of different names has such functions (WIT, Item: `interface`, Feature Gates).
pub fn law_moved_interfaces_are_apart()
    ensures { MovedInterfacesAreApart }
{}

/// So it is of what stays of worlds, without what they include.
pub fn law_moved_worlds_are_apart()
    ensures { MovedWorldsAreApart }
{}

/// And of a world with all that it imports in the end.
pub fn law_elaborated_worlds_are_apart()
    ensures { ElaboratedWorldsAreApart }
{}

/// What a world brings to one that includes it has labels and parameters whose names differ, where its own do (WIT, Item: `include`).
pub fn law_brought_is_apart()
    ensures { BroughtIsApart }
{}

/// So has a world of a package with all that it includes, where it does and those that it includes do.
pub fn law_joined_worlds_are_apart()
    ensures { JoinedWorldsAreApart }
{}

/// Where functions and types of a side of a world stand once under their names, and these have no marks, the side is named.
pub fn law_sides_are_named()
    ensures { SidesAreNamed }
{}

/// What stays of a side that is named still is (WIT, Feature Gates).
pub fn law_moved_sides_are_named()
    ensures { MovedSidesAreNamed }
{}

/// What a world brings to one that includes it has plain names without marks, which functions have, where its own are so and those to which
/// they are changed (WIT, Item: `include`).
pub fn law_brought_sides_are_plain()
    ensures { BroughtSidesArePlain }
{}

/// Both sides of a world of a package with all that it includes are named, where its own and those that it includes are plain.
pub fn law_joined_sides_are_named()
    ensures { JoinedSidesAreNamed }
{}

/// What stays of a world whose sides are named, without what it includes, has named sides, and names to which others are changed without marks.
pub fn law_moved_worlds_are_named()
    ensures { MovedWorldsAreNamed }
{}

/// All that a world imports in the end is named, where what it imports is.
pub fn law_elaborated_sides_are_named()
    ensures { ElaboratedSidesAreNamed }
{}
