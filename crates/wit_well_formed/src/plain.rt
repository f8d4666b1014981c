//! Laws of plain names in worlds of resolved packages.

ghost use Rattle.wit_well_formed.specs.Plain.{MovedWorldsAreUnderTheirNames, MovedWorldsHaveOwnTypes, WorldsAreUnderTheirNames, WorldsHaveOwnTypes};

/// Where files are resolved to a package, no two imports and no two exports of a world of it have one plain name, and functions and types stand
/// under their names.
pub fn law_worlds_are_under_their_names()
    ensures { WorldsAreUnderTheirNames }
{}

/// So it is still where each place of the package goes so many bytes further on.
pub fn law_moved_worlds_are_under_their_names()
    ensures { MovedWorldsAreUnderTheirNames }
{}

/// Where files are resolved to a package, types that stand in a world of it belong to the world, and stand under their names.
pub fn law_worlds_have_own_types()
    ensures { WorldsHaveOwnTypes }
{}

/// So it is still where each place of the package goes so many bytes further on.
pub fn law_moved_worlds_have_own_types()
    ensures { MovedWorldsHaveOwnTypes }
{}
