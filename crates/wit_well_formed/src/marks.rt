//! Laws of names in packages of texts.

ghost use Rattle.wit_well_formed.specs.Marks.{MovedPackagesHavePlainNames, ParsedPackagesHavePlainNames, ParsedWorldsAreNamed};

/// Where texts are read to packages, the name of each, those of its own interfaces and the plain names of its worlds have no `:`, no `/` and
/// no `@`.
pub fn law_parsed_packages_have_plain_names()
    ensures { ParsedPackagesHavePlainNames }
{}

/// So it is still where each place of a package goes so many bytes further on.
pub fn law_moved_packages_have_plain_names()
    ensures { MovedPackagesHavePlainNames }
{}

/// Where texts are read to packages, plain names on each side of a world have no marks and differ, and functions have those under which they
/// stand.
pub fn law_parsed_worlds_are_named()
    ensures { ParsedWorldsAreNamed }
{}
