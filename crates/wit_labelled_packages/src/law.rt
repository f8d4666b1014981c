//! Laws of names within packages of texts.

ghost use Rattle.wit_labelled_packages.specs.Texts.{ExportedFunctionsAreUnderNames, MovedPackagesHaveNamedWorlds, ParsedPackagesHaveNamedWorlds, ParsedPackagesHaveNamesApart};

use wit_well_formed::{law_names_within_are_apart, law_parsed_worlds_are_named};

/// Where texts are read to packages, labels within each type of each package differ, and names of the parameters of each function (WIT, Items,
/// Types).
pub fn law_parsed_packages_have_names_apart()
    ensures { ParsedPackagesHaveNamesApart }
{
    law_names_within_are_apart();
}

/// Where files are resolved to a package, a world of it exports no function under the key of an interface (WIT, Item: `world`).
pub fn law_exported_functions_are_under_names()
    ensures { ExportedFunctionsAreUnderNames }
{}

/// Where texts are read to packages, functions of worlds stand under their names, which have no marks, once on each side (WIT, Item: `world`).
pub fn law_parsed_packages_have_named_worlds()
    ensures { ParsedPackagesHaveNamedWorlds }
{
    law_parsed_worlds_are_named();
    law_exported_functions_are_under_names();
}

/// So they do still where each place of a package goes so many bytes further on.
pub fn law_moved_packages_have_named_worlds()
    ensures { MovedPackagesHaveNamedWorlds }
{}
