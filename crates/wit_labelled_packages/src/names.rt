//! Laws of names of packages of texts.

ghost use Rattle.wit_labelled_packages.specs.Names.{MovedNamesReadBack, ParsedNamesReadBack};

use wit_well_formed::law_parsed_packages_have_plain_names;

/// Where texts are read to packages, the parts of the name of each have no `:`, no `/` and no `@`, and the text of its version is read as that
/// version (WIT, Package Names).
pub fn law_parsed_names_read_back()
    ensures { ParsedNamesReadBack }
{
    law_parsed_packages_have_plain_names();
}

/// So it is still where each place of a package goes so many bytes further on.
pub fn law_moved_names_read_back()
    ensures { MovedNamesReadBack }
{}
