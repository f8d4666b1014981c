//! Laws of what types of resolved packages are made of.

ghost use Rattle.wit_well_formed.specs.Within.{MovedPackagesHaveNamesApart, NamelessTypesAreForms, NamesWithinAreApart};

/// Where files are resolved to a package, no two labels of a type of it are one, and no two parameters of a function have one name.
pub fn law_names_within_are_apart()
    ensures { NamesWithinAreApart }
{}

/// Where files are resolved to a package, a type of it without a name is a form that is made of other types, such as a list: no record, and no
/// other name of a type.
pub fn law_nameless_types_are_forms()
    ensures { NamelessTypesAreForms }
{}

/// Labels of types and names of parameters that differ in a package still do where each of its places goes so many bytes further on.
pub fn law_moved_packages_have_names_apart()
    ensures { MovedPackagesHaveNamesApart }
{}
