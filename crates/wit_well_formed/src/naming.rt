//! Laws of names of interfaces of resolved packages, and within these.

ghost use Rattle.wit_well_formed.specs.Naming.{InterfacesAreNamedApart, MovedInterfacesAreNamedApart, NamesAreApart};

/// Where files are resolved to a package, no two types of an interface have one name, no two of its functions, and no type has that of a
/// function.
pub fn law_names_are_apart()
    ensures { NamesAreApart }
{}

/// Where files are resolved to a package, no two interfaces of its own have one name.
pub fn law_interfaces_are_named_apart()
    ensures { InterfacesAreNamedApart }
{}

/// So it is still where each place of the package goes so many bytes further on.
pub fn law_moved_interfaces_are_named_apart()
    ensures { MovedInterfacesAreNamedApart }
{}
