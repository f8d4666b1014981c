//! Laws of the types that interfaces of resolved packages have.

ghost use Rattle.wit_well_formed.specs.Listed.{OwnTypesAreOwned, TypesAreListed};

/// Where files are resolved to a package, each type that belongs to an interface of it stands there.
pub fn law_types_are_listed()
    ensures { TypesAreListed }
{}

/// Where files are resolved to a package, none of its own types belongs to an interface of another.
pub fn law_own_types_are_owned()
    ensures { OwnTypesAreOwned }
{}
