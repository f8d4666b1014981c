//! A law of the types that a graph's interfaces have when a package comes to it.

ghost use Rattle.wit_placed.specs.Listed.{MovedTypesAreListed};

/// Where each type that belongs to an interface of a package stands there, and each of a graph, so does each of all of them.
pub fn law_moved_types_are_listed()
    ensures { MovedTypesAreListed }
{}
