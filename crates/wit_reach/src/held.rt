//! Laws of interfaces that hold their types.

ghost use Rattle.wit_reach.specs.Holding.{HeldAreInOrder, ListedTypesAreAll};

/// Where all types of interfaces stand in them and are made of theirs and of those of earlier ones, so are all types that belong to one.
pub fn law_listed_types_are_all()
    ensures { ListedTypesAreAll }
{}

/// Interfaces whose types are made of theirs and of those of earlier ones use types of those before them alone.
pub fn law_held_are_in_order()
    ensures { HeldAreInOrder }
{}
