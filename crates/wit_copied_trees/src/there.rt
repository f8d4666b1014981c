//! Laws of where what comes with an included world stands.

ghost use Rattle.wit_copied_trees.specs.There.{IncludedTypesAreBackward, IncludedSidesAreThere};

/// Where types are made of earlier ones, so they are with those that come with an included world behind them, one for each of that
/// world's.
pub fn law_included_types_are_backward()
    ensures { IncludedTypesAreBackward }
{}

/// What a side of an included world brings is made of types that are there, if that side was.
pub fn law_included_sides_are_there()
    ensures { IncludedSidesAreThere }
{}
