//! Laws of what comes with an included world.

ghost use Rattle.wit_copied_trees.specs.Law.{WholeArenasAreBackward, IncludedTypesStandForTheSame, IncludedFunctionsStandForTheSame};

/// Where each type of an arena has a tree, types are made of earlier ones alone.
pub fn law_whole_arenas_are_backward()
    ensures { WholeArenasAreBackward }
{}

/// Where the types of a graph are whole, so they are with the copies that come with an included world behind them; and each copy
/// stands for what the type stood for, but that what belonged to the included world belongs to the including one, under its changed
/// name. What is reached by the name of an interface stays as it is.
pub fn law_included_types_stand_for_the_same()
    ensures { IncludedTypesStandForTheSame }
{}

/// So do the parameters and the result of a function that comes with an included world, and it takes them under the same names.
pub fn law_included_functions_stand_for_the_same()
    ensures { IncludedFunctionsStandForTheSame }
{}
