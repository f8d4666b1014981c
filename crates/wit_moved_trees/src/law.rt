//! Laws of what is moved.

ghost use Rattle.wit_moved_trees.specs.Law.{MovedTypesStandForTheSame, MovedNamesStandForTheSame, MovedFunctionsStandForTheSame};

/// Where the types of a package are whole, whatever is given for names of other packages, and those of other packages that have a
/// place in a graph stand there for that, its own types that stay, put behind those of the graph, keep the graph whole and stand in
/// it for the same trees.
pub fn law_moved_types_stand_for_the_same()
    ensures { MovedTypesStandForTheSame }
{}

/// Where types stand for the same in two arenas, so do the names of an interface that is moved from one to the other: each name that
/// it has there was a name of it, and what it stood for the name stands for.
pub fn law_moved_names_stand_for_the_same()
    ensures { MovedNamesStandForTheSame }
{}

/// Where types stand for the same in two arenas, so do the parameters and the result of a function that is moved from one to the
/// other, of which all types have a place, and it takes them under the same names.
pub fn law_moved_functions_stand_for_the_same()
    ensures { MovedFunctionsStandForTheSame }
{}
