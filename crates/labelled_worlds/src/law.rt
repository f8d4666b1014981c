//! Laws of worlds with which modules are linked.

ghost use Rattle.labelled_worlds.specs.Apart.{ExportedFunctionsAreApart, WorldsHavePartsApart};

/// Where labels within each type of a graph differ, and names of the parameters of each function, so they do in each linking of a module with a
/// world of the graph: of all types, and of functions that the module needs or the world exports (WIT, Items, Types; Component Model, Build
/// Targets).
pub fn law_worlds_have_parts_apart()
    ensures { WorldsHavePartsApart }
{}

/// Where functions of the worlds of a graph stand under their names, once on each side, no two functions that a world exports have one name
/// (WIT, Item: `world`).
pub fn law_exported_functions_are_apart()
    ensures { ExportedFunctionsAreApart }
{}
