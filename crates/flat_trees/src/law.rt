//! Laws of core types by trees.

ghost use Rattle.flat_trees.specs.Law.{LinkedFunctionsUnfold, UnfoldedFunctionsAreFlat, WrittenTreesKeepCoreTypes};

/// Where types are made of earlier ones, each function that may be linked has a tree (WIT, Types; Component Model, Explainer, Type
/// Definitions).
pub fn law_linked_functions_unfold()
    ensures { LinkedFunctionsUnfold }
{}

/// Where types are made of earlier ones, what is known of the types of an arena one by one gives each function the core type, and the
/// options, that the tree of its type has (Component Model, Canonical ABI, Flattening, canon lift and canon lower).
pub fn law_unfolded_functions_are_flat()
    ensures { UnfoldedFunctionsAreFlat }
{}

/// The tree that is written for a type has the core type, and asks for the options, of the type's own (Component Model, Canonical ABI,
/// Flattening, canon lift and canon lower).
pub fn law_written_trees_keep_core_types()
    ensures { WrittenTreesKeepCoreTypes }
{}
