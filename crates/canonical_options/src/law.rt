//! Laws of what types hold.

ghost use Rattle.std.specs.Prelude.{List};
ghost use Rattle.wit_types.specs.declared.interface.TypeDef.{TypeDef};
ghost use Rattle.flat_types.specs.Passed.wit_arena-Unfold.{Owners};
ghost use Rattle.canonical_options.specs.Contents.{ContentsAreThoseOfTrees};

/// What values of the types of an arena hold, and parameters of functions over them, is what the types' trees hold (Component
/// Model, Canonical ABI, Storing).
pub fn law_contents_are_those_of_trees()
    ensures { (owners : Owners) (a : List TypeDef) → ContentsAreThoseOfTrees owners a }
{}
