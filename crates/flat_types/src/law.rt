//! Laws of the core types of types and functions.

ghost use Rattle.std.specs.Prelude.{List};
ghost use Rattle.wit_types.specs.declared.interface.TypeDef.{TypeDef};
ghost use Rattle.wit_arena.specs.Unfold.{Owners};
ghost use Rattle.flat_types.specs.Flats.{TypesAreFlat, FunctionsAreFlat};

/// What is known of the types of an arena, each by those before it and up to a cap, is what their trees have: the first core
/// types (Canonical ABI, Flattening), and whether they hold strings, and lists whose length isn't known.
pub fn law_types_are_flat()
    ensures { (owners : Owners) (a : List TypeDef) → TypesAreFlat owners a }
{}

/// What is known of the types of an arena gives the signature of each function over them, and what it asks for, as their trees
/// do (Canonical ABI, Flattening, canon lift and canon lower).
pub fn law_functions_are_flat()
    ensures { (owners : Owners) (a : List TypeDef) → FunctionsAreFlat owners a }
{}
