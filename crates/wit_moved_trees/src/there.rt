//! A law of where what is moved stands.

ghost use Rattle.wit_moved_trees.specs.There.{MovedTypesAreBackward};

/// Where the types of a graph are made of earlier ones, and those that a package asks of others stand there, so they are with the
/// package's own that stay behind them, and all that have a place stand among these.
pub fn law_moved_types_are_backward()
    ensures { MovedTypesAreBackward }
{}
