//! A law of right components.

ghost use Rattle.right_components.specs.Right.{GivenAreAsMany};

/// Where what a module is given for its core imports ends as the entries of the link table say, one item is given for each of them
/// (Component Model, Explainer, Core Definitions).
pub fn law_given_are_as_many()
    ensures { GivenAreAsMany }
{}
