//! Laws of what the indices of a component stand for.

ghost use Rattle.component_meaning.specs.Spaces.{EarlierIndicesStay};

/// What an index of a component stands for stays, whatever definitions follow (Component Model, Explainer, Index Spaces).
pub fn law_earlier_indices_stay()
    ensures { EarlierIndicesStay }
{}
