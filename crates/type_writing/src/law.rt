//! Laws of what is written.

ghost use Rattle.type_writing.specs.Texts.{WrittenTypesAreTheTexts};

/// Where a type of an arena unfolds to a tree, names have the labels that the texts say, and none stands right over itself, the tree that
/// is written for it is the one that the texts give the type, as the outside sees it (WIT, Types, Use; Component Model, Explainer, Import
/// and Export Definitions).
pub fn law_written_types_are_the_texts()
    ensures { WrittenTypesAreTheTexts }
{}
