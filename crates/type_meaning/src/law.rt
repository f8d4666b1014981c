//! Laws of trees.

ghost use Rattle.std.specs.Bool.{Decides};
ghost use Rattle.std.specs.Prelude.{◌≡◌};
ghost use Rattle.type_meaning.specs.Tree.{same_tree};
ghost use Rattle.type_meaning.specs.Words.{BinaryTree, NamedTree, same_label, same_resource};

/// Equal trees are told from others, those of the bytes and those with the names of resources.
pub fn law_equal_trees_are_told()
    ensures bytes { (t u : BinaryTree) → Decides (same_tree same_label same_resource t u) (t ≡ u) }
    ensures names { (t u : NamedTree) → Decides (same_tree same_label same_label t u) (t ≡ u) }
{}
