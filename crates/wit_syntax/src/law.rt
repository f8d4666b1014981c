//! Laws of the grammar of texts.

ghost use Rattle.std.specs.Prelude.{◌≡◌, ℕ, List};
ghost use Rattle.wit_productions.specs.Broken.{IsSyntaxFault};
ghost use Rattle.wit_syntax.specs.FileGrammar.{file};
ghost use Rattle.wit_productions.specs.NameGrammar.{whole_use_path};
ghost use Rattle.wit_productions.specs.WholeText.{IsUsePath, IsType};
ghost use Rattle.wit_syntax.specs.WholeText.{IsText};
ghost use Rattle.wit_syntax.specs.Ast.{FileTree};
ghost use Rattle.wit_productions.specs.NameTree.{UsePathTree};
ghost use Rattle.wit_productions.specs.TypeGrammar.{whole_type};
ghost use Rattle.wit_productions.specs.TypeTree.{TypeTree};

use wit_productions::SyntaxFault;

/// A text has one tree at most, and is one path and one type at most.
pub fn law_one_reading()
    ensures tree { (at : ℕ) (text : List ℕ) (d e : FileTree) → IsText at text d → IsText at text e → d ≡ e }
    ensures path { (text : List ℕ) (p q : UsePathTree) → IsUsePath text p → IsUsePath text q → p ≡ q }
    ensures ty { (text : List ℕ) (d e : TypeTree) → IsType text d → IsType text e → d ≡ e }
{}

/// Of a text of the grammar nothing but want of memory is a cause of a refusal.
pub fn law_a_fault_denies_a_tree()
    ensures tree { (at : ℕ) (text : List ℕ) (d : FileTree) → IsText at text d → (fault : SyntaxFault) → IsSyntaxFault file at text fault → fault ≡ SyntaxFault.OutOfMemory }
    ensures path { (text : List ℕ) (d : UsePathTree) → IsUsePath text d → (fault : SyntaxFault) → IsSyntaxFault whole_use_path 0 text fault → fault ≡ SyntaxFault.OutOfMemory }
    ensures ty { (text : List ℕ) (d : TypeTree) → IsType text d → (fault : SyntaxFault) → IsSyntaxFault whole_type 0 text fault → fault ≡ SyntaxFault.OutOfMemory }
{}
