//! Laws of tokens.

ghost use Rattle.std.specs.Prelude.{◌≡◌, ℕ, List};
ghost use Rattle.std.specs.List.{AllByRecursion as Each};
ghost use Rattle.wit_tokens.specs.Cause.{IsBrokenText};
ghost use Rattle.wit_tokens.specs.Lexical.{LexesText};
ghost use Rattle.wit_tokens.specs.Stands.{IsInPlace};
ghost use Rattle.wit_words.specs.Token.{Tok};

use wit_words::{Rule, Span};

/// A text is one list of tokens at most.
pub fn law_one_list_of_tokens()
    ensures { (at : ℕ) (text : List ℕ) (ts us : List Tok) → LexesText at text ts → LexesText at text us → ts ≡ us }
{}

/// A text's tokens and their docs stand in it where their spans say.
pub fn law_tokens_are_slices()
    ensures { (at : ℕ) (text : List ℕ) (ts : List Tok) → LexesText at text ts → Each (IsInPlace at text) ts }
{}

/// A text that breaks S1, S2 or S4 breaks one of them at one place, and is no list of tokens.
pub fn law_a_break_is_one()
    ensures same { (at : ℕ) (text : List ℕ) (rule other : Rule) (place elsewhere : Span) → IsBrokenText at text rule place → IsBrokenText at text other elsewhere → (rule ≡ other) × (place ≡ elsewhere) }
    ensures none { (at : ℕ) (text : List ℕ) (rule : Rule) (place : Span) (ts : List Tok) → IsBrokenText at text rule place → LexesText at text ts → ⊥ }
{}
