//! What holds of every grammar.

ghost use Rattle.std.specs.Prelude.{◌≡◌, ℕ, ◌+◌, ◌-◌, ◌++◌, List, length, Ok};
ghost use Rattle.binary_grammar.specs.declared.fault.Fault.{Fault};
ghost use Rattle.binary_grammar.specs.declared.fault.Rule.TheVariants as rules;
ghost use Rattle.binary_grammar.specs.Cursor.{Cursor, offset};
ghost use Rattle.binary_grammar.specs.Syntax.{meaning, bytes, IsTyped, Meets};
ghost use Rattle.binary_grammar.specs.Place.{IsPlaced};

use crate::content::Content;
use crate::part::Part;

/// Bytes of a part, whatever stands behind them, are read as that part, so they have one value alone; so is what is written
/// of a value that is typed and meets the tests.
pub fn law_written_is_read<'a, T: Part<'a>>()
    ensures agree { (there : T.Known) (front : List ℕ) (x : T.Value) (rest : List ℕ) → (meaning T.syntax there).form front x → (meaning T.syntax there).read (front ++ rest) ≡ Ok (x, rest) }
    ensures again { (there : T.Known) (x : T.Value) (rest : List ℕ) → IsTyped T.syntax x → Meets T.syntax there x → (meaning T.syntax there).read (bytes T.syntax x ++ rest) ≡ Ok (x, rest) }
    ensures one { (there : T.Known) (front : List ℕ) (x y : T.Value) → (meaning T.syntax there).form front x → (meaning T.syntax there).form front y → x ≡ y }
{}

/// Bytes that break a rule break it at one place, and no part stands at their front.
pub fn law_a_break_is_one<'a, T: Part<'a>>()
    ensures one { (there : T.Known) (bytes : List ℕ) (d e : Fault) → (meaning T.syntax there).breaks bytes d → (meaning T.syntax there).breaks bytes e → d ≡ e }
    ensures none { (there : T.Known) (front : List ℕ) (rest : List ℕ) (x : T.Value) (e : Fault) → (meaning T.syntax there).form front x → (meaning T.syntax there).breaks (front ++ rest) e → ⊥ }
{}

/// A broken rule stays broken, at its place, whatever stands behind the bytes. The rule `Short` is left out, since more
/// bytes may mend it; what ends too soon inside of a size breaks `Size`.
pub fn law_a_break_stays<'a, T: Part<'a>>()
    ensures { (there : T.Known) (bytes : List ℕ) (e : Fault) (more : List ℕ) → (e.rule ≡ rules.Short → ⊥) → (meaning T.syntax there).breaks bytes e → (meaning T.syntax there).breaks (bytes ++ more) (record e { left = e.left + length more }) }
{}

/// What is read is the front of what was left, of the part's form, and the cursor moves on by as many bytes: the offset
/// behind is the offset before and the length of the front.
pub fn law_offset_is_the_front<'a, T: Part<'a>>()
    ensures { (there : T.Known) (old new : Cursor) (x : T.Value) → length old.left + offset old ≡ old.end → new.end ≡ old.end → (meaning T.syntax there).read old.left ≡ Ok (x, new.left) → IsPlaced (meaning T.syntax there).form old new x }
{}

/// All of some bytes that are this content are read as it, so they have one value alone; so is what is written of a value
/// that is typed and meets the tests.
pub fn law_content_written_is_read<'a, T: Content<'a>>()
    ensures agree { (there : T.Known) (all : List ℕ) (x : T.Value) → (meaning T.content there).form all x → (meaning T.content there).read all ≡ Ok x }
    ensures again { (there : T.Known) (x : T.Value) → IsTyped T.content x → Meets T.content there x → (meaning T.content there).read (bytes T.content x) ≡ Ok x }
    ensures one { (there : T.Known) (all : List ℕ) (x y : T.Value) → (meaning T.content there).form all x → (meaning T.content there).form all y → x ≡ y }
{}

/// Bytes that break a rule of a content break it at one place, and aren't that content.
pub fn law_a_content_break_is_one<'a, T: Content<'a>>()
    ensures one { (there : T.Known) (all : List ℕ) (d e : Fault) → (meaning T.content there).breaks all d → (meaning T.content there).breaks all e → d ≡ e }
    ensures none { (there : T.Known) (all : List ℕ) (x : T.Value) (e : Fault) → (meaning T.content there).form all x → (meaning T.content there).breaks all e → ⊥ }
{}

/// A broken rule of a content stays broken, at its place, whatever stands behind the bytes, unless it is `Short`.
pub fn law_a_content_break_stays<'a, T: Content<'a>>()
    ensures { (there : T.Known) (all : List ℕ) (e : Fault) (more : List ℕ) → (e.rule ≡ rules.Short → ⊥) → (meaning T.content there).breaks all e → (meaning T.content there).breaks (all ++ more) (record e { left = e.left + length more }) }
{}
