//! Name keys: what tells the names of one scope apart.

ghost use Rattle.std.specs.Prelude.{◌≡◌, ◌≢◌, ℕ, List, ◌↔◌, ◌++◌, ◌∷◌, ◌<◌, ◌≤◌, true, length, slice_index, fold, bytes_eq, codes, IsTrue};
ghost use Rattle.std.specs.Cmp.{partial_equiv_from_equiv};
ghost use Rattle.std.proofs.lemmas.Cmp.{nat_list_eq_equiv};
ghost use Rattle.std.specs.Cmp.Rules.{hashing};
ghost use Rattle.std.proofs.Common.{rules};
ghost use Rattle.std.specs.Hash as fed;
ghost use Rattle.wit_words.specs.NameKey as spec;
ghost use Rattle.wit_words.specs.Identifier.{IsIdentifier};
ghost use Rattle.wit_words.specs.NameKey.{folded, name_key, IsNameKey, HasNoMark};

use std::alloc::AllocError;
use std::hash::{Hash, Hasher};
use std::marker::Model;

/// What tells the names of one scope apart: two of them are too alike where their keys are equal (Component Model, Name
/// Uniqueness). The key is the name without a `[method]` or `[static]` in front, whatever the case of its ASCII letters,
/// and `l` where that is `l.l`. A `[constructor]` in front stays. No memory is taken, nor by a clone: the key is a slice of
/// the name. It isn't `Copy`, which the toolchain has for no type with a model and a lifetime.
#[derive(Debug, Drop)]
pub struct NameKey<'a> {
    /// The key, but for the case of its letters.
    spelling: &'a str,
}

impl<'a> Model for NameKey<'a> {
    ghost use Rattle.std.specs.Prelude.{ℕ, List};
    ghost use Rattle.wit_words.specs.NameKey.{folded};

    ghost Value = { List ℕ };

    ghost view = { λ k. folded k.spelling.now };
}

impl<'a> NameKey<'a> {
    /// The key of a name.
    pub fn of(name: &'a str) -> NameKey<'a>
        ensures { result ≡ name_key name.now }
    {
        NameKey {
            spelling: halved(unmarked(name)),
        }
    }
}

impl Clone for NameKey<'_> {
    ghost is_clone = { λ x y. y ≡ x };

    ghost is_infallible = { λ _. Unit {0} };

    fn clone(&self) -> Result<Self, AllocError> {
        Ok(NameKey {
            spelling: self.spelling,
        })
    }
}

impl PartialEq for NameKey<'_> {
    ghost eq = { bytes_eq };

    ghost laws = { partial_equiv_from_equiv nat_list_eq_equiv };

    fn eq(&self, other: &NameKey) -> bool {
        self.spelling.eq_ignore_ascii_case(other.spelling)
    }
}

impl Eq for NameKey<'_> {
    ghost laws = { nat_list_eq_equiv };
}

impl Hash for NameKey<'_> {
    ghost hash_input = { fed.slice fed.u8 };

    ghost respects_eq = { Prim.search (hashing, rules) };

    fn hash<H: Hasher>(&self, state: &mut H) {
        hash_folded(self.spelling.as_bytes(), state);
    }
}

/// Feeds a hasher some text with small ASCII letters in place of capital ones.
fn hash_folded<H: Hasher>(text: &[u8], state: &mut H)
    ensures { state.new ≡ fold H.write state.old (fed.slice fed.u8 (folded text.now)) }
{
    state.write_usize(text.len());
    for byte in text {
        state.write_u8(byte.to_ascii_lowercase());
    }
}

/// A name without a `[method]` or `[static]` in front, in letters of any case.
fn unmarked(name: &str) -> &str
    ensures { folded result.now ≡ spec.unmarked (folded name.entry.now) }
{
    match name.as_bytes().split_at_checked(8) {
        Some((mark, _)) if is_mark(mark) => &name[8..],
        _ => name,
    }
}

/// Whether a text is `[method]` or `[static]`, in letters of any case.
fn is_mark(text: &[u8]) -> bool
    ensures { result ≡ spec.is_mark (folded text.now) }
{
    text.eq_ignore_ascii_case(b"[method]") || text.eq_ignore_ascii_case(b"[static]")
}

/// `l` of `l.l`, the halves alike but for the case of their letters; any other name as it is.
fn halved(name: &str) -> &str
    ensures { folded result.now ≡ spec.halved (folded name.entry.now) }
{
    let half = name.len() / 2;
    if is_twice(name.as_bytes(), half) {
        &name[..half]
    } else {
        name
    }
}

/// Whether a dot stands behind so many bytes, and then they again, in letters of any case.
#[tactic(auto, using(crate::proofs::NameKeys::twice_by_parts))]
fn is_twice(name: &[u8], half: usize) -> bool
    requires { half ≤ length name.now }
    ensures value { result ≡ spec.is_twice half (folded name.now) }
    ensures dot { result ≡ true → (half < length name.now) × (slice_index name.now half ≡ 46) }
{
    let (front, behind) = name.split_at(half);
    let Some((dot, back)) = behind.split_first() else {
        return false;
    };
    half > 0 && *dot == b'.' && back.eq_ignore_ascii_case(front)
}

/// What name keys are, and that they tell names apart as the rules for names do: by their letters in either case, and
/// with no regard to a `[method]` or `[static]` in front or to a name that stands twice, but by a `[constructor]`.
pub fn law_name_keys_fold_as_names_do()
    ensures meaning { (name key : List ℕ) → IsNameKey name key ↔ (key ≡ name_key name) }
    ensures equal { (a b : List ℕ) → IsTrue (bytes_eq (name_key a) (name_key b)) ↔ (name_key a ≡ name_key b) }
    ensures case { (a b : List ℕ) → folded a ≡ folded b → name_key a ≡ name_key b }
    ensures identifier { (l : List ℕ) → IsIdentifier l → name_key l ≡ folded l }
    ensures twice { (l : List ℕ) → IsIdentifier l → name_key (l ++ 46 ∷ l) ≡ name_key l }
    ensures method { (n : List ℕ) → HasNoMark (folded n) → name_key (codes "[method]" ++ n) ≡ name_key n }
    ensures static_function { (n : List ℕ) → HasNoMark (folded n) → name_key (codes "[static]" ++ n) ≡ name_key n }
    ensures constructor { (n l : List ℕ) → IsIdentifier l → name_key (codes "[constructor]" ++ n) ≢ name_key l }
{}
