//! Keys that stand again.

ghost use Rattle.std.specs.Prelude.{◌≡◌, IfOk, MatchOption};
ghost use Rattle.std.specs.List.{list_any};
ghost use Rattle.wit_rules.specs.Repeats.{AreDistinct, IsFirstRepeat};

use indexmap::IndexSet;
use std::alloc::{AllocError, Global};
use std::hash::Hash;

/// So many keys are compared with each other; more have a set.
const FEW: usize = 8;

/// Whether the key is one of these.
fn is_among<K: Eq>(keys: &[K], key: &K) -> bool
    ensures { result ≡ list_any (K.eq key.now) keys.now }
{
    for other in keys {
        if key == other {
            return true;
        }
    }
    false
}

/// As `first_repeat`, by comparing each key with all before it.
fn first_repeat_of_few<K: Eq>(keys: &[K]) -> Option<usize>
    ensures { MatchOption result (AreDistinct K.eq keys.now) (IsFirstRepeat K.eq keys.now) }
{
    for (place, key) in keys.iter().enumerate() {
        if is_among(&keys[..place], key) {
            return Some(place);
        }
    }
    None
}

/// The place of the first key that is one of those before it, if there is one.
pub fn first_repeat<K: Eq + Hash>(alloc: Global, keys: &[K]) -> Result<Option<usize>, AllocError>
    ensures { IfOk result (λ r. MatchOption r (AreDistinct K.eq keys.now) (IsFirstRepeat K.eq keys.now)) }
{
    if keys.len() <= FEW {
        return Ok(first_repeat_of_few(keys));
    }
    let mut seen: IndexSet<&K> = IndexSet::with_capacity(alloc, keys.len())?;
    for (place, key) in keys.iter().enumerate() {
        let (_, is_new) = seen.insert_full(key)?;
        if !is_new {
            return Ok(Some(place));
        }
    }
    Ok(None)
}
