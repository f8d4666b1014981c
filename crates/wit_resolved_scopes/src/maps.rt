//! Maps of what has keys of its own.

ghost use Rattle.std.specs.Prelude.{◌≡◌, ℕ, Some, true, slice_get, IfOk};

use indexmap::IndexMap;
use std::alloc::{AllocError, Global};
use std::hash::Hash;

/// A map of pairs, in their order, of which no two have one key.
pub fn keyed<K: Eq + Hash + Drop, V: Drop>(
    alloc: Global,
    pairs: Vec<(K, V)>,
) -> Result<IndexMap<K, V>, AllocError>
    requires { (i j : ℕ) (p q : K × V) → slice_get pairs.items i ≡ Some p → slice_get pairs.items j ≡ Some q → K.eq p.0 q.0 ≡ true → i ≡ j }
    ensures { IfOk result (λ m. m.entries ≡ pairs.items) }
{
    let mut found = IndexMap::with_capacity(alloc, pairs.len())?;
    for (key, value) in pairs {
        found.insert(key, value)?;
    }
    Ok(found)
}
