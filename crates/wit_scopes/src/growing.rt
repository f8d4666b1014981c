//! Vectors that grow by what costs much to let go.

ghost use Rattle.std.specs.Prelude.{◌≡◌, ◌++◌, ◌∷◌, [], OnOk, OnErr};

use std::alloc::AllocError;

/// Puts a value behind the others; where memory is wanting it is let go, and the others stay. Written once for all sorts of
/// values, since what lets them go is proved wherever it stands.
pub fn push_to<T: Drop>(found: &mut Vec<T>, value: T) -> Result<(), AllocError>
    ensures ok { OnOk result (found.new.items ≡ found.old.items ++ value ∷ []) }
    ensures err { OnErr result (found.new.items ≡ found.old.items) }
{
    found.push(value)?;
    Ok(())
}
