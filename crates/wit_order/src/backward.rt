//! Places whose needs all stand before them, as in most texts.

ghost use Rattle.std.specs.Prelude.{◌≡◌, ℕ, ◌<◌, ◌≤◌, true, false, IfOk};
ghost use Rattle.std.specs.List.{range_with_len};
ghost use Rattle.wit_order.specs.Order.{Has};
ghost use Rattle.wit_order.specs.Places.{NeedEarlier};

use std::alloc::{AllocError, Global};

/// Whether each place of a row is below this one.
fn are_below(row: &[usize], place: usize) -> bool
    ensures yes { result ≡ true → (j : ℕ) → Has row.now j → j < place }
    ensures no { result ≡ false → (j : ℕ) × Has row.now j × (place ≤ j) }
{
    for other in row {
        if *other >= place {
            return false;
        }
    }
    true
}

/// Whether each place needs places before it alone.
pub fn need_earlier(needs: &[Vec<usize>]) -> bool
    ensures yes { result ≡ true → NeedEarlier needs.now }
    ensures no { result ≡ false → NeedEarlier needs.now → ⊥ }
{
    for (place, wanted) in needs.iter().enumerate() {
        if !are_below(wanted.as_slice(), place) {
            return false;
        }
    }
    true
}

/// So many places, each behind the one before it.
pub fn in_turn(alloc: Global, count: usize) -> Result<Vec<usize>, AllocError>
    ensures { IfOk result (λ order. order.items ≡ range_with_len 0 count) }
{
    let mut order = Vec::with_capacity(alloc, count)?;
    for place in 0..count {
        order.push(place)?;
    }
    Ok(order)
}
