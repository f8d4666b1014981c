//! The least order of places, dependencies first.

ghost use Rattle.std.specs.Prelude.{◌≡◌, ℕ, ◌<◌, ◌⊎◌, length, IfOk, IfErr, OnOk};
ghost use Rattle.wit_order.specs.Order.{Has};
ghost use Rattle.wit_order.specs.Places.{row, AreBelow, IsPlaceCause, IsSorted};
ghost use Rattle.wit_order.specs.Sorter.{AreTurned};

use crate::backward::{in_turn, need_earlier};
use crate::sorter::{Circle, Sorter};
use std::alloc::{AllocError, AllocFailed, Global};

/// Why there is no order.
#[derive(Drop)]
pub enum PlaceFault {
    /// A need leads back to the place that has it.
    Circle(Circle),
    /// A request for memory was refused.
    OutOfMemory,
}

impl From<AllocError> for PlaceFault {
    ghost use Rattle.wit_order.specs.declared.places.PlaceFault.TheVariants.{OutOfMemory};

    ghost from_gives = { λ _ e. e ≡ OutOfMemory };

    fn from(_cause: AllocError) -> PlaceFault {
        PlaceFault::OutOfMemory
    }
}

impl<T: Drop> From<AllocFailed<T>> for PlaceFault {
    ghost use Rattle.wit_order.specs.declared.places.PlaceFault.TheVariants.{OutOfMemory};

    ghost from_gives = { λ _ e. e ≡ OutOfMemory };

    fn from(_cause: AllocFailed<T>) -> PlaceFault {
        PlaceFault::OutOfMemory
    }
}

/// Adds a place to the rows of all that it needs.
fn add_to(turned: &mut Vec<Vec<usize>>, wanted: &[usize], place: usize) -> Result<(), AllocError>
    requires { (j : ℕ) → Has wanted.now j → j < length turned.old.items }
    ensures all { OnOk result ((j : ℕ) → Has wanted.now j → Has (row turned.new.items j) place) }
    ensures size { OnOk result (length turned.new.items ≡ length turned.old.items) }
    ensures kept { OnOk result ((i j : ℕ) → Has (row turned.old.items j) i → Has (row turned.new.items j) i) }
    ensures only { OnOk result ((i j : ℕ) → Has (row turned.new.items j) i → Has (row turned.old.items j) i ⊎ ((i ≡ place) × Has wanted.now j)) }
{
    for other in wanted {
        turned[*other].push(place)?;
    }
    Ok(())
}

/// For each place the places that need it.
fn turned(alloc: Global, needs: &[Vec<usize>]) -> Result<Vec<Vec<usize>>, AllocError>
    requires { AreBelow needs.now (length needs.now) }
    ensures { IfOk result (λ t. AreTurned needs.now t.items) }
{
    let mut turned = Vec::new(alloc);
    for _row in needs {
        turned.push(Vec::new(alloc))?;
    }
    for (place, wanted) in needs.iter().enumerate() {
        add_to(&mut turned, wanted.as_slice(), place)?;
    }
    Ok(turned)
}

/// The least order of the places, dependencies first, or a need that leads back to the place that has it.
pub fn least_order(alloc: Global, needs: &[Vec<usize>]) -> Result<Vec<usize>, PlaceFault>
    requires { AreBelow needs.now (length needs.now) }
    ensures ok { IfOk result (λ order. IsSorted needs.now order.items) }
    ensures cause { IfErr result (IsPlaceCause needs.now) }
{
    if need_earlier(needs) {
        return Ok(in_turn(alloc, needs.len())?);
    }
    let needed_by = turned(alloc, needs)?;
    let mut sorter = Sorter::new(alloc, needs)?;
    let mut order = Vec::new(alloc);
    while let Some(place) = sorter.next(needs, needed_by.as_slice())? {
        order.push(place)?;
    }
    match sorter.first_left() {
        None => Ok(order),
        Some(start) => Err(PlaceFault::Circle(sorter.on_circle(alloc, needs, start)?)),
    }
}
