//! Places that stand, and those that may come next.

ghost use Rattle.std.specs.Prelude.{◌≡◌, ℕ, ◌+◌, ◌<◌, ◌≤◌, true, false, [], length, slice_index, slice_set, IfOk, OnOk, IfSome, IfNone, MatchOption, replicate};
ghost use Rattle.wit_order.specs.Order.{Has};
ghost use Rattle.wit_order.specs.Places.{row, AreBelow, IsCircle};
ghost use Rattle.wit_order.specs.Sorter.{is_set, Settled, Settles, AreTurned, Takes, Ends};

use std::alloc::{AllocError, Global};
use std::collections::BTreeSet;

/// Which places stand, how far each row is looked at, and which places may come next.
#[derive(Drop)]
pub struct Sorter {
    placed: Vec<bool>,
    cursors: Vec<usize>,
    ready: BTreeSet<usize>,
}

/// A need that leads back to the place that has it.
#[derive(Clone, Copy)]
pub struct Circle {
    /// The place.
    pub from: usize,
    /// The need's place in its row.
    pub need: usize,
}

/// The first place of the row, from there on, whose flag isn't set.
fn first_unset(row: &[usize], flags: &[bool], from: usize) -> usize
    requires row { (j : ℕ) → Has row.now j → j < length flags.now }
    requires from { from ≤ length row.now }
    ensures from { from ≤ result }
    ensures within { result ≤ length row.now }
    ensures passed { (k : ℕ) → from ≤ k → k < result → is_set flags.now (slice_index row.now k) ≡ true }
    ensures stops { result < length row.now → is_set flags.now (slice_index row.now result) ≡ false }
{
    let mut at = from;
    while at < row.len() && flags[row[at]] {
        at += 1;
    }
    at
}

impl Sorter {
    /// Looks on in the row of a place, which may come next at its end.
    fn settle(&mut self, needs: &[Vec<usize>], place: usize) -> Result<(), AllocError>
        requires place { place < length needs.now }
        requires cursors { length self.old.cursors.items ≡ length needs.now }
        requires below { AreBelow needs.now (length self.old.placed.items) }
        requires upto { slice_index self.old.cursors.items place ≤ length (row needs.now place) }
        ensures { OnOk result (Settles needs.now place self.old self.new) }
    {
        let wanted = needs[place].as_slice();
        let cursor = first_unset(wanted, self.placed.as_slice(), self.cursors[place]);
        self.cursors[place] = cursor;
        if cursor == wanted.len() {
            self.ready.insert(place)?;
        }
        Ok(())
    }

    /// Takes a place: what needs it is looked at again.
    fn place(
        &mut self,
        needs: &[Vec<usize>],
        needed_by: &[Vec<usize>],
        place: usize,
    ) -> Result<(), AllocError>
        requires settled { Settled needs.now self.old (λ i. i ≡ place) }
        requires apart { Has self.old.ready.keys place → ⊥ }
        requires place { place < length needs.now }
        requires done { slice_index self.old.cursors.items place ≡ length (row needs.now place) }
        requires below { AreBelow needs.now (length needs.now) }
        requires turned { AreTurned needs.now needed_by.now }
        ensures settled { OnOk result (Settled needs.now self.new (λ _. ⊥)) }
        ensures flags { OnOk result (self.new.placed.items ≡ slice_set self.old.placed.items place true) }
    {
        self.placed[place] = true;
        let waiting = needed_by[place].as_slice();
        for other in waiting {
            self.settle(needs, *other)?;
        }
        Ok(())
    }

    /// Takes the least of the places that may come next.
    pub fn next(
        &mut self,
        needs: &[Vec<usize>],
        needed_by: &[Vec<usize>],
    ) -> Result<Option<usize>, AllocError>
        requires settled { Settled needs.now self.old (λ _. ⊥) }
        requires below { AreBelow needs.now (length needs.now) }
        requires turned { AreTurned needs.now needed_by.now }
        ensures { IfOk result (λ r. MatchOption r (Ends needs.now self.old self.new) (λ p. Takes needs.now p self.old self.new)) }
    {
        let Some(place) = self.ready.pop_first() else {
            return Ok(None);
        };
        self.place(needs, needed_by, place)?;
        Ok(Some(place))
    }

    /// Nothing stands yet, and each row without a need may come next.
    pub fn new(alloc: Global, needs: &[Vec<usize>]) -> Result<Sorter, AllocError>
        requires { AreBelow needs.now (length needs.now) }
        ensures settled { IfOk result (λ s. Settled needs.now s (λ _. ⊥)) }
        ensures flags { IfOk result (λ s. s.placed.items ≡ replicate (length needs.now) false) }
    {
        let mut sorter = Sorter {
            placed: vec![in alloc; false; needs.len()]?,
            cursors: vec![in alloc; 0; needs.len()]?,
            ready: BTreeSet::new(alloc),
        };
        for place in 0..needs.len() {
            sorter.settle(needs, place)?;
        }
        Ok(sorter)
    }

    /// The first place that doesn't stand.
    pub fn first_left(&self) -> Option<usize>
        ensures none { IfNone result ((i : ℕ) → i < length self.now.placed.items → is_set self.now.placed.items i ≡ true) }
        ensures some { IfSome result (λ i. (i < length self.now.placed.items) × (is_set self.now.placed.items i ≡ false)) }
    {
        for (place, flag) in self.placed.iter().enumerate() {
            if !*flag {
                return Some(place);
            }
        }
        None
    }

    /// A place that leads back to itself, with the need by which it does, found from one that waits: of each place that
    /// waits the need that it stands at is followed, until one comes again.
    pub fn on_circle(
        &self,
        alloc: Global,
        needs: &[Vec<usize>],
        start: usize,
    ) -> Result<Circle, AllocError>
        requires settled { Settled needs.now self.now (λ _. ⊥) }
        requires none { self.now.ready.keys ≡ [] }
        requires below { AreBelow needs.now (length needs.now) }
        requires start { start < length needs.now }
        requires unset { is_set self.now.placed.items start ≡ false }
        ensures { IfOk result (λ c. IsCircle needs.now c.from c.need) }
    {
        let mut seen = vec![in alloc; false; needs.len()]?;
        let mut at = start;
        while !seen[at] {
            seen[at] = true;
            at = needs[at][self.cursors[at]];
        }
        Ok(Circle {
            from: at,
            need: self.cursors[at],
        })
    }
}
