//! What interfaces depend on.

ghost use Rattle.std.specs.Prelude.{◌≡◌, ◌<◌, ◌⊎◌, ◌↔◌, ◌++◌, ◌∷◌, [], ℕ, List, Some, length, slice_get, take, ◌≤◌, IfOk, OnOk, OnErr};
ghost use Rattle.wit_order.specs.Order.{Has};
ghost use Rattle.wit_order.specs.Places.{Needs};
ghost use Rattle.wit_reach.specs.Paths.{AreBackward, AreRising};
ghost use Rattle.wit_closures.specs.Closures as spec;

use crate::lists::Lists;
use std::alloc::{AllocError, Global};
use std::collections::BTreeSet;
use std::marker::Model;
use wit_types::InterfaceId;

/// For each interface, by its id, those on which it depends over any number of steps, and itself: each once, by rising ids. They are kept,
/// and one that uses another alone shares what is kept of that where it can.
#[derive(Drop)]
pub struct Closures {
    lists: Lists,
}

impl Model for Closures {
    ghost use Rattle.std.specs.Prelude.{List, ℕ};
    ghost use Rattle.wit_closures.specs.Closures.{AreClosed};

    ghost Value = { List (List ℕ) };

    ghost view = { λ c. c.lists };

    ghost invariant = { λ c. AreClosed c.lists };
}

/// Adds what a list has to a set.
fn add_list(set: &mut BTreeSet<usize>, list: &[InterfaceId]) -> Result<(), AllocError>
    ensures was { OnOk result ((j : ℕ) → Has set.old.keys j → Has set.new.keys j) }
    ensures new { OnOk result ((j : ℕ) → Has list.now j → Has set.new.keys j) }
    ensures only { OnOk result ((j : ℕ) → Has set.new.keys j → Has set.old.keys j ⊎ Has list.now j) }
{
    for id in list {
        set.insert(id.index())?;
    }
    Ok(())
}

/// Adds to a set all on which these depend, and themselves.
fn add_closures(
    set: &mut BTreeSet<usize>,
    lists: &Lists,
    deps: &[InterfaceId],
) -> Result<(), AllocError>
    requires { (d : ℕ) → Has deps.now d → d < length lists.now }
    ensures was { OnOk result ((j : ℕ) → Has set.old.keys j → Has set.new.keys j) }
    ensures new { OnOk result ((j : ℕ) → spec.IsBelow lists.now deps.now j → Has set.new.keys j) }
    ensures only { OnOk result ((j : ℕ) → Has set.new.keys j → Has set.old.keys j ⊎ spec.IsBelow lists.now deps.now j) }
{
    for dep in deps {
        add_list(set, lists.get(dep.index()))?;
    }
    Ok(())
}

/// What a set has, in rising order.
fn in_order(alloc: Global, set: BTreeSet<usize>) -> Result<Vec<InterfaceId>, AllocError>
    ensures rising { IfOk result (λ found. AreRising found.items) }
    ensures same { IfOk result (λ found. (j : ℕ) → Has found.items j ↔ Has set.keys j) }
{
    let mut left = set;
    let mut found = Vec::new(alloc);
    while let Some(index) = left.pop_first() {
        found.push(InterfaceId::from_index(index))?;
    }
    Ok(found)
}

/// All on which these depend, and themselves, in rising order.
fn below(alloc: Global, lists: &Lists, deps: &[InterfaceId]) -> Result<Vec<InterfaceId>, AllocError>
    requires { (d : ℕ) → Has deps.now d → d < length lists.now }
    ensures rising { IfOk result (λ found. AreRising found.items) }
    ensures same { IfOk result (λ found. (j : ℕ) → Has found.items j ↔ spec.IsBelow lists.now deps.now j) }
{
    let mut set = BTreeSet::new(alloc);
    add_closures(&mut set, lists, deps)?;
    in_order(alloc, set)
}

impl Closures {
    /// Of no interfaces.
    pub fn new(alloc: Global) -> Closures
        ensures { result ≡ [] }
    {
        Closures {
            lists: Lists::new(alloc),
        }
    }

    /// How many interfaces there are.
    pub fn len(&self) -> usize
        ensures { result ≡ length self.now }
    {
        self.lists.len()
    }

    /// All on which an interface depends, and itself: each once, dependencies first.
    pub fn get(&self, id: InterfaceId) -> &[InterfaceId]
        requires { id < length self.now }
        ensures there { slice_get self.now id ≡ Some result.now }
        ensures closed { spec.IsClosed id result.now }
    {
        self.lists.get(id.index())
    }

    /// Adds the next interface, which uses these alone, all of them there. Where memory is wanting nothing changes.
    pub fn push(&mut self, alloc: Global, deps: &[InterfaceId]) -> Result<(), AllocError>
        requires { (d : ℕ) → Has deps.now d → d < length self.old }
        ensures ok { OnOk result ((c : List ℕ) × spec.IsNext self.old deps.now c × (self.new ≡ self.old ++ c ∷ [])) }
        ensures err { OnErr result (self.new ≡ self.old) }
    {
        let id = InterfaceId::from_index(self.lists.len());
        if let [dep] = deps {
            return self.lists.push_more(dep.index(), id);
        }
        let found = below(alloc, &self.lists, deps)?;
        self.lists.push(found.as_slice(), id)
    }

    /// Adds the interfaces behind those that are there, each of which uses those of its row. Where memory is wanting, some of them may be
    /// there.
    pub fn extend(&mut self, alloc: Global, rows: &[Vec<InterfaceId>]) -> Result<(), AllocError>
        requires fewer { length self.old ≤ length rows.now }
        requires backward { AreBackward (Needs rows.now) }
        requires reached { spec.AreReached rows.now self.old }
        ensures all { OnOk result (length self.new ≡ length rows.now) }
        ensures reached { OnOk result (spec.AreReached rows.now self.new) }
        ensures grown { (more : List (List ℕ)) × (self.new ≡ self.old ++ more) }
    {
        while self.len() < rows.len() {
            self.push(alloc, rows[self.len()].as_slice())?;
        }
        Ok(())
    }

    /// Takes back the last interfaces, so that this many are left at most.
    pub fn truncate(&mut self, len: usize)
        ensures { self.new ≡ take len self.old }
    {
        self.lists.truncate(len);
    }
}
