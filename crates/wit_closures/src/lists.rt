//! Lists that are parts of one.

ghost use Rattle.std.specs.Prelude.{◌≡◌, ◌<◌, ◌++◌, ◌∷◌, [], ℕ, List, Some, length, slice_get, get_or, take, OnOk, OnErr};
ghost use Rattle.wit_closures.specs.Lists as spec;

use std::alloc::{AllocError, Global};
use std::marker::Model;
use wit_types::InterfaceId;

/// From a place of a list on, to that before another.
#[derive(Clone, Copy)]
pub struct Range {
    /// The first place.
    pub start: usize,
    /// The place behind the last.
    pub end: usize,
}

/// A part of a list.
fn part(items: &[InterfaceId], range: Range) -> &[InterfaceId]
    requires { spec.IsWithin (length items.now) range }
    ensures { result.now ≡ spec.part items.now range }
{
    &items[range.start..range.end]
}

/// Puts items behind others. Where memory is wanting, some of them may be there.
fn append(items: &mut Vec<InterfaceId>, more: &[InterfaceId]) -> Result<(), AllocError>
    ensures ok { OnOk result (items.new.items ≡ items.old.items ++ more.now) }
    ensures grown { (new : List ℕ) × (items.new.items ≡ items.old.items ++ new) }
{
    for item in more {
        items.push(*item)?;
    }
    Ok(())
}

/// Puts a part of a list behind it once more. Where memory is wanting, nothing changes.
fn repeat(items: &mut Vec<InterfaceId>, range: Range) -> Result<(), AllocError>
    requires { spec.IsWithin (length items.old.items) range }
    ensures ok { OnOk result (items.new.items ≡ items.old.items ++ spec.part items.old.items range) }
    ensures err { OnErr result (items.new.items ≡ items.old.items) }
{
    items.extend_from_within(range.start..range.end)
}

/// Lists of interfaces; one that goes on where another ends shares what that holds.
#[derive(Drop)]
pub struct Lists {
    items: Vec<InterfaceId>,
    ranges: Vec<Range>,
}

impl Model for Lists {
    ghost use Rattle.std.specs.Prelude.{List, ℕ, length};
    ghost use Rattle.wit_closures.specs.Lists.{parts, AreWithin};

    ghost Value = { List (List ℕ) };

    ghost view = { λ l. parts l.items.items l.ranges.items };

    ghost invariant = { λ l. AreWithin (length l.items.items) l.ranges.items };
}

impl Lists {
    /// No lists.
    pub fn new(alloc: Global) -> Lists
        ensures { result ≡ [] }
    {
        Lists {
            items: Vec::new(alloc),
            ranges: Vec::new(alloc),
        }
    }

    /// How many lists there are.
    pub fn len(&self) -> usize
        ensures { result ≡ length self.now }
    {
        self.ranges.len()
    }

    /// The list of a number.
    pub fn get(&self, index: usize) -> &[InterfaceId]
        requires { index < length self.now }
        ensures { slice_get self.now index ≡ Some result.now }
    {
        part(self.items.as_slice(), self.ranges[index])
    }

    /// Takes back the last lists, so that this many are left at most. What they alone held stays in the buffer.
    pub fn truncate(&mut self, len: usize)
        ensures { self.new ≡ take len self.old }
    {
        self.ranges.truncate(len);
    }

    /// Adds a list, and an item behind it. Where memory is wanting nothing changes.
    pub fn push(&mut self, list: &[InterfaceId], last: InterfaceId) -> Result<(), AllocError>
        ensures ok { OnOk result (self.new ≡ self.old ++ (list.now ++ last ∷ []) ∷ []) }
        ensures err { OnErr result (self.new ≡ self.old) }
    {
        let start = self.items.len();
        append(&mut self.items, list)?;
        self.items.push(last)?;
        let end = self.items.len();
        self.ranges.push(Range { start, end })?;
        Ok(())
    }

    /// Adds a list that is there, and an item behind it. Where memory is wanting nothing changes.
    pub fn push_more(&mut self, index: usize, last: InterfaceId) -> Result<(), AllocError>
        requires { index < length self.old }
        ensures ok { OnOk result ((list : List ℕ) × (slice_get self.old index ≡ Some list) × (self.new ≡ self.old ++ (list ++ last ∷ []) ∷ [])) }
        ensures err { OnErr result (self.new ≡ self.old) }
    {
        let range = self.ranges[index];
        if range.end == self.items.len() {
            self.items.push(last)?;
            let end = self.items.len();
            self.ranges.push(Range {
                start: range.start,
                end,
            })?;
            return Ok(());
        }
        let start = self.items.len();
        repeat(&mut self.items, range)?;
        self.items.push(last)?;
        let end = self.items.len();
        self.ranges.push(Range { start, end })?;
        Ok(())
    }
}
