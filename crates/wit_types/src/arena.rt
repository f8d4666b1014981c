//! Values under ids.

ghost use Rattle.std.specs.Prelude.{◌≡◌, ◌<◌, ◌++◌, [], ◌∷◌, Some, length, take, IfOk, OnErr, slice_get};
ghost use Rattle.std.specs.Slice.Iter.{iter_rest};

use crate::id::Id;
use std::alloc::{AllocError, Global};
use std::marker::Model;
use std::slice;

/// What stands under ids of its own sort.
pub trait Stored {
    /// Says what sort that is.
    type Tag;
}

/// Values under ids, which are their places: what is put in stays under its id, unless all from some id on is taken back.
#[derive(Drop)]
pub struct Arena<T> {
    items: Vec<T>,
}

impl<T> Model for Arena<T> {
    ghost use Rattle.std.specs.Prelude.{List};

    ghost Value = { List T };

    ghost view = { λ a. a.items.items };
}

impl<T: Stored> Arena<T> {
    /// No values.
    pub fn new(alloc: Global) -> Arena<T>
        ensures { result ≡ [] }
    {
        Arena {
            items: Vec::new(alloc),
        }
    }

    /// The values of a list, each under the id of its place.
    pub fn from_items(items: Vec<T>) -> Arena<T>
        ensures { result ≡ items.items }
    {
        Arena { items }
    }

    /// Puts a value behind the others, and answers its id. Where memory is wanting nothing changes, and the value is
    /// dropped.
    pub fn alloc(&mut self, value: T) -> Result<Id<T::Tag>, AllocError>
    where
        T: Drop,
        ensures ok { IfOk result (λ i. (i ≡ length self.old) × (self.new ≡ self.old ++ value ∷ [])) }
        ensures err { OnErr result (self.new ≡ self.old) }
    {
        let index = self.items.len();
        self.items.push(value)?;
        Ok(Id::from_index(index))
    }

    /// Makes room for so many more values.
    pub fn reserve(&mut self, additional: usize) -> Result<(), AllocError>
        ensures { self.new ≡ self.old }
    {
        self.items.reserve(additional)
    }

    /// The value under an id.
    pub fn get(&self, id: Id<T::Tag>) -> &T
        requires { id < length self.now }
        ensures { slice_get self.now id ≡ Some result.now }
    {
        &self.items[id.index()]
    }

    /// How many values there are: each id below that number has one.
    pub fn len(&self) -> usize
        ensures { result ≡ length self.now }
    {
        self.items.len()
    }

    /// Takes back the last values, so that this many are left at most.
    pub fn truncate(&mut self, len: usize)
    where
        T: Drop,
        ensures { self.new ≡ take len self.old }
    {
        self.items.truncate(len);
    }

    /// The values as a list, by rising ids.
    pub fn into_items(self) -> Vec<T>
        ensures { result.items ≡ self }
    {
        self.items
    }

    /// The values, by rising ids.
    pub fn iter(&self) -> slice::Iter<'_, T>
        ensures { iter_rest result ≡ self.now }
    {
        self.items.iter()
    }
}
