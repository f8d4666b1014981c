//! Types under the names of a scope.

ghost use Rattle.std.specs.Prelude.{◌≡◌, ℕ, ◌<◌, ◌∷◌, ◌++◌, [], Some, length, slice_get, IfOk, OnErr, OnOk, IfSome, IfNone};
ghost use Rattle.wit_arena.specs.Meaning.{Has};

use name_places::FirstPlaces;
use smallvec::SmallVec;
use std::alloc::{AllocError, Global};
use std::marker::Model;
use wit_types::TypeId;

/// A type under its name.
#[derive(Default, Drop)]
struct Entry<'a> {
    name: &'a str,
    index: usize,
}

/// Types under the names of a scope, in the order in which they came.
#[derive(Drop)]
pub struct Table<'a> {
    names: FirstPlaces<'a>,
    entries: SmallVec<Entry<'a>, 4>,
}

impl<'a> Model for Table<'a> {
    ghost use Rattle.std.specs.Prelude.{◌≡◌, List, ℕ};
    ghost use Rattle.wit_arena.specs.Table.{entries_of, names_of};

    ghost Value = { List (List ℕ × ℕ) };

    ghost view = { λ t. entries_of t.entries.items };

    ghost invariant = { λ t. t.names ≡ names_of (entries_of t.entries.items) };
}

impl<'a> Table<'a> {
    /// Nothing under any name, with room for so many names.
    pub fn with_capacity(alloc: Global, capacity: usize) -> Result<Table<'a>, AllocError>
        ensures { IfOk result (λ t. t ≡ []) }
    {
        Ok(Table {
            names: FirstPlaces::with_capacity(alloc, capacity)?,
            entries: SmallVec::with_capacity(alloc, capacity)?,
        })
    }

    /// What stands under a name.
    pub fn get(&self, name: &str) -> Option<TypeId>
        ensures some { IfSome result (λ i. Has self.now (name.now, i)) }
        ensures none { IfNone result ((i : ℕ) → Has self.now (name.now, i) → ⊥) }
    {
        let place = self.names.first(name)?;
        let (_, id) = self.entry(place);
        Some(id)
    }

    /// Puts a type under a name that isn't there; it goes last. Where memory is wanting nothing changes.
    pub fn add(&mut self, name: &'a str, id: TypeId) -> Result<(), AllocError>
        requires { (i : ℕ) → Has self.old (name.now, i) → ⊥ }
        ensures ok { OnOk result (self.new ≡ self.old ++ (name.entry.now, id) ∷ []) }
        ensures err { OnErr result (self.new ≡ self.old) }
    {
        let index = id.index();
        self.entries.reserve(1)?;
        self.names.push(name)?;
        self.entries.push_reserved(Entry { name, index });
        Ok(())
    }

    /// How many names there are.
    pub fn len(&self) -> usize
        ensures { result ≡ length self.now }
    {
        self.entries.as_slice().len()
    }

    /// The name at a place below that number, and what stands under it.
    pub fn entry(&self, place: usize) -> (&'a str, TypeId)
        requires { place < length self.now }
        ensures { slice_get self.now place ≡ Some (result.0.now, result.1) }
    {
        let Entry { name, index } = &self.entries.as_slice()[place];
        (*name, TypeId::from_index(*index))
    }
}
