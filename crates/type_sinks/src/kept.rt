//! What is remembered of types, by their ids.

ghost use Rattle.std.specs.Prelude.{◌≡◌, ℕ, None, OnOk, OnErr};
ghost use Rattle.type_writing.specs.Writing.{remembering};
ghost use Rattle.type_sinks.specs.Kept.{index_of, AreKept};

use indexmap::IndexMap;
use std::alloc::{AllocError, Global};
use std::marker::Model;
use wit_types::TypeId;

/// An index of each type of which one is remembered, which contracts see as pairs of an id and an index.
#[derive(Drop)]
pub struct Kept {
    indices: IndexMap<usize, u32>,
}

impl Model for Kept {
    ghost use Rattle.std.specs.Prelude.{List, ℕ};

    ghost Value = { List (ℕ × ℕ) };

    ghost view = { λ k. k.indices.entries };
}

impl Kept {
    /// Nothing is remembered.
    pub fn new(alloc: Global) -> Kept
        ensures { (id : ℕ) → index_of result id ≡ None }
    {
        Kept {
            indices: IndexMap::new(alloc),
        }
    }

    /// What is remembered of a type.
    pub fn get(&self, id: TypeId) -> Option<u32>
        ensures { result ≡ index_of self.now id }
    {
        self.indices.get(&id.index()).copied()
    }

    /// Remembers an index of a type. Where memory is wanting nothing changes.
    pub fn keep(&mut self, id: TypeId, index: u32) -> Result<(), AllocError>
        ensures ok { OnOk result ((k : ℕ) → index_of self.new k ≡ remembering (index_of self.old) id index k) }
        ensures err { OnErr result (self.new ≡ self.old) }
    {
        self.indices.insert(id.index(), index)?;
        Ok(())
    }

    /// Remembers an index of each of some types.
    pub fn keep_all(&mut self, ids: &[TypeId], index: u32) -> Result<(), AllocError>
        ensures { OnOk result (AreKept (index_of self.old) (index_of self.new) ids.now index) }
    {
        for id in ids {
            self.keep(*id, index)?;
        }
        Ok(())
    }
}
