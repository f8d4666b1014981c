//! Names, each with the place of what it stands for.

ghost use Rattle.std.specs.Prelude.{◌≡◌, ◌∷◌, ◌++◌, ℕ, [], List, OnErr, OnOk};
ghost use Rattle.std.specs.Map.{lookup};
ghost use Rattle.wit_core_tables.specs.Tables as spec;

use indexmap::IndexMap;
use std::alloc::{AllocError, Global};
use std::hash::Hash;
use std::marker::Model;

/// What a name stands for.
#[derive(Clone, Copy, Debug, PartialEq, Eq)]
pub enum Meaning {
    /// What is at that place, and nothing else.
    One(usize),
    /// What is at one place or at another.
    Ambiguous,
}

/// Names, each with the place of what it stands for.
#[derive(Drop)]
pub struct NameTable<K: Eq + Hash + Drop> {
    meanings: IndexMap<K, Meaning>,
}

impl<K: Eq + Hash + Drop> Model for NameTable<K> {
    ghost use Rattle.std.specs.Prelude.{List};
    ghost use Rattle.wit_core_tables.specs.declared.table.Meaning.{Meaning};

    ghost Value = { List (K × Meaning) };

    ghost view = { λ t. t.meanings.entries };
}

/// What a name stands for that stands for what is at one more place.
fn with_one(meaning: Option<Meaning>, place: usize) -> Meaning
    ensures { result ≡ spec.with_one meaning place }
{
    match meaning {
        None => Meaning::One(place),
        Some(Meaning::One(other)) if other == place => Meaning::One(place),
        Some(_) => Meaning::Ambiguous,
    }
}

impl<K: Eq + Hash + Drop> NameTable<K> {
    /// No names.
    pub fn new(alloc: Global) -> NameTable<K>
        ensures { spec.IsTableOf K.eq [] result }
    {
        NameTable {
            meanings: IndexMap::new(alloc),
        }
    }

    /// What a name stands for, if it stands for something.
    pub fn get(&self, name: &K) -> Option<Meaning>
        ensures value { result ≡ lookup (K.eq name.now) self.now }
        ensures read { (named : List (K × ℕ)) → spec.IsTableOf K.eq named self.now → spec.IsReadAs K.eq named name.now result }
    {
        self.meanings.get(name).copied()
    }

    /// A name stands for what is at that place, besides what it stood for. Where memory is wanting nothing changes.
    pub fn add(&mut self, name: K, place: usize) -> Result<(), AllocError>
        ensures ok { OnOk result ((named : List (K × ℕ)) → spec.IsTableOf K.eq named self.old → spec.IsTableOf K.eq (named ++ (name, place) ∷ []) self.new) }
        ensures err { OnErr result (self.new ≡ self.old) }
    {
        let meaning = with_one(self.get(&name), place);
        self.meanings.insert(name, meaning)?;
        Ok(())
    }
}
