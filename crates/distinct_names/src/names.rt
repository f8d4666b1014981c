//! Names that have to be distinct.

ghost use Rattle.std.specs.Prelude.{◌≡◌, ◌∷◌, ◌++◌, [], true, not, if◌then◌else◌, IfOk, OnErr, IfErr, OnOk, bytes_eq};
ghost use Rattle.std.specs.List.{list_any};
ghost use Rattle.distinct_names.specs.Names.{is_new, with_name};

use indexmap::IndexSet;
use std::alloc::{AllocError, Global};
use std::marker::Model;

/// Distinct names in the order in which they came, which contracts see as a list of texts.
#[derive(Drop)]
pub struct Names<'a> {
    inner: IndexSet<&'a str>,
}

impl<'a> Model for Names<'a> {
    ghost use Rattle.std.specs.Prelude.{List, ℕ, map};

    ghost Value = { List (List ℕ) };

    ghost view = { λ n. map (λ k. k.now) n.inner.keys };
}

impl<'a> Names<'a> {
    /// No names.
    pub fn new(alloc: Global) -> Names<'a>
        ensures { result ≡ [] }
    {
        Names {
            inner: IndexSet::new(alloc),
        }
    }

    /// Whether the name is none of these.
    pub fn is_new(&self, name: &str) -> bool
        ensures { result ≡ is_new self.now name.now }
    {
        !self.inner.contains(name)
    }

    /// Adds a name that is none of these; it goes last.
    pub fn add(&mut self, name: &'a str) -> Result<(), AllocError>
        requires { is_new self.old name.now ≡ true }
        ensures ok { OnOk result (self.new ≡ self.old ++ name.entry.now ∷ []) }
        ensures err { OnErr result (self.new ≡ self.old) }
    {
        self.inner.insert(name)?;
        Ok(())
    }

    /// Adds a name, where it isn't there yet; it goes last.
    pub fn insert(&mut self, name: &'a str) -> Result<(), AllocError>
        ensures ok { OnOk result (self.new ≡ with_name self.old name.entry.now) }
        ensures err { OnErr result (self.new ≡ self.old) }
    {
        if self.is_new(name) {
            self.add(name)?;
        }
        Ok(())
    }
}
