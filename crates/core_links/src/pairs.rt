//! Pairs of texts that have to be distinct.

ghost use Rattle.std.specs.Prelude.{◌≡◌, ◌∷◌, ◌++◌, [], true, OnErr, OnOk};
ghost use Rattle.core_links.specs.Pairs.{is_new};

use indexmap::IndexSet;
use std::alloc::{AllocError, Global};
use std::marker::Model;

/// Distinct pairs of texts in the order in which they came, which contracts see as a list.
#[derive(Drop)]
pub struct Pairs<'a> {
    inner: IndexSet<(&'a str, &'a str)>,
}

impl<'a> Model for Pairs<'a> {
    ghost use Rattle.std.specs.Prelude.{List, map};
    ghost use Rattle.core_links.specs.Pairs.{Pair, pair};

    ghost Value = { List Pair };

    ghost view = { λ n. map pair n.inner.keys };
}

impl<'a> Pairs<'a> {
    /// No pairs.
    pub fn new(alloc: Global) -> Pairs<'a>
        ensures { result ≡ [] }
    {
        Pairs {
            inner: IndexSet::new(alloc),
        }
    }

    /// Whether the pair is none of these.
    pub fn is_new(&self, first: &str, second: &str) -> bool
        ensures { result ≡ is_new self.now (first.now, second.now) }
    {
        !self.inner.contains(&(first, second))
    }

    /// Adds a pair that is none of these; it goes last.
    pub fn add(&mut self, first: &'a str, second: &'a str) -> Result<(), AllocError>
        requires { is_new self.old (first.now, second.now) ≡ true }
        ensures ok { OnOk result (self.new ≡ self.old ++ (first.entry.now, second.entry.now) ∷ []) }
        ensures err { OnErr result (self.new ≡ self.old) }
    {
        self.inner.insert((first, second))?;
        Ok(())
    }
}
