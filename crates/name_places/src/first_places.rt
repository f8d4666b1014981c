//! The first place of each of some names.

ghost use Rattle.std.specs.Prelude.{◌≡◌, List, ℕ, [], ◌∷◌, ◌++◌, map, length, IfOk, OnErr, OnOk};
ghost use Rattle.name_places.specs.FirstPlaces.{place_of, AreFirst, IsTable};

use indexmap::IndexMap;
use smallvec::SmallVec;
use std::alloc::{AllocError, Global};
use std::marker::Model;

/// So many names are searched one by one; more have a table.
const FEW: usize = 8;

/// Names in the order in which they came, which contracts see as a list of texts; a name may come again.
#[derive(Drop)]
pub struct FirstPlaces<'a> {
    alloc: Global,
    /// Most scopes have few names, which take no memory of their own.
    names: SmallVec<&'a str, 4>,
    /// It stands apart, as most scopes have none.
    table: Option<Box<IndexMap<&'a str, usize>>>,
}

impl<'a> Model for FirstPlaces<'a> {
    ghost use Rattle.std.specs.Prelude.{List, ℕ, map};
    ghost use Rattle.name_places.specs.FirstPlaces.{IsTable};

    ghost Value = { List (List ℕ) };

    ghost view = { λ p. map (λ n. n.now) p.names.items };

    ghost invariant = { λ p. IsTable p.table (map (λ n. n.now) p.names.items) };
}

impl<'a> FirstPlaces<'a> {
    /// No names.
    pub fn new(alloc: Global) -> FirstPlaces<'a>
        ensures { result ≡ [] }
    {
        FirstPlaces {
            alloc,
            names: SmallVec::new(alloc),
            table: None,
        }
    }

    /// No names, with room for so many, where they are enough to have a table.
    pub fn with_capacity(alloc: Global, capacity: usize) -> Result<FirstPlaces<'a>, AllocError>
        ensures { IfOk result (λ p. p ≡ []) }
    {
        if capacity <= FEW {
            return Ok(FirstPlaces::new(alloc));
        }
        let names = SmallVec::with_capacity(alloc, capacity)?;
        let table = IndexMap::with_capacity(alloc, capacity)?;
        Ok(FirstPlaces {
            alloc,
            names,
            table: Some(Box::new(alloc, table)?),
        })
    }

    /// The first place of a name.
    pub fn first(&self, name: &str) -> Option<usize>
        ensures { result ≡ place_of name.now self.now }
    {
        match &self.table {
            Some(table) => table.get(name).copied(),
            None => place_among(self.names.as_slice(), name),
        }
    }

    /// Adds a name; it goes last.
    pub fn push(&mut self, name: &'a str) -> Result<(), AllocError>
        ensures ok { OnOk result (self.new ≡ self.old ++ name.entry.now ∷ []) }
        ensures err { OnErr result (self.new ≡ self.old) }
    {
        self.names.reserve(1)?;
        note(self.alloc, &mut self.table, self.names.as_slice(), name)?;
        self.names.push_reserved(name);
        Ok(())
    }
}

/// The first place of a name among some.
fn place_among(names: &[&str], name: &str) -> Option<usize>
    ensures { result ≡ place_of name.now (map (λ n. n.now) names.now) }
{
    for (place, other) in names.iter().enumerate() {
        if name == *other {
            return Some(place);
        }
    }
    None
}

/// A table of the first places of names.
fn table_of<'a>(alloc: Global, names: &[&'a str]) -> Result<IndexMap<&'a str, usize>, AllocError>
    ensures { IfOk result (λ table. AreFirst table (map (λ n. n.now) names.now)) }
{
    let mut table = IndexMap::new(alloc);
    for (place, name) in names.iter().enumerate() {
        add(&mut table, name, place)?;
    }
    Ok(table)
}

/// Adds a name that stands at a place behind all names of a table.
fn add<'a>(
    table: &mut IndexMap<&'a str, usize>,
    name: &'a str,
    place: usize,
) -> Result<(), AllocError>
    ensures ok { (names : List (List ℕ)) → AreFirst table.old names → place ≡ length names → OnOk result (AreFirst table.new (names ++ name.entry.now ∷ [])) }
    ensures err { (names : List (List ℕ)) → AreFirst table.old names → OnErr result (AreFirst table.new names) }
{
    // Most names are new, and one look at the table puts them in.
    match table.insert(name, place)? {
        Some(first) => {
            table.insert(name, first)?;
            Ok(())
        }
        None => Ok(()),
    }
}

/// Adds to the table of names one that comes behind them, where there is a table or it is time for one.
fn note<'a>(
    alloc: Global,
    table: &mut Option<Box<IndexMap<&'a str, usize>>>,
    names: &[&'a str],
    name: &'a str,
) -> Result<(), AllocError>
    ensures ok { IsTable table.old (map (λ n. n.now) names.now) → OnOk result (IsTable table.new (map (λ n. n.now) names.now ++ name.entry.now ∷ [])) }
    ensures err { IsTable table.old (map (λ n. n.now) names.now) → OnErr result (IsTable table.new (map (λ n. n.now) names.now)) }
{
    match table {
        Some(table) => add(table, name, names.len()),
        None => {
            if names.len() == FEW {
                let mut first = table_of(alloc, names)?;
                add(&mut first, name, names.len())?;
                *table = Some(Box::new(alloc, first)?);
            }
            Ok(())
        }
    }
}
