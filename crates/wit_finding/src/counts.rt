//! How many interfaces and worlds a package asks for.

ghost use Rattle.std.specs.Prelude.{◌≡◌, ◌+◌, IfOk, map};
ghost use Rattle.wit_finding.specs.Asks.{items_of};
ghost use Rattle.wit_finding.specs.Foreign as spec;

use indexmap::IndexMap;
use std::alloc::AllocError;
use std::hash::Hash;
use wit_moves::{AstItem, ForeignItems};

/// How many interfaces and worlds are asked for.
#[derive(Clone, Copy)]
pub struct Counts {
    /// Interfaces.
    pub interfaces: usize,
    /// Worlds.
    pub worlds: usize,
}

/// One more than a number.
fn one_more(count: usize) -> Result<usize, AllocError>
    ensures { IfOk result (λ n. n ≡ count + 1) }
{
    match count.checked_add(1) {
        Some(count) => Ok(count),
        None => Err(AllocError),
    }
}

/// With one more that is asked for.
fn with_item(counts: Counts, item: &AstItem) -> Result<Counts, AllocError>
    ensures { IfOk result (λ c. c ≡ spec.with_item counts item.now) }
{
    match item {
        AstItem::Interface(_) => Ok(Counts {
            interfaces: one_more(counts.interfaces)?,
            worlds: counts.worlds,
        }),
        AstItem::World(_) => Ok(Counts {
            interfaces: counts.interfaces,
            worlds: one_more(counts.worlds)?,
        }),
    }
}

/// With what is asked of one more package.
fn with_items(counts: Counts, items: &ForeignItems) -> Result<Counts, AllocError>
    ensures { IfOk result (λ c. c ≡ spec.with_items counts (map (λ e. e.1) items.now.entries)) }
{
    let mut counts = counts;
    for asked in items.values() {
        counts = with_item(counts, &asked.0)?;
    }
    Ok(counts)
}

/// How many interfaces and worlds are asked for of all packages.
pub fn counts_of<K: Eq + Hash>(deps: &IndexMap<K, ForeignItems>) -> Result<Counts, AllocError>
    ensures { IfOk result (λ c. c ≡ spec.counts_of (items_of deps.now.entries)) }
{
    let mut counts = Counts {
        interfaces: 0,
        worlds: 0,
    };
    for items in deps.values() {
        counts = with_items(counts, items)?;
    }
    Ok(counts)
}
