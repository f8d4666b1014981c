//! One side of a world, with what others bring to it.

ghost use Rattle.std.specs.Prelude.{◌≡◌, [], map, IfOk, IfErr, OnOk};
ghost use Rattle.wit_words.specs.declared.source_map.Span.{Span};
ghost use Rattle.wit_sides.specs.Sides as spec;

use indexmap::IndexMap;
use std::alloc::{AllocError, AllocFailed, Global};
use std::hash::Hash;
use wit_rules::first_repeat;
use wit_types::{WorldItem, WorldKey};
use wit_words::{NameKey, Span};

/// Why what stands on a side of a world can't stand there together.
#[derive(Debug, Drop)]
pub enum SideFault {
    /// A plain name has the name key of one before it.
    IncludeClash(Span),
    /// Memory is wanting.
    OutOfMemory,
}

impl From<AllocError> for SideFault {
    ghost use Rattle.wit_sides.specs.declared.sides.SideFault.TheVariants.{OutOfMemory};

    ghost from_gives = { λ _ e. e ≡ OutOfMemory };

    fn from(_cause: AllocError) -> SideFault {
        SideFault::OutOfMemory
    }
}

impl<T: Drop> From<AllocFailed<T>> for SideFault {
    ghost use Rattle.wit_sides.specs.declared.sides.SideFault.TheVariants.{OutOfMemory};

    ghost from_gives = { λ _ e. e ≡ OutOfMemory };

    fn from(_cause: AllocFailed<T>) -> SideFault {
        SideFault::OutOfMemory
    }
}

/// The keys of plain names.
fn name_keys(
    alloc: Global,
    entries: &[(WorldKey, WorldItem)],
) -> Result<Vec<NameKey<'_>>, AllocError>
    ensures { IfOk result (λ keys. keys.items ≡ spec.name_keys (spec.plain_names entries.now)) }
{
    let mut keys = Vec::new(alloc);
    for entry in entries {
        if let WorldKey::Name(name) = &entry.0 {
            keys.push(NameKey::of(name.as_str()))?;
        }
    }
    Ok(keys)
}

/// Where plain names stand.
fn name_spans(alloc: Global, entries: &[(WorldKey, WorldItem)]) -> Result<Vec<Span>, AllocError>
    ensures { IfOk result (λ spans. spans.items ≡ map (λ n. n.span) (spec.plain_names entries.now)) }
{
    let mut spans = Vec::new(alloc);
    for entry in entries {
        if let WorldKey::Name(_) = &entry.0 {
            spans.push(entry.1.span())?;
        }
    }
    Ok(spans)
}

/// Refuses plain names of which two have one key, at the second.
fn check_names(alloc: Global, entries: &[(WorldKey, WorldItem)]) -> Result<(), SideFault>
    ensures ok { OnOk result ((at : Span) → spec.IsClash entries.now at → ⊥) }
    ensures cause { IfErr result (spec.IsSideCause entries.now) }
{
    let keys = name_keys(alloc, entries)?;
    match first_repeat(alloc, keys.as_slice())? {
        None => Ok(()),
        Some(place) => {
            let spans = name_spans(alloc, entries)?;
            Err(SideFault::IncludeClash(spans[place]))
        }
    }
}

/// Entries in their order, each key where it first stands.
fn united<K: Eq + Hash + Drop, V: Drop>(
    alloc: Global,
    entries: Vec<(K, V)>,
) -> Result<IndexMap<K, V>, AllocError>
    ensures { IfOk result (λ found. found.entries ≡ spec.with_entries K.eq [] entries.items) }
{
    let mut found = IndexMap::new(alloc);
    for (key, value) in entries {
        if !found.contains_key(&key) {
            found.insert(key, value)?;
        }
    }
    Ok(found)
}

/// What a world imports or exports of its own and by the worlds that it includes, in their order: an interface that comes again
/// is one with the first, which stays as it stands. Refuses two plain names of which the name keys are equal, at the second (WIT,
/// Item: `include`; Component Model, Name Uniqueness).
pub fn joined_side(
    alloc: Global,
    entries: Vec<(WorldKey, WorldItem)>,
) -> Result<IndexMap<WorldKey, WorldItem>, SideFault>
    ensures ok { IfOk result (λ side. spec.IsJoined entries.items side.entries) }
    ensures cause { IfErr result (spec.IsSideCause entries.items) }
{
    check_names(alloc, entries.as_slice())?;
    Ok(united(alloc, entries)?)
}
