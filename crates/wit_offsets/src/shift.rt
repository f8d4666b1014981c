//! Places, and how far further on they are to stand.

ghost use Rattle.std.specs.Prelude.{◌≡◌, false, map, flat_map};
ghost use Rattle.indexmap.specs.IndexMap.{values};
ghost use Rattle.wit_offsets.specs.Offsets.{values_by};
ghost use Rattle.wit_offsets.specs.Walks as spec;

use indexmap::IndexMap;
use std::hash::Hash;
use wit_types::{Arena, Stored};
use wit_words::Span;

/// How far further on places are to stand, and whether one of those that were walked over doesn't fit into 32 bits there.
#[derive(Drop)]
pub struct Shift {
    /// So many bytes.
    pub offset: u32,
    /// Whether one of them doesn't fit.
    pub passes: bool,
}

/// What has places.
pub trait Placed {
    ghost use Rattle.std.specs.Prelude.{List};
    ghost use Rattle.wit_words.specs.declared.source_map.Span.{Span};
    ghost use Rattle.wit_offsets.specs.Walks.{Walks};

    /// It with each of its places where a function says.
    ghost by: { (Span → Span) → Self → Self };

    /// All its places.
    ghost spans: { Self → List Span };

    /// Moves all places that fit, and notes where one doesn't.
    fn move_by(&mut self, shift: &mut Shift)
        ensures { Walks by spans shift.old self.old shift.new self.new };
}

impl Placed for Span {
    ghost use Rattle.std.specs.Prelude.{◌∷◌, []};

    ghost by = { λ f s. f s };

    ghost spans = { λ s. s ∷ [] };

    fn move_by(&mut self, shift: &mut Shift) {
        let start = self.start.checked_add(shift.offset);
        let end = self.end.checked_add(shift.offset);
        match (start, end) {
            (Some(start), Some(end)) => *self = Span { start, end },
            _ => shift.passes = true,
        }
    }
}

/// Moves the places of each.
pub fn move_all<T: Placed>(items: &mut [T], shift: &mut Shift)
    ensures { spec.Walks (λ f. map (T.by f)) (flat_map T.spans) shift.old items.old shift.new items.new }
{
    for item in items.iter_mut() {
        item.move_by(shift);
    }
}

/// Moves the places of each value.
pub fn move_values<K: Eq + Hash, T: Placed>(items: &mut IndexMap<K, T>, shift: &mut Shift)
    ensures { spec.Walks (λ f. values_by (T.by f)) (λ m. flat_map T.spans (values m)) shift.old items.old shift.new items.new }
{
    for place in 0..items.len() {
        if let Some(value) = items.get_index_mut(place) {
            value.move_by(shift);
        }
    }
}

/// What stands in an arena, with the places of each moved.
pub fn moved_arena<T: Placed + Stored>(items: Arena<T>, shift: &mut Shift) -> Arena<T>
    ensures { spec.Walks (λ f. map (T.by f)) (flat_map T.spans) shift.old items shift.new result }
{
    let mut moved = items.into_items();
    move_all(moved.as_mut_slice(), shift);
    Arena::from_items(moved)
}
