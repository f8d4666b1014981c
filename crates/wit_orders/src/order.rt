//! The order of what names one another.

ghost use Rattle.std.specs.Prelude.{◌≡◌, ◌<◌, ℕ, true, false, map, length, slice_get, Some, IfOk, IfErr};
ghost use Rattle.wit_rules.specs.Breaks.{IsKept, IsFaultOf};
ghost use Rattle.wit_type_names.specs.Passed.wit_syntax-AstView as view;
ghost use Rattle.wit_orders.specs.Needs as spec;
ghost use Rattle.wit_orders.specs.Rows.{AreRows, AreWithoutNeeds, places_in, row_of};
ghost use Rattle.wit_orders.specs.View as seen;
ghost use Rattle.wit_rules.specs.declared.fault.PackageRule.TheVariants.{Cycle};

use name_places::FirstPlaces;
use std::alloc::{AllocError, Global};
use wit_order::{PlaceFault, least_order};
use wit_rules::{PackageFault, PackageRule};
use wit_type_names::Id;

/// Something that has a name, and what it names.
#[derive(Drop)]
pub struct Entry<'a> {
    /// Its name.
    pub label: Id<'a>,
    /// The names that it needs, where they are names of entries.
    pub needs: Vec<Id<'a>>,
}

/// The names of the entries, each with its place.
fn places<'a>(alloc: Global, entries: &[Entry<'a>]) -> Result<FirstPlaces<'a>, AllocError>
    ensures { IfOk result (λ p. p ≡ spec.labels (map seen.entry entries.now)) }
{
    let mut found = FirstPlaces::with_capacity(alloc, entries.len())?;
    for entry in entries {
        found.push(entry.label.name)?;
    }
    Ok(found)
}

/// Whether none of the entries names anything.
fn need_nothing(entries: &[Entry<'_>]) -> bool
    ensures yes { result ≡ true → AreWithoutNeeds (map seen.entry entries.now) }
    ensures no { result ≡ false → AreWithoutNeeds (map seen.entry entries.now) → ⊥ }
{
    for entry in entries {
        if !entry.needs.as_slice().is_empty() {
            return false;
        }
    }
    true
}

/// The names of the entries, each with its place, as far as one of them names something.
fn needed_places<'a>(alloc: Global, entries: &[Entry<'a>]) -> Result<FirstPlaces<'a>, AllocError>
    ensures { IfOk result (λ p. (i : ℕ) (one : spec.Entry) → slice_get (map seen.entry entries.now) i ≡ Some one → row_of p one ≡ row_of (spec.labels (map seen.entry entries.now)) one) }
{
    if need_nothing(entries) {
        return Ok(FirstPlaces::new(alloc));
    }
    places(alloc, entries)
}

/// The places of these names, where they are those of entries.
fn places_of(
    alloc: Global,
    places: &FirstPlaces<'_>,
    needs: &[Id<'_>],
) -> Result<Vec<usize>, AllocError>
    ensures { IfOk result (λ r. r.items ≡ places_in places.now (map view.id needs.now)) }
{
    let mut row = Vec::new(alloc);
    for need in needs {
        if let Some(place) = places.first(need.name) {
            row.push(place)?;
        }
    }
    Ok(row)
}

/// The places that each entry needs.
fn rows<'a>(alloc: Global, entries: &[Entry<'a>]) -> Result<Vec<Vec<usize>>, AllocError>
    ensures { IfOk result (λ r. AreRows (map seen.entry entries.now) r.items) }
{
    let places = needed_places(alloc, entries)?;
    let mut rows = Vec::with_capacity(alloc, entries.len())?;
    for entry in entries {
        let row = places_of(alloc, &places, entry.needs.as_slice())?;
        rows.push(row)?;
    }
    Ok(rows)
}

/// The refusal of a circle, at the name of the entry at a place of it.
fn circle_at(entries: &[Entry<'_>], place: usize) -> PackageFault
    requires { place < length entries.now }
    ensures { (one : spec.Entry) × (slice_get (map seen.entry entries.now) place ≡ Some one) × (result ≡ PackageFault.Broken Cycle one.label.span) }
{
    PackageFault::Broken {
        rule: PackageRule::Cycle,
        span: entries[place].label.span,
    }
}

/// The places of the entries, each behind all that it needs, and of all such orders the least; or P6 at the name of an entry
/// that leads back to itself.
pub fn order_of<'a>(alloc: Global, entries: &[Entry<'a>]) -> Result<Vec<usize>, PackageFault>
    ensures ok { IfOk result (λ o. spec.IsOrderOf (map seen.entry entries.now) o.items × IsKept (spec.CircleBreaks (map seen.entry entries.now))) }
    ensures cause { IfErr result (IsFaultOf (spec.CircleBreaks (map seen.entry entries.now))) }
{
    let rows = rows(alloc, entries)?;
    match least_order(alloc, rows.as_slice()) {
        Ok(order) => Ok(order),
        Err(PlaceFault::OutOfMemory) => Err(PackageFault::OutOfMemory),
        Err(PlaceFault::Circle(circle)) => Err(circle_at(entries, circle.from)),
    }
}
