//! The order of packages: each behind all on which it depends.

ghost use Rattle.std.specs.Prelude.{◌≡◌, ◌<◌, true, false, Some, length, slice_get, IfOk, IfErr};
ghost use Rattle.std.specs.Map.{lookup};
ghost use Rattle.wit_order.specs.Order.{Has};
ghost use Rattle.wit_order.specs.Places.{IsCircle, row};
ghost use Rattle.wit_types.specs.declared.«package».UnresolvedPackage.{UnresolvedPackage};
ghost use Rattle.wit_package_order.specs.Packages as spec;
ghost use Rattle.wit_package_order.specs.Names.{names};
ghost use Rattle.wit_package_order.specs.Rows.{AreRows, HaveSpans, IsAskedAt, IsOrdered, IsOrderCause, places_in};

use crate::fault::PackageOrderFault;
use crate::names::places;
use indexmap::IndexMap;
use std::alloc::{AllocError, Global};
use wit_order::{Circle, PlaceFault, least_order};
use wit_types::{PackageName, UnresolvedPackage};
use wit_words::Span;

/// The places of the packages for which one asks, where they are among these.
fn row_of<'p>(
    alloc: Global,
    places: &IndexMap<&'p PackageName, usize>,
    package: &'p UnresolvedPackage,
) -> Result<Vec<usize>, AllocError>
    ensures { IfOk result (λ r. r.items ≡ places_in ⟦<PackageName as PartialEq>⟧.eq (names places.now.entries) (spec.asked «package».now)) }
{
    let mut row = Vec::new(alloc);
    for name in package.foreign_deps.keys() {
        if let Some(place) = places.get(&name) {
            row.push(*place)?;
        }
    }
    Ok(row)
}

/// The places of the packages on which each depends.
fn rows<'p>(
    alloc: Global,
    places: &IndexMap<&'p PackageName, usize>,
    packages: &'p [UnresolvedPackage],
) -> Result<Vec<Vec<usize>>, AllocError>
    ensures { IfOk result (λ r. AreRows ⟦<PackageName as PartialEq>⟧.eq (names places.now.entries) packages.now r.items) }
{
    let mut rows = Vec::new(alloc);
    for package in packages {
        let row = row_of(alloc, places, package)?;
        rows.push(row)?;
    }
    Ok(rows)
}

/// Where a name of a number is said to stand.
fn span_at(spans: &[Span], place: usize) -> Span
    requires { place < length spans.now }
    ensures { slice_get spans.now place ≡ Some result }
{
    spans[place]
}

/// Whether a name is that of the package at a place.
fn is_at<'p>(places: &IndexMap<&'p PackageName, usize>, name: &'p PackageName, place: usize) -> bool
    ensures found { result ≡ true → lookup (⟦<PackageName as PartialEq>⟧.eq name.now) (names places.now.entries) ≡ Some place }
    ensures other { result ≡ false → lookup (⟦<PackageName as PartialEq>⟧.eq name.now) (names places.now.entries) ≡ Some place → ⊥ }
{
    match places.get(&name) {
        Some(found) => *found == place,
        None => false,
    }
}

/// Where a package first asks for the one at a place.
fn ask_for<'p>(
    places: &IndexMap<&'p PackageName, usize>,
    package: &'p UnresolvedPackage,
    to: usize,
) -> Span
    requires spans { length «package».now.foreign_dep_spans.items ≡ length «package».now.foreign_deps.entries }
    requires asked { Has (places_in ⟦<PackageName as PartialEq>⟧.eq (names places.now.entries) (spec.asked «package».now)) to }
    ensures { IsAskedAt ⟦<PackageName as PartialEq>⟧.eq (names places.now.entries) «package».now to result }
{
    let spans = package.foreign_dep_spans.as_slice();
    for (place, name) in package.foreign_deps.keys().enumerate() {
        if is_at(places, name, to) {
            return span_at(spans, place);
        }
    }
    unreachable!()
}

/// The row at a place.
fn row_at(rows: &[Vec<usize>], place: usize) -> &[usize]
    requires { place < length rows.now }
    ensures { result.now ≡ row rows.now place }
{
    rows[place].as_slice()
}

/// The package at a place.
fn package_at(packages: &[UnresolvedPackage], place: usize) -> &UnresolvedPackage
    requires { place < length packages.now }
    ensures { slice_get packages.now place ≡ Some result.now }
{
    &packages[place]
}

/// Where a package asks for the next of a circle.
fn circle_at<'p>(
    places: &IndexMap<&'p PackageName, usize>,
    packages: &'p [UnresolvedPackage],
    rows: &[Vec<usize>],
    circle: Circle,
) -> Span
    requires named { names places.now.entries ≡ spec.named packages.now }
    requires spans { HaveSpans packages.now }
    requires rows { AreRows ⟦<PackageName as PartialEq>⟧.eq (names places.now.entries) packages.now rows.now }
    requires circle { IsCircle rows.now circle.from circle.need }
    ensures { spec.ClosesCircle ⟦<PackageName as PartialEq>⟧.eq packages.now result }
{
    let row = row_at(rows, circle.from);
    let to = row[circle.need];
    ask_for(places, package_at(packages, circle.from), to)
}

/// The places of the packages, each behind all on which it depends, and of all such orders the least. Refuses a name that
/// comes twice, and a circle, where one of it asks for the next.
pub fn package_order(
    alloc: Global,
    packages: &[UnresolvedPackage],
) -> Result<Vec<usize>, PackageOrderFault>
    requires { HaveSpans packages.now }
    ensures ok { IfOk result (λ o. IsOrdered ⟦<PackageName as PartialEq>⟧.eq packages.now o.items) }
    ensures cause { IfErr result (IsOrderCause ⟦<PackageName as PartialEq>⟧.eq packages.now) }
{
    let places = places(alloc, packages)?;
    let rows = rows(alloc, &places, packages)?;
    match least_order(alloc, rows.as_slice()) {
        Ok(order) => Ok(order),
        Err(PlaceFault::OutOfMemory) => Err(PackageOrderFault::OutOfMemory),
        Err(PlaceFault::Circle(circle)) => Err(PackageOrderFault::Cycle(circle_at(
            &places,
            packages,
            rows.as_slice(),
            circle,
        ))),
    }
}
