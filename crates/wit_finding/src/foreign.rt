//! Where all stands that a package asks for.

ghost use Rattle.std.specs.Prelude.{◌≡◌, ◌<◌, ℕ, length, IfOk, IfErr, OnOk};
ghost use Rattle.wit_words.specs.declared.source_map.Span.{Span};
ghost use Rattle.wit_moves.specs.Passed.wit_types-declared-package-PackageName.{PackageName};
ghost use Rattle.wit_moves.specs.Passed.wit_order-Order.{Has};
ghost use Rattle.wit_finding.specs.Asks.{AreDepsThere, AskBreaks, IsAskCause, items_of, found_by};
ghost use Rattle.wit_finding.specs.Places.{interface_pairs, world_pairs, ArePlaced};
ghost use Rattle.wit_finding.specs.Foreign as spec;

use crate::asks::{Asker, found_items};
use crate::counts::counts_of;
use crate::fault::FindFault;
use crate::packages::packages_named;
use crate::places::{found_interfaces, found_worlds};
use indexmap::IndexMap;
use std::alloc::{AllocError, Global};
use wit_moves::{
    Arena, AstItem, Features, OwnerPlaces, Package, PackageId, PackageName, UnresolvedPackage,
};

/// The packages of a graph, and their names.
#[derive(Clone, Copy)]
pub struct Known<'a> {
    /// The packages.
    pub packages: &'a Arena<Package>,
    /// Each by its name.
    pub names: &'a IndexMap<PackageName, PackageId>,
}

/// What is found of all that a package asks for.
fn found_of(
    alloc: Global,
    features: &Features,
    known: &Known,
    package: &UnresolvedPackage,
    ids: &[PackageId],
) -> Result<Vec<(AstItem, AstItem)>, FindFault>
    requires packages { (i : ℕ) → Has ids.now i → i < length known.now.packages.now }
    requires so_many { length ids.now ≡ length «package».now.foreign_deps.entries }
    requires there { AreDepsThere «package».now.interfaces «package».now.worlds (items_of «package».now.foreign_deps.entries) }
    ensures found { IfOk result (λ found. found.items ≡ found_by features.now (spec.asks_of_package known.now.packages.now ids.now «package».now)) }
    ensures kept { OnOk result ((at : Span) → AskBreaks features.now «package».now.interfaces «package».now.worlds (spec.asks_of_package known.now.packages.now ids.now «package».now) at → ⊥) }
    ensures cause { IfErr result (IsAskCause features.now «package».now.interfaces «package».now.worlds (spec.asks_of_package known.now.packages.now ids.now «package».now)) }
{
    let asker = Asker {
        features,
        interfaces: &package.interfaces,
        worlds: &package.worlds,
    };
    found_items(alloc, &asker, known.packages, ids, &package.foreign_deps)
}

/// Where what is found stands.
fn places_of(
    alloc: Global,
    package: &UnresolvedPackage,
    found: &[(AstItem, AstItem)],
) -> Result<OwnerPlaces, AllocError>
    ensures interfaces { IfOk result (λ p. ArePlaced (interface_pairs found.now) (spec.counts_of (items_of «package».now.foreign_deps.entries)).interfaces p.interfaces) }
    ensures worlds { IfOk result (λ p. ArePlaced (world_pairs found.now) (spec.counts_of (items_of «package».now.foreign_deps.entries)).worlds p.worlds) }
{
    let counts = counts_of(&package.foreign_deps)?;
    Ok(OwnerPlaces {
        interfaces: found_interfaces(alloc, found, counts.interfaces)?,
        worlds: found_worlds(alloc, found, counts.worlds)?,
    })
}

/// Where the interfaces and worlds stand in a graph that a package asks for: each where a statement stays that asks for it, and its
/// package has it as that. Refuses a package that isn't there, where it is first named, and else what its package has neither as an
/// interface nor as a world, where a statement stays that asks for it, at the first that does.
pub fn foreign_places(
    alloc: Global,
    features: &Features,
    known: &Known,
    package: &UnresolvedPackage,
) -> Result<OwnerPlaces, FindFault>
    requires packages { (e : PackageName × ℕ) → Has known.now.names.now.entries e → e.1 < length known.now.packages.now }
    requires spans { length «package».now.foreign_dep_spans.items ≡ length «package».now.foreign_deps.entries }
    requires there { AreDepsThere «package».now.interfaces «package».now.worlds (items_of «package».now.foreign_deps.entries) }
    ensures ok { IfOk result (λ p. spec.AreForeignPlaces ⟦<PackageName as PartialEq>⟧.eq features.now known.now.names.now.entries known.now.packages.now «package».now p.interfaces p.worlds) }
    ensures cause { IfErr result (spec.IsForeignCause ⟦<PackageName as PartialEq>⟧.eq features.now known.now.names.now.entries known.now.packages.now «package».now) }
{
    let ids = packages_named(
        alloc,
        known.names,
        &package.foreign_deps,
        package.foreign_dep_spans.as_slice(),
    )?;
    let found = found_of(alloc, features, known, package, ids.as_slice())?;
    Ok(places_of(alloc, package, found.as_slice())?)
}
