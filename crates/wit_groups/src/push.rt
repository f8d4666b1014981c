//! Packages that are pushed together.

ghost use Rattle.std.specs.Prelude.{◌≡◌, ◌<◌, ℕ, Some, length, slice_get, IfOk, IfErr, OnErr, OnOk};
ghost use Rattle.wit_order.specs.Order.{Has};
ghost use Rattle.wit_types.specs.declared.«package».UnresolvedPackage.{UnresolvedPackage};
ghost use Rattle.wit_graph.specs.Push.{HasMorePackages};
ghost use Rattle.wit_graph.specs.Passed.wit_graph_parts-Own.{IsWellFormed};
ghost use Rattle.wit_groups.specs.Pushed as spec;

use crate::fault::GroupFault;
use std::alloc::Global;
use wit_features::Features;
use wit_graph::{Graph, PushFault};
use wit_package_order::{package_order, sorted_packages};
use wit_types::{PackageId, PackageName, UnresolvedPackage};

/// Pushes each into the graph with those before it. Where one is refused those before it are there.
fn push_each(
    graph: &mut Graph,
    alloc: Global,
    features: &Features,
    packages: Vec<UnresolvedPackage>,
) -> Result<(), PushFault>
    requires { (p : UnresolvedPackage) → Has packages.items p → IsWellFormed p }
    ensures ok { OnOk result (spec.ArePushed ⟦<PackageName as PartialEq>⟧.eq features.now graph.old packages.items graph.new) }
    ensures cause { IfErr result (spec.OneIsRefused ⟦<PackageName as PartialEq>⟧.eq features.now graph.old packages.items) }
    ensures more { HasMorePackages graph.old graph.new }
{
    for package in packages {
        graph.push(alloc, features, package)?;
        graph.law_is_graph();
    }
    Ok(())
}

/// The same, or leaves the graph as it was.
fn push_all(
    graph: &mut Graph,
    alloc: Global,
    features: &Features,
    packages: Vec<UnresolvedPackage>,
) -> Result<(), PushFault>
    requires { (p : UnresolvedPackage) → Has packages.items p → IsWellFormed p }
    ensures ok { OnOk result (spec.ArePushed ⟦<PackageName as PartialEq>⟧.eq features.now graph.old packages.items graph.new) }
    ensures more { OnOk result (HasMorePackages graph.old graph.new) }
    ensures cause { IfErr result (spec.OneIsRefused ⟦<PackageName as PartialEq>⟧.eq features.now graph.old packages.items) }
    ensures err { OnErr result (graph.new ≡ graph.old) }
{
    graph.law_is_graph();
    let mark = graph.mark();
    match push_each(graph, alloc, features, packages) {
        Ok(()) => Ok(()),
        Err(fault) => {
            graph.restore(mark);
            Err(fault)
        }
    }
}

/// At which place of an order the first stands.
fn place_of_first(order: &[usize]) -> usize
    requires { Has order.now 0 }
    ensures { slice_get order.now result ≡ Some 0 }
{
    for (place, of) in order.iter().enumerate() {
        if *of == 0 {
            return place;
        }
    }
    unreachable!()
}

/// Adds packages together, each with all of it that stays: gates are those of the features. Each is pushed behind all on which it
/// depends; of all such orders it is the least, by their positions. Answers the id of the first. Refuses packages of one name and
/// version, packages that depend on each other in a circle, and what a push of one of them refuses. A refused call leaves the graph
/// as it was (WIT, Packages).
pub fn push_together(
    graph: &mut Graph,
    alloc: Global,
    features: &Features,
    packages: Vec<UnresolvedPackage>,
) -> Result<PackageId, GroupFault>
    requires some { 0 < length packages.items }
    requires whole { (p : UnresolvedPackage) → Has packages.items p → IsWellFormed p }
    ensures ok { IfOk result (spec.AreTogether ⟦<PackageName as PartialEq>⟧.eq features.now graph.old packages.items graph.new) }
    ensures more { OnOk result (HasMorePackages graph.old graph.new) }
    ensures cause { IfErr result (spec.IsTogetherCause ⟦<PackageName as PartialEq>⟧.eq features.now graph.old packages.items) }
    ensures err { OnErr result (graph.new ≡ graph.old) }
{
    let order = package_order(alloc, packages.as_slice())?;
    let sorted = sorted_packages(alloc, packages, order.as_slice())?;
    let place = place_of_first(order.as_slice());
    let behind = order.len() - place;
    push_all(graph, alloc, features, sorted)?;
    Ok(PackageId::from_index(graph.packages().len() - behind))
}
