//! Groups of packages whose texts come behind others.

ghost use Rattle.std.specs.Prelude.{◌≡◌, ◌<◌, ◌⊎◌, ◌++◌, length, map, IfOk, IfErr, OnOk, OnErr};
ghost use Rattle.wit_order.specs.Order.{Has};
ghost use Rattle.wit_types.specs.declared.«package».UnresolvedPackage.{UnresolvedPackage};
ghost use Rattle.wit_offsets.specs.Offsets.{package_at, Fits, Passes};
ghost use Rattle.wit_resolve_errors.specs.Passed.wit_graph-Push.{HasMorePackages};
ghost use Rattle.wit_well_formed.specs.Passed.wit_graph_parts-Own.{IsWellFormed};
ghost use Rattle.wit_resolve_errors.specs.Passed.wit_groups-Pushed.{AreTogether, IsTogetherCause};
ghost use Rattle.wit_resolve_errors.specs.Passed.wit_groups-declared-fault-GroupFault.{GroupFault as FaultOfGroup};
ghost use Rattle.wit_resolve_errors.specs.Errors.{IsSizeError, of_group};
ghost use Rattle.wit_resolution.specs.Groups as spec;
ghost use Rattle.wit_words.specs.Sources.{total};

use std::alloc::Global;
use wit_features::Features;
use wit_offsets::with_offset;
use wit_resolve_errors::{Graph, GroupFault, ResolveError, ResolveErrorKind, push_together};
use wit_types::{PackageId, PackageName, UnresolvedPackage};
use wit_well_formed::UnresolvedPackageGroup;
use wit_words::SourceMap;

/// Adds packages whose texts begin there.
fn add_packages(
    packages: &mut Vec<UnresolvedPackage>,
    offset: u32,
    own: Vec<UnresolvedPackage>,
) -> Result<(), ResolveError>
    ensures ok { OnOk result (packages.new.items ≡ packages.old.items ++ map (package_at offset) own.items) }
    ensures fit { OnOk result ((p : UnresolvedPackage) → Has own.items p → Fits offset p) }
    ensures cause { IfErr result (IsSizeError ((p : UnresolvedPackage) × Has own.items p × Passes offset p)) }
{
    for package in own {
        packages.push(with_offset(package, offset)?)?;
    }
    Ok(())
}

/// Adds the texts of a group behind the others, and its packages.
fn add_group(
    alloc: Global,
    source_map: &mut SourceMap,
    packages: &mut Vec<UnresolvedPackage>,
    group: UnresolvedPackageGroup,
) -> Result<(), ResolveError>
    ensures ok { OnOk result (packages.new.items ≡ packages.old.items ++ map (package_at (total source_map.old)) (spec.packages_of group)) }
    ensures fit { OnOk result (spec.Fit source_map.old group) }
    ensures texts { OnOk result (source_map.new ≡ source_map.old ++ group.source_map) }
    ensures cause { IfErr result (IsSizeError (spec.Pass source_map.old group)) }
    ensures err { OnErr result ((source_map.new ≡ source_map.old) ⊎ (source_map.new ≡ source_map.old ++ group.source_map)) }
{
    let UnresolvedPackageGroup {
        main,
        nested,
        source_map: texts,
    } = group;
    let mut nested = nested;
    let mut own = Vec::new(alloc);
    own.push(main)?;
    own.append(&mut nested)?;
    let offset = source_map.append(texts)?;
    add_packages(packages, offset, own)
}

/// Adds the texts of each group behind the others, and its packages.
fn add_groups(
    alloc: Global,
    source_map: &mut SourceMap,
    packages: &mut Vec<UnresolvedPackage>,
    groups: Vec<UnresolvedPackageGroup>,
) -> Result<(), ResolveError>
    ensures ok { OnOk result (packages.new.items ≡ packages.old.items ++ spec.packages_behind source_map.old groups.items) }
    ensures fit { OnOk result (spec.AllFit source_map.old groups.items) }
    ensures texts { OnOk result (source_map.new ≡ source_map.old ++ spec.texts_of groups.items) }
    ensures cause { IfErr result (IsSizeError (spec.SomePass source_map.old groups.items)) }
    ensures err { OnErr result (spec.BeginBehind source_map.old groups.items source_map.new) }
{
    for group in groups {
        add_group(alloc, source_map, packages, group)?;
    }
    Ok(())
}

/// Adds the texts of each group behind the others, and answers their packages.
pub fn packages_of_groups(
    alloc: Global,
    source_map: &mut SourceMap,
    groups: Vec<UnresolvedPackageGroup>,
) -> Result<Vec<UnresolvedPackage>, ResolveError>
    ensures ok { IfOk result (λ v. v.items ≡ spec.packages_behind source_map.old groups.items) }
    ensures fit { OnOk result (spec.AllFit source_map.old groups.items) }
    ensures texts { OnOk result (source_map.new ≡ source_map.old ++ spec.texts_of groups.items) }
    ensures cause { IfErr result (IsSizeError (spec.SomePass source_map.old groups.items)) }
    ensures err { OnErr result (spec.BeginBehind source_map.old groups.items source_map.new) }
{
    let mut packages = Vec::new(alloc);
    add_groups(alloc, source_map, &mut packages, groups)?;
    Ok(packages)
}

/// Pushes packages together, of which the first is the main one.
pub fn push_packages(
    graph: &mut Graph,
    alloc: Global,
    features: &Features,
    packages: Vec<UnresolvedPackage>,
) -> Result<PackageId, ResolveError>
    requires some { 0 < length packages.items }
    requires whole { (p : UnresolvedPackage) → Has packages.items p → IsWellFormed p }
    ensures ok { IfOk result (AreTogether ⟦<PackageName as PartialEq>⟧.eq features.now graph.old packages.items graph.new) }
    ensures more { OnOk result (HasMorePackages graph.old graph.new) }
    ensures cause { IfErr result (λ e. (fault : FaultOfGroup) × IsTogetherCause ⟦<PackageName as PartialEq>⟧.eq features.now graph.old packages.items fault × (e ≡ of_group fault)) }
    ensures err { OnErr result (graph.new ≡ graph.old) }
{
    match push_together(graph, alloc, features, packages) {
        Ok(id) => Ok(id),
        Err(GroupFault::PackageCycle(span)) => {
            Err(ResolveError::from(ResolveErrorKind::PackageCycle { span }))
        }
        Err(GroupFault::ComesTwice(span)) => {
            Err(ResolveError::from(ResolveErrorKind::DuplicatePackage { span }))
        }
        Err(GroupFault::Push(fault)) => Err(ResolveError::from(fault)),
    }
}
