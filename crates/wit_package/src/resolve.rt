//! From the files of a package to what they are resolved to.

ghost use Rattle.std.specs.Prelude.{◌≡◌, List, map, IfOk, IfErr};
ghost use Rattle.wit_syntax.specs.Ast.{PackageNameTree, FileTree};
ghost use Rattle.wit_syntax.specs.AstView as view;
ghost use Rattle.wit_scopes.specs.Scopes.{package_scopes};
ghost use Rattle.wit_scopes.specs.View as scope_view;
ghost use Rattle.wit_rules.specs.Breaks.{IsFaultOf};
ghost use Rattle.wit_rules.specs.DeclaredView.{IsDeclaredOf};
ghost use Rattle.wit_arena.specs.Meaning.{package_text};
ghost use Rattle.wit_placeholders.specs.Passed.wit_foreign-Needs.{AreUses, needs_in};
ghost use Rattle.wit_placeholders.specs.Passed.wit_foreign-View as asked;
ghost use Rattle.wit_package.specs.TopUses.{with_top_uses};
ghost use Rattle.wit_package.specs.Faults.{OneScopeBreaks};
ghost use Rattle.wit_package.specs.Steps as spec;

use crate::asked::{Start, start_of};
use crate::build::build;
use crate::made::package_of;
use crate::places::places_of;
use crate::top_uses;
use crate::versions::check_versions;
use std::alloc::{AllocError, Global};
use wit_built_worlds::item_order;
use wit_checked_files::declared_in;
use wit_checked_lookups::check_lookups;
use wit_placeholders::{ForeignItems, Need, foreign_items, foreign_needs};
use wit_rules::{Declared, PackageFault};
use wit_syntax::File;
use wit_types::UnresolvedPackage;

/// What a package is resolved to, whose interfaces and worlds stand at these places, behind what is there before.
fn built<'a>(
    alloc: Global,
    declared: &Declared<'a>,
    needs: &[Need<'a>],
    items: &ForeignItems<'a>,
    interfaces: &[usize],
    own_worlds: &[usize],
    start: Start<'a>,
) -> Result<UnresolvedPackage, PackageFault>
    requires { (files : List FileTree) × (me : PackageNameTree) × spec.AreSet files me declared.now (map scope_view.item_scope declared.now.scopes.items) (asked.needs needs.now) items.now start.building.known start.building.types start.building.natures start.building.interfaces start.worlds.names start.worlds.worlds start.spans.items interfaces.now own_worlds.now }
    ensures ok { (files : List FileTree) (me : PackageNameTree) → spec.AreSet files me declared.now (map scope_view.item_scope declared.now.scopes.items) (asked.needs needs.now) items.now start.entry.building.known start.entry.building.types start.entry.building.natures start.entry.building.interfaces start.entry.worlds.names start.entry.worlds.worlds start.entry.spans.items interfaces.now own_worlds.now → IfOk result (spec.IsResolvedIn files me) }
    ensures cause { (files : List FileTree) (me : PackageNameTree) → spec.AreSet files me declared.now (map scope_view.item_scope declared.now.scopes.items) (asked.needs needs.now) items.now start.entry.building.known start.entry.building.types start.entry.building.natures start.entry.building.interfaces start.entry.worlds.names start.entry.worlds.worlds start.entry.spans.items interfaces.now own_worlds.now → IfErr result (IsFaultOf (OneScopeBreaks (package_text me) (package_scopes me files))) }
{
    let Start {
        building,
        worlds,
        spans,
    } = start;
    let mut building = building;
    let mut worlds = worlds;
    match build(
        declared.scopes.as_slice(),
        &mut building,
        &mut worlds,
        items,
        interfaces,
        own_worlds,
    ) {
        Ok(()) => Ok(package_of(
            alloc,
            &declared.name,
            &declared.docs,
            items,
            needs,
            building,
            worlds.worlds,
            spans,
        )?),
        Err(fault) => Err(fault),
    }
}

/// What a package is resolved to, of which all names are found, in the order of its interfaces and worlds.
fn resolved_in<'a>(
    alloc: Global,
    declared: &Declared<'a>,
    needs: &[Need<'a>],
    order: &[usize],
) -> Result<UnresolvedPackage, PackageFault>
    requires { (files : List FileTree) × (me : PackageNameTree) × spec.AreChecked files me declared.now (map scope_view.item_scope declared.now.scopes.items) (asked.needs needs.now) order.now }
    ensures ok { (files : List FileTree) (me : PackageNameTree) → spec.AreChecked files me declared.now (map scope_view.item_scope declared.now.scopes.items) (asked.needs needs.now) order.now → IfOk result (spec.IsResolvedIn files me) }
    ensures cause { (files : List FileTree) (me : PackageNameTree) → spec.AreChecked files me declared.now (map scope_view.item_scope declared.now.scopes.items) (asked.needs needs.now) order.now → IfErr result (IsFaultOf (OneScopeBreaks (package_text me) (package_scopes me files))) }
{
    let places = places_of(alloc, declared.scopes.as_slice(), order)?;
    let items = foreign_items(alloc, needs)?;
    let start = start_of(alloc, &items, needs, places.interfaces.len())?;
    built(
        alloc,
        declared,
        needs,
        &items,
        places.interfaces.as_slice(),
        places.worlds.as_slice(),
        start,
    )
}

/// All that the files of a package ask of others.
fn needs_of<'a>(alloc: Global, declared: &Declared<'a>) -> Result<Vec<Need<'a>>, AllocError>
    ensures needs { IfOk result (λ v. asked.needs v.items ≡ with_top_uses (view.package_name declared.now.name) (scope_view.uses declared.now.uses.items) (needs_in (map scope_view.item_scope declared.now.scopes.items))) }
    ensures uses { IfOk result (λ v. AreUses (asked.needs v.items)) }
{
    let needs = foreign_needs(alloc, declared.scopes.as_slice())?;
    top_uses::with_top_uses(alloc, &declared.name, declared.uses.as_slice(), needs)
}

/// What a package is resolved to of which this is what its files declare.
fn resolved(alloc: Global, declared: &Declared<'_>) -> Result<UnresolvedPackage, PackageFault>
    requires { (files : List FileTree) × IsDeclaredOf files declared.now }
    ensures ok { (files : List FileTree) → IsDeclaredOf files declared.now → IfOk result (spec.Resolves files) }
    ensures cause { (files : List FileTree) → IsDeclaredOf files declared.now → IfErr result (spec.Refuses files) }
{
    check_lookups(alloc, declared)?;
    let needs = needs_of(alloc, declared)?;
    check_versions(&declared.name, needs.as_slice())?;
    let order = item_order(alloc, declared.scopes.as_slice())?;
    resolved_in(alloc, declared, needs.as_slice(), order.as_slice())
}

/// The same, or why the files were refused.
fn resolved_if(
    alloc: Global,
    declared: &Result<Declared<'_>, PackageFault>,
) -> Result<UnresolvedPackage, PackageFault>
    requires { (files : List FileTree) × spec.IsDeclaredIf files declared.now }
    ensures ok { (files : List FileTree) → spec.IsDeclaredIf files declared.now → IfOk result (spec.Resolves files) }
    ensures cause { (files : List FileTree) → spec.IsDeclaredIf files declared.now → IfErr result (spec.Refuses files) }
{
    match declared {
        Ok(declared) => resolved(alloc, declared),
        Err(fault) => Err(*fault),
    }
}

/// What the files of a package are resolved to (WIT, Packages): its interfaces, worlds and types, each as the files have it, with
/// what they ask of other packages, whose names stay foreign. A package that is nested in a file is none of its own.
///
/// Files that break a rule are refused for one that they break, at its place: P1 to P11, or S5 where `semver` doesn't read a
/// version of a tree. A missing name (P4) comes before a circle (P6).
pub fn resolved_files(
    alloc: Global,
    files: Vec<File<'_>>,
) -> Result<UnresolvedPackage, PackageFault>
    ensures ok { IfOk result (spec.Resolves (map view.file files.entry.items)) }
    ensures cause { IfErr result (spec.Refuses (map view.file files.entry.items)) }
{
    let declared = declared_in(alloc, files);
    resolved_if(alloc, &declared)
}
