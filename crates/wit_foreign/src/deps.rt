//! What is asked of each other package.

ghost use Rattle.std.specs.Prelude.{◌≡◌, ℕ, ◌∷◌, ◌++◌, [], List, map, length, string_bytes, IfOk, OnOk};
ghost use Rattle.wit_lookups.specs.Passed.wit_syntax-Ast.{PackageNameTree};
ghost use Rattle.wit_types.specs.declared.«package».AstItem.{AstItem};
ghost use Rattle.wit_lookups.specs.Passed.wit_syntax-AstView as view;
ghost use Rattle.wit_package_types.specs.Passed.wit_arena-Meaning.{Has, package_text};
ghost use Rattle.wit_package_types.specs.Stability.{IsReadWhere};
ghost use Rattle.wit_foreign.specs.Needs.{NeedTree};
ghost use Rattle.wit_foreign.specs.View as seen;
ghost use Rattle.wit_foreign.specs.GroupView as parts;
ghost use Rattle.wit_foreign.specs.Items.{need_owner, AreItemsOf};
ghost use Rattle.wit_foreign.specs.Groups.{AreApart, package_key, item_key};
ghost use Rattle.wit_foreign.specs.Deps as spec;

use crate::groups::{by_item, by_package};
use crate::items::ForeignItems;
use crate::needs::Need;
use indexmap::IndexMap;
use std::alloc::{AllocError, Global};
use wit_lookups::{Span, name_span};
use wit_package_types::{optional_version, stability_in};
use wit_types::{AstItem, PackageName, Stability};

/// What is asked of other packages.
#[derive(Drop)]
pub struct ForeignDeps {
    /// What is asked of each.
    pub deps: IndexMap<PackageName, wit_types::ForeignItems>,
    /// Where each is first asked for, in the same order.
    pub spans: Vec<Span>,
}

/// How stable what stands behind each need is, by the gates in front of it.
fn stabilities_of(alloc: Global, needs: &[Need<'_>]) -> Result<Vec<Stability>, AllocError>
    requires { spec.HaveGates (seen.needs needs.now) }
    ensures { IfOk result (λ v. spec.AreStabilities (seen.needs needs.now) v.items) }
{
    let mut found = Vec::new(alloc);
    for need in needs {
        let stability = stability_in(alloc, &need.front)?;
        found.push(stability)?;
    }
    Ok(found)
}

/// The id of what is asked for, which is there.
fn item_of<'a>(items: &ForeignItems<'a>, need: &Need<'a>) -> AstItem
    requires { (i : AstItem) × Has items.now (need_owner (seen.need need.now), i) }
    ensures { Has items.now (need_owner (seen.need need.now), result) }
{
    match items.get(&need.package, &need.item, need.asked) {
        Some(item) => item,
        None => unreachable!(),
    }
}

/// Puts an item behind the others; none of them has its name.
fn add_item<'a>(
    deps: &mut wit_types::ForeignItems,
    alloc: Global,
    items: &ForeignItems<'a>,
    first: &Need<'a>,
    needs: &[Need<'a>],
) -> Result<(), AllocError>
    requires new { (e : spec.ItemEntry) → Has deps.old.entries e → string_bytes e.0 ≡ first.now.item.name.now → ⊥ }
    requires there { (i : AstItem) × Has items.now (need_owner (seen.need first.now), i) }
    requires gates { spec.HaveGates (seen.needs needs.now) }
    ensures { OnOk result ((e : spec.ItemEntry) × spec.IsItemDep items.now (seen.need first.now) (seen.needs needs.now) e × (deps.new.entries ≡ deps.old.entries ++ e ∷ [])) }
{
    let name = String::from_str(alloc, first.item.name)?;
    let stabilities = stabilities_of(alloc, needs)?;
    deps.insert(name, (item_of(items, first), stabilities))?;
    Ok(())
}

/// What is asked of a package, parted by the names of its items.
fn items_in<'a>(
    alloc: Global,
    items: &ForeignItems<'a>,
    firsts: &[Need<'a>],
    rows: &[Vec<Need<'a>>],
) -> Result<wit_types::ForeignItems, AllocError>
    requires apart { AreApart item_key (seen.needs firsts.now) }
    requires rows { length rows.now ≡ length firsts.now }
    requires there { spec.HaveItems items.now (seen.needs firsts.now) }
    requires gates { (row : List NeedTree) → Has (parts.rows rows.now) row → spec.HaveGates row }
    ensures { IfOk result (λ d. spec.AreEntries (spec.IsItemDep items.now) (seen.needs firsts.now) (parts.rows rows.now) d.entries) }
{
    let mut deps = IndexMap::new(alloc);
    for (place, first) in firsts.iter().enumerate() {
        add_item(&mut deps, alloc, items, first, rows[place].as_slice())?;
    }
    Ok(deps)
}

/// What is asked of a package: its items by name, in the order in which they are first asked for.
fn item_deps<'a>(
    alloc: Global,
    items: &ForeignItems<'a>,
    needs: &[Need<'a>],
) -> Result<wit_types::ForeignItems, AllocError>
    requires there { spec.HaveItems items.now (seen.needs needs.now) }
    requires gates { spec.HaveGates (seen.needs needs.now) }
    ensures { IfOk result (λ d. spec.AreItemDeps items.now (seen.needs needs.now) d.entries) }
{
    let groups = by_item(alloc, needs)?;
    items_in(
        alloc,
        items,
        groups.firsts.as_slice(),
        groups.rows.as_slice(),
    )
}

/// The name of a package, whose version `semver` reads.
pub fn package_name(
    alloc: Global,
    name: &wit_lookups::PackageName<'_>,
) -> Result<PackageName, AllocError>
    requires { IsReadWhere (view.package_name name.now).version }
    ensures { IfOk result (spec.IsPackageName (view.package_name name.now)) }
{
    let namespace = String::from_str(alloc, name.namespace.name)?;
    let text = String::from_str(alloc, name.name.name)?;
    let version = optional_version(alloc, &name.version)?;
    Ok(PackageName {
        namespace,
        name: text,
        version,
    })
}

/// Puts a package behind the others; none of them has its name.
fn add_package<'a>(
    deps: &mut IndexMap<PackageName, wit_types::ForeignItems>,
    alloc: Global,
    items: &ForeignItems<'a>,
    first: &Need<'a>,
    needs: &[Need<'a>],
) -> Result<(), AllocError>
    requires new { (e : spec.PackageEntry) → Has (spec.package_entries deps.old.entries) e → (p : PackageNameTree) × spec.IsPackageName p e.0 × (package_text p ≡ package_text (seen.need first.now).«package» → ⊥) }
    requires version { IsReadWhere (view.package_name first.now.«package»).version }
    requires there { spec.HaveItems items.now (seen.needs needs.now) }
    requires gates { spec.HaveGates (seen.needs needs.now) }
    ensures { OnOk result ((e : spec.PackageEntry) × spec.IsPackageDep items.now (seen.need first.now) (seen.needs needs.now) e × (spec.package_entries deps.new.entries ≡ spec.package_entries deps.old.entries ++ e ∷ [])) }
{
    let name = package_name(alloc, &first.package)?;
    let found = item_deps(alloc, items, needs)?;
    deps.insert(name, found)?;
    Ok(())
}

/// What is asked of each package, parted by packages.
fn packages_in<'a>(
    alloc: Global,
    items: &ForeignItems<'a>,
    firsts: &[Need<'a>],
    rows: &[Vec<Need<'a>>],
) -> Result<IndexMap<PackageName, wit_types::ForeignItems>, AllocError>
    requires apart { AreApart package_key (seen.needs firsts.now) }
    requires rows { length rows.now ≡ length firsts.now }
    requires versions { spec.HaveVersions (seen.needs firsts.now) }
    requires there { (row : List NeedTree) → Has (parts.rows rows.now) row → spec.HaveItems items.now row }
    requires gates { (row : List NeedTree) → Has (parts.rows rows.now) row → spec.HaveGates row }
    ensures { IfOk result (λ d. spec.AreEntries (spec.IsPackageDep items.now) (seen.needs firsts.now) (parts.rows rows.now) (spec.package_entries d.entries)) }
{
    let mut deps = IndexMap::new(alloc);
    for (place, first) in firsts.iter().enumerate() {
        add_package(&mut deps, alloc, items, first, rows[place].as_slice())?;
    }
    Ok(deps)
}

/// Where the packages of needs are named.
fn spans_of(alloc: Global, needs: &[Need<'_>]) -> Result<Vec<Span>, AllocError>
    ensures { IfOk result (λ v. v.items ≡ map spec.package_span (seen.needs needs.now)) }
{
    let mut spans = Vec::new(alloc);
    for need in needs {
        spans.push(name_span(&need.package))?;
    }
    Ok(spans)
}

/// What is asked of each other package, in the order in which they are first asked for (WIT, Package Names), of needs whose
/// gates may stand together, with the ids of what is asked for, where `semver` reads each version.
pub fn foreign_deps<'a>(
    alloc: Global,
    items: &ForeignItems<'a>,
    needs: &[Need<'a>],
) -> Result<ForeignDeps, AllocError>
    requires there { spec.HaveItems items.now (seen.needs needs.now) }
    requires gates { spec.HaveGates (seen.needs needs.now) }
    requires versions { spec.HaveVersions (seen.needs needs.now) }
    ensures { IfOk result (λ d. spec.AreDeps items.now (seen.needs needs.now) (spec.package_entries d.deps.entries) d.spans.items) }
{
    let groups = by_package(alloc, needs)?;
    let firsts = groups.firsts.as_slice();
    let deps = packages_in(alloc, items, firsts, groups.rows.as_slice())?;
    let spans = spans_of(alloc, firsts)?;
    Ok(ForeignDeps { deps, spans })
}
