//! Needs that are parted by what they ask for.

ghost use Rattle.std.specs.Prelude.{◌≡◌, ℕ, ◌<◌, List, ◌∷◌, ◌++◌, [], Some, slice_get, set, map, length, IfOk, OnOk, IfSome, IfNone};
ghost use Rattle.wit_lookups.specs.Passed.wit_syntax-AstView as view;
ghost use Rattle.wit_package_types.specs.Passed.wit_arena-Meaning.{Has, package_text};
ghost use Rattle.wit_foreign.specs.Needs.{NeedTree};
ghost use Rattle.wit_foreign.specs.View as seen;
ghost use Rattle.wit_foreign.specs.GroupView as parts;
ghost use Rattle.wit_foreign.specs.Groups as spec;

use crate::needs::Need;
use indexmap::IndexSet;
use name_places::FirstPlaces;
use std::alloc::{AllocError, Global};
use wit_lookups::PackageName;

/// Needs in parts, in the order in which each first comes.
#[derive(Drop)]
pub struct Groups<'a> {
    /// The first need of each part.
    pub firsts: Vec<Need<'a>>,
    /// Each part in order.
    pub rows: Vec<Vec<Need<'a>>>,
}

/// A package by its texts. `==` compares these.
#[derive(Clone, Copy, PartialEq, Eq, Hash)]
pub struct PackagePath<'a> {
    /// The namespace.
    pub namespace: &'a str,
    /// The name.
    pub name: &'a str,
    /// The version, if there is one.
    pub version: Option<&'a str>,
}

/// The texts of a package.
fn package_path<'a>(from: &PackageName<'a>) -> PackagePath<'a>
    ensures { parts.path_text result ≡ package_text (view.package_name from.now) }
{
    PackagePath {
        namespace: from.namespace.name,
        name: from.name.name,
        version: from.version.map(|version| version.text),
    }
}

/// The place of a package among others.
fn package_place<'a>(packages: &IndexSet<PackagePath<'a>>, path: &PackagePath<'a>) -> Option<usize>
    ensures some { IfSome result (λ k. slice_get (map parts.path_text packages.now.keys) k ≡ Some (parts.path_text path.now)) }
    ensures none { IfNone result (Has (map parts.path_text packages.now.keys) (parts.path_text path.now) → ⊥) }
{
    packages.get_index_of(path)
}

/// Puts a package that isn't there behind others.
fn add_package<'a>(
    packages: &mut IndexSet<PackagePath<'a>>,
    path: PackagePath<'a>,
) -> Result<(), AllocError>
    requires { Has (map parts.path_text packages.old.keys) (parts.path_text path) → ⊥ }
    ensures { OnOk result (map parts.path_text packages.new.keys ≡ map parts.path_text packages.old.keys ++ parts.path_text path.entry ∷ []) }
{
    packages.insert(path)?;
    Ok(())
}

/// Adds a need to the end of the part at a place.
fn join<'a>(rows: &mut Vec<Vec<Need<'a>>>, place: usize, need: Need<'a>) -> Result<(), AllocError>
    requires { place < length rows.old.items }
    ensures { OnOk result ((row : List NeedTree) → slice_get (parts.rows rows.old.items) place ≡ Some row → parts.rows rows.new.items ≡ set (parts.rows rows.old.items) place (row ++ seen.need need.entry ∷ [])) }
{
    rows[place].push(need)?;
    Ok(())
}

/// Begins a part with a need; it goes last.
fn begin<'a>(
    alloc: Global,
    firsts: &mut Vec<Need<'a>>,
    rows: &mut Vec<Vec<Need<'a>>>,
    need: Need<'a>,
) -> Result<(), AllocError>
    ensures firsts { OnOk result (seen.needs firsts.new.items ≡ seen.needs firsts.old.items ++ seen.need need.entry ∷ []) }
    ensures rows { OnOk result (parts.rows rows.new.items ≡ parts.rows rows.old.items ++ (seen.need need.entry ∷ []) ∷ []) }
{
    let mut row = Vec::new(alloc);
    let copy = need.clone()?;
    row.push(copy)?;
    firsts.push(need)?;
    rows.push(row)?;
    Ok(())
}

/// Adds a need to the part of the same name, or begins one.
fn add_by_item<'a>(
    alloc: Global,
    names: &mut FirstPlaces<'a>,
    firsts: &mut Vec<Need<'a>>,
    rows: &mut Vec<Vec<Need<'a>>>,
    need: Need<'a>,
) -> Result<(), AllocError>
    requires names { names.old ≡ map spec.item_key (seen.needs firsts.old.items) }
    requires rows { length rows.old.items ≡ length firsts.old.items }
    ensures names { OnOk result (names.new ≡ map spec.item_key (seen.needs firsts.new.items)) }
    ensures groups { OnOk result (spec.AddsNeed spec.item_key (seen.need need.entry) (seen.needs firsts.old.items) (parts.rows rows.old.items) (seen.needs firsts.new.items) (parts.rows rows.new.items)) }
{
    match names.first(need.item.name) {
        Some(place) => join(rows, place, need),
        None => {
            names.push(need.item.name)?;
            begin(alloc, firsts, rows, need)
        }
    }
}

/// Needs parted by the names of their items.
pub fn by_item<'a>(alloc: Global, needs: &[Need<'a>]) -> Result<Groups<'a>, AllocError>
    ensures { IfOk result (λ g. spec.AreGroups spec.item_key (seen.needs needs.now) (seen.needs g.firsts.items) (parts.rows g.rows.items)) }
{
    let mut names = FirstPlaces::new(alloc);
    let mut firsts = Vec::new(alloc);
    let mut rows = Vec::new(alloc);
    for need in needs {
        let copy = need.clone()?;
        add_by_item(alloc, &mut names, &mut firsts, &mut rows, copy)?;
    }
    Ok(Groups { firsts, rows })
}

/// Adds a need to the part of the same package, or begins one.
fn add_by_package<'a>(
    alloc: Global,
    packages: &mut IndexSet<PackagePath<'a>>,
    firsts: &mut Vec<Need<'a>>,
    rows: &mut Vec<Vec<Need<'a>>>,
    need: Need<'a>,
) -> Result<(), AllocError>
    requires packages { map parts.path_text packages.old.keys ≡ map spec.package_key (seen.needs firsts.old.items) }
    requires rows { length rows.old.items ≡ length firsts.old.items }
    ensures packages { OnOk result (map parts.path_text packages.new.keys ≡ map spec.package_key (seen.needs firsts.new.items)) }
    ensures groups { OnOk result (spec.AddsNeed spec.package_key (seen.need need.entry) (seen.needs firsts.old.items) (parts.rows rows.old.items) (seen.needs firsts.new.items) (parts.rows rows.new.items)) }
{
    let path = package_path(&need.package);
    match package_place(packages, &path) {
        Some(place) => join(rows, place, need),
        None => {
            add_package(packages, path)?;
            begin(alloc, firsts, rows, need)
        }
    }
}

/// Needs parted by their packages.
pub fn by_package<'a>(alloc: Global, needs: &[Need<'a>]) -> Result<Groups<'a>, AllocError>
    ensures { IfOk result (λ g. spec.AreGroups spec.package_key (seen.needs needs.now) (seen.needs g.firsts.items) (parts.rows g.rows.items)) }
{
    let mut packages = IndexSet::new(alloc);
    let mut firsts = Vec::new(alloc);
    let mut rows = Vec::new(alloc);
    for need in needs {
        let copy = need.clone()?;
        add_by_package(alloc, &mut packages, &mut firsts, &mut rows, copy)?;
    }
    Ok(Groups { firsts, rows })
}
