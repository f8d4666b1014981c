//! Names in the files of a package.

ghost use Rattle.std.specs.Prelude.{◌≡◌, map, slice_get, Some, OnOk, IfErr};
ghost use Rattle.wit_syntax.specs.AstView as view;
ghost use Rattle.wit_scopes.specs.View as scope_view;
ghost use Rattle.wit_rules.specs.Breaks.{IsKept, IsFaultOf, AnyBreaks};
ghost use Rattle.wit_lookups.specs.Lookups as spec;
ghost use Rattle.wit_lookups.specs.Names as names;
ghost use Rattle.wit_checked_lookups.specs.View as seen;

use crate::asks::{check_asks, foreign_asks};
use crate::members::check_members;
use crate::names::{PackageNames, known_names, package_names};
use crate::paths::check_item_path;
use crate::worlds::check_world;
use name_places::FirstPlaces;
use std::alloc::Global;
use wit_rules::{Declared, PackageFault};
use wit_scopes::{ItemScope, path_by_itself};
use wit_syntax::{PackageName, ToplevelUse};

/// The number of the file in which an interface or a world stands.
fn item_file(item: &ItemScope<'_>) -> usize
    ensures { result ≡ names.item_file (scope_view.item_scope item.now) }
{
    match item {
        ItemScope::Interface(interface) => interface.file,
        ItemScope::World(world) => world.file,
    }
}

/// Refuses an interface or a world in which a name isn't found.
fn check_item<'a>(
    alloc: Global,
    scopes: &[ItemScope<'a>],
    index: &PackageNames<'a>,
    known: &FirstPlaces<'a>,
    types: &FirstPlaces<'a>,
    item: &ItemScope<'a>,
) -> Result<(), PackageFault>
    requires names { seen.AreNames (map scope_view.item_scope scopes.now) index.now }
    requires types { types.now ≡ names.item_type_names (scope_view.item_scope item.now) }
    ensures ok { OnOk result (IsKept (spec.ItemBreaks (map scope_view.item_scope scopes.now) known.now (scope_view.item_scope item.now))) }
    ensures cause { IfErr result (IsFaultOf (spec.ItemBreaks (map scope_view.item_scope scopes.now) known.now (scope_view.item_scope item.now))) }
{
    match item {
        ItemScope::Interface(interface) => check_members(
            alloc,
            scopes,
            index,
            known,
            types,
            interface.members.as_slice(),
        ),
        ItemScope::World(world) => check_world(alloc, scopes, index, known, types, world),
    }
}

/// Refuses the interface or world at that place where a name isn't found in it. These names are known in each file.
fn check_item_at<'a>(
    alloc: Global,
    scopes: &[ItemScope<'a>],
    index: &PackageNames<'a>,
    known: &[FirstPlaces<'a>],
    place: usize,
    item: &ItemScope<'a>,
) -> Result<(), PackageFault>
    requires names { seen.AreNames (map scope_view.item_scope scopes.now) index.now }
    requires there { slice_get scopes.now place ≡ Some item.now }
    ensures ok { OnOk result (IsKept (spec.ItemBreaks (map scope_view.item_scope scopes.now) (names.known_at known.now (names.item_file (scope_view.item_scope item.now))) (scope_view.item_scope item.now))) }
    ensures cause { IfErr result (IsFaultOf (spec.ItemBreaks (map scope_view.item_scope scopes.now) (names.known_at known.now (names.item_file (scope_view.item_scope item.now))) (scope_view.item_scope item.now))) }
{
    let types = &index.types[place];
    match known.get(item_file(item)) {
        Some(known) => check_item(alloc, scopes, index, known, types, item),
        None => {
            let nothing = FirstPlaces::new(alloc);
            check_item(alloc, scopes, index, &nothing, types, item)
        }
    }
}

/// Refuses interfaces and worlds of which one names what isn't there. These names are known in each file.
fn check_items<'a>(
    alloc: Global,
    scopes: &[ItemScope<'a>],
    index: &PackageNames<'a>,
    known: &[FirstPlaces<'a>],
) -> Result<(), PackageFault>
    requires { seen.AreNames (map scope_view.item_scope scopes.now) index.now }
    ensures ok { OnOk result (IsKept (spec.ItemsBreak (map scope_view.item_scope scopes.now) known.now)) }
    ensures cause { IfErr result (IsFaultOf (spec.ItemsBreak (map scope_view.item_scope scopes.now) known.now)) }
{
    for (place, item) in scopes.iter().enumerate() {
        check_item_at(alloc, scopes, index, known, place, item)?;
    }
    Ok(())
}

/// Refuses a `use` at the top of a file that names nothing of the package.
fn check_top_use<'a>(
    me: &PackageName<'a>,
    scopes: &[ItemScope<'a>],
    index: &PackageNames<'a>,
    item: &ToplevelUse<'a>,
) -> Result<(), PackageFault>
    requires { seen.AreNames (map scope_view.item_scope scopes.now) index.now }
    ensures ok { OnOk result (IsKept (spec.TopUseBreaks (view.package_name me.now) (map scope_view.item_scope scopes.now) (view.toplevel_use item.now))) }
    ensures cause { IfErr result (IsFaultOf (spec.TopUseBreaks (view.package_name me.now) (map scope_view.item_scope scopes.now) (view.toplevel_use item.now))) }
{
    let path = path_by_itself(me, &item.item);
    check_item_path(scopes, index, &path)
}

/// Refuses a file with a `use` at its top of what isn't there.
fn check_file<'a>(
    me: &PackageName<'a>,
    scopes: &[ItemScope<'a>],
    index: &PackageNames<'a>,
    uses: &[ToplevelUse<'a>],
) -> Result<(), PackageFault>
    requires { seen.AreNames (map scope_view.item_scope scopes.now) index.now }
    ensures ok { OnOk result (IsKept (spec.FileBreaks (view.package_name me.now) (map scope_view.item_scope scopes.now) (map view.toplevel_use uses.now))) }
    ensures cause { IfErr result (IsFaultOf (spec.FileBreaks (view.package_name me.now) (map scope_view.item_scope scopes.now) (map view.toplevel_use uses.now))) }
{
    for item in uses {
        if let Err(fault) = check_top_use(me, scopes, index, item) {
            return Err(fault);
        }
    }
    Ok(())
}

/// Refuses files of which one has a `use` at its top of what isn't there.
fn check_files<'a>(
    me: &PackageName<'a>,
    scopes: &[ItemScope<'a>],
    index: &PackageNames<'a>,
    files: &[Vec<ToplevelUse<'a>>],
) -> Result<(), PackageFault>
    requires { seen.AreNames (map scope_view.item_scope scopes.now) index.now }
    ensures ok { OnOk result (IsKept (AnyBreaks (spec.FileBreaks (view.package_name me.now) (map scope_view.item_scope scopes.now)) (scope_view.uses files.now))) }
    ensures cause { IfErr result (IsFaultOf (AnyBreaks (spec.FileBreaks (view.package_name me.now) (map scope_view.item_scope scopes.now)) (scope_view.uses files.now))) }
{
    for uses in files {
        check_file(me, scopes, index, uses.as_slice())?;
    }
    Ok(())
}

/// Refuses a package, of which this is what its files declare, where a name in them isn't found: P4 where nothing is there
/// under it, P5 where what is there is of another kind than its place asks, and P5 at the later of two places that ask for one
/// thing of another package as an interface and as a world. The place is that of the name.
pub fn check_lookups<'a>(alloc: Global, declared: &Declared<'a>) -> Result<(), PackageFault>
    ensures ok { OnOk result (IsKept (spec.LookupsBreak (view.package_name declared.now.name) (scope_view.uses declared.now.uses.items) (map scope_view.item_scope declared.now.scopes.items))) }
    ensures cause { IfErr result (IsFaultOf (spec.LookupsBreak (view.package_name declared.now.name) (scope_view.uses declared.now.uses.items) (map scope_view.item_scope declared.now.scopes.items))) }
{
    let scopes = declared.scopes.as_slice();
    let files = declared.uses.as_slice();
    let index = package_names(alloc, scopes)?;
    let known = known_names(alloc, files)?;
    check_items(alloc, scopes, &index, known.as_slice())?;
    check_files(&declared.name, scopes, &index, files)?;
    let asks = foreign_asks(alloc, scopes)?;
    check_asks(alloc, asks.as_slice())
}
