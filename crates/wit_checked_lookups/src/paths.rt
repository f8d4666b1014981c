//! Paths, and what is used from where they lead.

ghost use Rattle.std.specs.Prelude.{◌≡◌, map, slice_get, Some, IfOk, OnOk, IfErr};
ghost use Rattle.wit_syntax.specs.AstView as view;
ghost use Rattle.wit_scopes.specs.View as scope_view;
ghost use Rattle.wit_rules.specs.Breaks.{IsKept, IsFaultOf};
ghost use Rattle.wit_lookups.specs.Lookups as spec;
ghost use Rattle.wit_lookups.specs.Names as names;
ghost use Rattle.wit_checked_lookups.specs.View as seen;

use crate::found::check_found;
use crate::names::{PackageNames, has_name, is_one_of, other_names};
use name_places::FirstPlaces;
use std::alloc::{AllocError, Global};
use wit_lookups::Found;
use wit_rules::PackageFault;
use wit_scopes::{ItemScope, Member, Target};
use wit_syntax::Id;

/// What is found under a name where an interface is asked for.
fn found_interface(scopes: &[ItemScope<'_>], index: &PackageNames<'_>, name: &str) -> Found
    requires { seen.AreNames (map scope_view.item_scope scopes.now) index.now }
    ensures { result ≡ spec.found_interface (names.item_of (map scope_view.item_scope scopes.now) name.now) }
{
    let Some(place) = index.items.first(name) else {
        return Found::Missing;
    };
    match scopes.get(place) {
        Some(ItemScope::Interface(_)) => Found::There,
        Some(ItemScope::World(_)) => Found::OfAnotherKind,
        None => Found::Missing,
    }
}

/// What is found under a name where a world is asked for.
fn found_world(scopes: &[ItemScope<'_>], index: &PackageNames<'_>, name: &str) -> Found
    requires { seen.AreNames (map scope_view.item_scope scopes.now) index.now }
    ensures { result ≡ spec.found_world (names.item_of (map scope_view.item_scope scopes.now) name.now) }
{
    let Some(place) = index.items.first(name) else {
        return Found::Missing;
    };
    match scopes.get(place) {
        Some(ItemScope::Interface(_)) => Found::OfAnotherKind,
        Some(ItemScope::World(_)) => Found::There,
        None => Found::Missing,
    }
}

/// What is found under a name where an interface or a world is asked for.
fn found_item(scopes: &[ItemScope<'_>], index: &PackageNames<'_>, name: &str) -> Found
    requires { seen.AreNames (map scope_view.item_scope scopes.now) index.now }
    ensures { result ≡ spec.found_item (names.item_of (map scope_view.item_scope scopes.now) name.now) }
{
    let Some(place) = index.items.first(name) else {
        return Found::Missing;
    };
    match scopes.get(place) {
        Some(_) => Found::There,
        None => Found::Missing,
    }
}

/// Refuses a path of the own package that leads to no interface.
pub fn check_interface_path(
    scopes: &[ItemScope<'_>],
    index: &PackageNames<'_>,
    path: &Target<'_>,
) -> Result<(), PackageFault>
    requires { seen.AreNames (map scope_view.item_scope scopes.now) index.now }
    ensures ok { OnOk result (IsKept (spec.PathBreaks spec.found_interface (map scope_view.item_scope scopes.now) (scope_view.target path.now))) }
    ensures cause { IfErr result (IsFaultOf (spec.PathBreaks spec.found_interface (map scope_view.item_scope scopes.now) (scope_view.target path.now))) }
{
    match path {
        Target::Own(name) => check_found(found_interface(scopes, index, name.name), name),
        Target::Foreign { .. } => Ok(()),
    }
}

/// Refuses a path of the own package that leads to no world.
pub fn check_world_path(
    scopes: &[ItemScope<'_>],
    index: &PackageNames<'_>,
    path: &Target<'_>,
) -> Result<(), PackageFault>
    requires { seen.AreNames (map scope_view.item_scope scopes.now) index.now }
    ensures ok { OnOk result (IsKept (spec.PathBreaks spec.found_world (map scope_view.item_scope scopes.now) (scope_view.target path.now))) }
    ensures cause { IfErr result (IsFaultOf (spec.PathBreaks spec.found_world (map scope_view.item_scope scopes.now) (scope_view.target path.now))) }
{
    match path {
        Target::Own(name) => check_found(found_world(scopes, index, name.name), name),
        Target::Foreign { .. } => Ok(()),
    }
}

/// Refuses a path of the own package that leads nowhere.
pub fn check_item_path(
    scopes: &[ItemScope<'_>],
    index: &PackageNames<'_>,
    path: &Target<'_>,
) -> Result<(), PackageFault>
    requires { seen.AreNames (map scope_view.item_scope scopes.now) index.now }
    ensures ok { OnOk result (IsKept (spec.PathBreaks spec.found_item (map scope_view.item_scope scopes.now) (scope_view.target path.now))) }
    ensures cause { IfErr result (IsFaultOf (spec.PathBreaks spec.found_item (map scope_view.item_scope scopes.now) (scope_view.target path.now))) }
{
    match path {
        Target::Own(name) => check_found(found_item(scopes, index, name.name), name),
        Target::Foreign { .. } => Ok(()),
    }
}

/// What is found under a name where a type is asked for that is used from elsewhere: these are the members there, and these
/// their types.
fn found_in(
    alloc: Global,
    members: &[Member<'_>],
    types: &FirstPlaces<'_>,
    name: &str,
) -> Result<Found, AllocError>
    ensures { IfOk result (λ f. f ≡ spec.found_type types.now (names.other_names (scope_view.members members.now)) name.now) }
{
    if has_name(types, name) {
        return Ok(Found::There);
    }
    // What else is there is looked through only where the name is refused.
    let others = other_names(alloc, members)?;
    if is_one_of(others.as_slice(), name) {
        Ok(Found::OfAnotherKind)
    } else {
        Ok(Found::Missing)
    }
}

/// Refuses a name that is none of a type of the interface; of a world no type is used.
fn check_type_of_item(
    alloc: Global,
    item: &ItemScope<'_>,
    types: &FirstPlaces<'_>,
    name: &Id<'_>,
) -> Result<(), PackageFault>
    requires { types.now ≡ names.item_type_names (scope_view.item_scope item.now) }
    ensures ok { OnOk result (IsKept (spec.TypeOfItemBreaks (Some (scope_view.item_scope item.now)) (view.id name.now))) }
    ensures cause { IfErr result (IsFaultOf (spec.TypeOfItemBreaks (Some (scope_view.item_scope item.now)) (view.id name.now))) }
{
    match item {
        ItemScope::Interface(interface) => {
            let found = found_in(alloc, interface.members.as_slice(), types, name.name)?;
            check_found(found, name)
        }
        ItemScope::World(_) => Ok(()),
    }
}

/// Refuses a name that is none of a type of the interface at that place.
fn check_type_at(
    alloc: Global,
    scopes: &[ItemScope<'_>],
    index: &PackageNames<'_>,
    place: usize,
    name: &Id<'_>,
) -> Result<(), PackageFault>
    requires { seen.AreNames (map scope_view.item_scope scopes.now) index.now }
    ensures ok { OnOk result (IsKept (spec.TypeOfItemBreaks (slice_get (map scope_view.item_scope scopes.now) place) (view.id name.now))) }
    ensures cause { IfErr result (IsFaultOf (spec.TypeOfItemBreaks (slice_get (map scope_view.item_scope scopes.now) place) (view.id name.now))) }
{
    match scopes.get(place) {
        Some(item) => check_type_of_item(alloc, item, &index.types[place], name),
        None => Ok(()),
    }
}

/// Refuses a name that is used from an interface of the own package which has no such type.
fn check_used_type(
    alloc: Global,
    scopes: &[ItemScope<'_>],
    index: &PackageNames<'_>,
    path: &Target<'_>,
    name: &Id<'_>,
) -> Result<(), PackageFault>
    requires { seen.AreNames (map scope_view.item_scope scopes.now) index.now }
    ensures ok { OnOk result (IsKept (spec.UsedTypeBreaks (map scope_view.item_scope scopes.now) (scope_view.target path.now) (view.id name.now))) }
    ensures cause { IfErr result (IsFaultOf (spec.UsedTypeBreaks (map scope_view.item_scope scopes.now) (scope_view.target path.now) (view.id name.now))) }
{
    match path {
        Target::Own(item) => match index.items.first(item.name) {
            Some(place) => check_type_at(alloc, scopes, index, place, name),
            None => Ok(()),
        },
        Target::Foreign { .. } => Ok(()),
    }
}

/// Refuses a name that is used from where it isn't.
pub fn check_use(
    alloc: Global,
    scopes: &[ItemScope<'_>],
    index: &PackageNames<'_>,
    path: &Target<'_>,
    name: &Id<'_>,
) -> Result<(), PackageFault>
    requires { seen.AreNames (map scope_view.item_scope scopes.now) index.now }
    ensures ok { OnOk result (IsKept (spec.UseBreaks (map scope_view.item_scope scopes.now) (scope_view.target path.now) (view.id name.now))) }
    ensures cause { IfErr result (IsFaultOf (spec.UseBreaks (map scope_view.item_scope scopes.now) (scope_view.target path.now) (view.id name.now))) }
{
    check_interface_path(scopes, index, path)?;
    check_used_type(alloc, scopes, index, path, name)
}
