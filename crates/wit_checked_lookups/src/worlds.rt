//! Names in worlds.

ghost use Rattle.std.specs.Prelude.{◌≡◌, ◌++◌, map, OnOk, IfErr};
ghost use Rattle.wit_scopes.specs.View as scope_view;
ghost use Rattle.wit_rules.specs.Breaks.{IsKept, IsFaultOf};
ghost use Rattle.wit_lookups.specs.Lookups as spec;
ghost use Rattle.wit_lookups.specs.Names as names;
ghost use Rattle.wit_checked_lookups.specs.View as seen;

use crate::members::{check_inline, check_member, check_types};
use crate::names::{PackageNames, world_other_names};
use crate::paths::{check_interface_path, check_world_path};
use name_places::FirstPlaces;
use std::alloc::Global;
use wit_rules::PackageFault;
use wit_scopes::{ExternKind, ItemScope, WorldMember, WorldScope};
use wit_type_names::func_type_names;

/// Refuses what stands behind `import` or `export` where it names what isn't there.
fn check_extern<'a>(
    alloc: Global,
    scopes: &[ItemScope<'a>],
    index: &PackageNames<'a>,
    known: &FirstPlaces<'a>,
    types: &FirstPlaces<'a>,
    others: &[&'a str],
    kind: &ExternKind<'a>,
) -> Result<(), PackageFault>
    requires { seen.AreNames (map scope_view.item_scope scopes.now) index.now }
    ensures ok { OnOk result (IsKept (spec.ExternBreaks (map scope_view.item_scope scopes.now) known.now types.now (seen.texts others.now ++ known.now ++ index.now.items) (scope_view.extern_kind kind.now))) }
    ensures cause { IfErr result (IsFaultOf (spec.ExternBreaks (map scope_view.item_scope scopes.now) known.now types.now (seen.texts others.now ++ known.now ++ index.now.items) (scope_view.extern_kind kind.now))) }
{
    match kind {
        ExternKind::Function(func) => {
            let found = func_type_names(alloc, func)?;
            check_types(index, known, types, others, found.as_slice())
        }
        ExternKind::Interface(members) => {
            check_inline(alloc, scopes, index, known, members.as_slice())
        }
        ExternKind::Item(path) => check_interface_path(scopes, index, path),
    }
}

/// Refuses a member of a world in which a name isn't found.
fn check_world_member<'a>(
    alloc: Global,
    scopes: &[ItemScope<'a>],
    index: &PackageNames<'a>,
    known: &FirstPlaces<'a>,
    types: &FirstPlaces<'a>,
    others: &[&'a str],
    member: &WorldMember<'a>,
) -> Result<(), PackageFault>
    requires { seen.AreNames (map scope_view.item_scope scopes.now) index.now }
    ensures ok { OnOk result (IsKept (spec.WorldMemberBreaks (map scope_view.item_scope scopes.now) known.now types.now (seen.texts others.now ++ known.now ++ index.now.items) (scope_view.world_member member.now))) }
    ensures cause { IfErr result (IsFaultOf (spec.WorldMemberBreaks (map scope_view.item_scope scopes.now) known.now types.now (seen.texts others.now ++ known.now ++ index.now.items) (scope_view.world_member member.now))) }
{
    match member {
        WorldMember::Member(member) => check_member(
            alloc, scopes, index, known, types, others, member,
        ),
        WorldMember::Listed(listed) => {
            check_extern(alloc, scopes, index, known, types, others, &listed.kind)
        }
        WorldMember::Included(included) => check_world_path(scopes, index, &included.world),
    }
}

/// Refuses a world in which a name isn't found.
pub fn check_world<'a>(
    alloc: Global,
    scopes: &[ItemScope<'a>],
    index: &PackageNames<'a>,
    known: &FirstPlaces<'a>,
    types: &FirstPlaces<'a>,
    world: &WorldScope<'a>,
) -> Result<(), PackageFault>
    requires names { seen.AreNames (map scope_view.item_scope scopes.now) index.now }
    requires types { types.now ≡ names.world_type_names (map scope_view.world_member world.now.members.items) }
    ensures ok { OnOk result (IsKept (spec.WorldBreaks (map scope_view.item_scope scopes.now) known.now (scope_view.world_scope world.now))) }
    ensures cause { IfErr result (IsFaultOf (spec.WorldBreaks (map scope_view.item_scope scopes.now) known.now (scope_view.world_scope world.now))) }
{
    let others = world_other_names(alloc, world.members.as_slice())?;
    for member in &world.members {
        check_world_member(
            alloc,
            scopes,
            index,
            known,
            types,
            others.as_slice(),
            member,
        )?;
    }
    Ok(())
}
