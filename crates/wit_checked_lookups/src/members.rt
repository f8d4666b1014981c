//! Names in the members of scopes.

ghost use Rattle.std.specs.Prelude.{◌≡◌, ◌++◌, map, OnOk, IfErr};
ghost use Rattle.wit_syntax.specs.AstView as view;
ghost use Rattle.wit_scopes.specs.View as scope_view;
ghost use Rattle.wit_rules.specs.Breaks.{IsKept, IsFaultOf};
ghost use Rattle.wit_lookups.specs.Lookups as spec;
ghost use Rattle.wit_lookups.specs.Names as names;
ghost use Rattle.wit_checked_lookups.specs.View as seen;

use crate::found::check_found;
use crate::names::{PackageNames, has_name, is_one_of, other_names, type_names};
use crate::paths::check_use;
use name_places::FirstPlaces;
use std::alloc::Global;
use wit_lookups::Found;
use wit_rules::PackageFault;
use wit_scopes::{ItemScope, Member, MemberKind};
use wit_syntax::Id;
use wit_type_names::member_type_names;

/// Whether something is known under a name besides the types of the scope: these others, what its file makes known, and the
/// interfaces and worlds of the package.
fn is_known_besides(
    index: &PackageNames<'_>,
    known: &FirstPlaces<'_>,
    others: &[&str],
    name: &str,
) -> bool
    ensures { result ≡ names.has (seen.texts others.now ++ known.now ++ index.now.items) name.now }
{
    let is_other = is_one_of(others, name);
    let is_known = has_name(known, name);
    let is_item = has_name(&index.items, name);
    is_other | is_known | is_item
}

/// What is found under a name where a type is asked for.
fn found_type(
    index: &PackageNames<'_>,
    known: &FirstPlaces<'_>,
    types: &FirstPlaces<'_>,
    others: &[&str],
    name: &str,
) -> Found
    ensures { result ≡ spec.found_type types.now (seen.texts others.now ++ known.now ++ index.now.items) name.now }
{
    if has_name(types, name) {
        Found::There
    } else if is_known_besides(index, known, others, name) {
        Found::OfAnotherKind
    } else {
        Found::Missing
    }
}

/// Refuses names of which one isn't that of a type of the scope.
pub fn check_types(
    index: &PackageNames<'_>,
    known: &FirstPlaces<'_>,
    types: &FirstPlaces<'_>,
    others: &[&str],
    found: &[Id<'_>],
) -> Result<(), PackageFault>
    ensures ok { OnOk result (IsKept (spec.TypesBreak types.now (seen.texts others.now ++ known.now ++ index.now.items) (map view.id found.now))) }
    ensures cause { IfErr result (IsFaultOf (spec.TypesBreak types.now (seen.texts others.now ++ known.now ++ index.now.items) (map view.id found.now))) }
{
    for name in found {
        check_found(found_type(index, known, types, others, name.name), name)?;
    }
    Ok(())
}

/// Refuses a member in which a name isn't found.
pub fn check_member(
    alloc: Global,
    scopes: &[ItemScope<'_>],
    index: &PackageNames<'_>,
    known: &FirstPlaces<'_>,
    types: &FirstPlaces<'_>,
    others: &[&str],
    member: &Member<'_>,
) -> Result<(), PackageFault>
    requires { seen.AreNames (map scope_view.item_scope scopes.now) index.now }
    ensures ok { OnOk result (IsKept (spec.MemberKindBreaks (map scope_view.item_scope scopes.now) types.now (seen.texts others.now ++ known.now ++ index.now.items) (scope_view.member_kind member.now.kind))) }
    ensures cause { IfErr result (IsFaultOf (spec.MemberKindBreaks (map scope_view.item_scope scopes.now) types.now (seen.texts others.now ++ known.now ++ index.now.items) (scope_view.member_kind member.now.kind))) }
{
    if let MemberKind::Used { from, name } = &member.kind {
        return check_use(alloc, scopes, index, from, name);
    }
    let found = member_type_names(alloc, &member.kind)?;
    check_types(index, known, types, others, found.as_slice())
}

/// Refuses members of an interface of which one names what isn't there.
pub fn check_members<'a>(
    alloc: Global,
    scopes: &[ItemScope<'a>],
    index: &PackageNames<'a>,
    known: &FirstPlaces<'a>,
    types: &FirstPlaces<'a>,
    members: &[Member<'a>],
) -> Result<(), PackageFault>
    requires names { seen.AreNames (map scope_view.item_scope scopes.now) index.now }
    requires types { types.now ≡ names.type_names (scope_view.members members.now) }
    ensures ok { OnOk result (IsKept (spec.OwnMembersBreak (map scope_view.item_scope scopes.now) known.now (scope_view.members members.now))) }
    ensures cause { IfErr result (IsFaultOf (spec.OwnMembersBreak (map scope_view.item_scope scopes.now) known.now (scope_view.members members.now))) }
{
    let others = other_names(alloc, members)?;
    for member in members {
        check_member(
            alloc,
            scopes,
            index,
            known,
            types,
            others.as_slice(),
            member,
        )?;
    }
    Ok(())
}

/// Refuses an interface that stands in a world where it names what isn't there.
pub fn check_inline<'a>(
    alloc: Global,
    scopes: &[ItemScope<'a>],
    index: &PackageNames<'a>,
    known: &FirstPlaces<'a>,
    members: &[Member<'a>],
) -> Result<(), PackageFault>
    requires { seen.AreNames (map scope_view.item_scope scopes.now) index.now }
    ensures ok { OnOk result (IsKept (spec.OwnMembersBreak (map scope_view.item_scope scopes.now) known.now (scope_view.members members.now))) }
    ensures cause { IfErr result (IsFaultOf (spec.OwnMembersBreak (map scope_view.item_scope scopes.now) known.now (scope_view.members members.now))) }
{
    let types = type_names(alloc, members)?;
    check_members(alloc, scopes, index, known, &types, members)
}
