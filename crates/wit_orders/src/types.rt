//! The types of scopes, and their orders.

ghost use Rattle.std.specs.Prelude.{◌≡◌, ◌<◌, ℕ, [], ◌∷◌, ◌++◌, true, false, Some, is_some, map, length, slice_get, IfOk, OnOk, IfErr};
ghost use Rattle.std.specs.List.{list_all};
ghost use Rattle.name_places.specs.FirstPlaces.{place_of};
ghost use Rattle.wit_order.specs.Order.{Has};
ghost use Rattle.wit_type_names.specs.Passed.wit_scopes-Members.{MemberTree};
ghost use Rattle.wit_type_names.specs.Passed.wit_scopes-View as scope_view;
ghost use Rattle.wit_rules.specs.Breaks.{IsKept, IsFaultOf};
ghost use Rattle.wit_orders.specs.Needs as spec;
ghost use Rattle.wit_orders.specs.Rows.{AreBehindNeeds};
ghost use Rattle.wit_orders.specs.View as seen;

use crate::order::{Entry, order_of};
use name_places::FirstPlaces;
use std::alloc::{AllocError, Global};
use wit_rules::PackageFault;
use wit_type_names::{Id, Member, MemberKind, WorldMember, member_type_names};

/// Whether a member is a type.
fn is_type(kind: &MemberKind<'_>) -> bool
    ensures yes { result ≡ true → (m : MemberTree) → spec.type_of (scope_view.member_kind kind.now) m ≡ m ∷ [] }
    ensures no { result ≡ false → (m : MemberTree) → spec.type_of (scope_view.member_kind kind.now) m ≡ [] }
{
    matches!(kind, MemberKind::Used { .. } | MemberKind::Defined(_))
}

/// Adds a member where it is a type.
fn add_type<'a>(found: &mut Vec<Member<'a>>, member: &Member<'a>) -> Result<(), AllocError>
    ensures { OnOk result (scope_view.members found.new.items ≡ scope_view.members found.old.items ++ spec.member_type (scope_view.member member.now)) }
{
    if is_type(&member.kind) {
        let copy = member.clone()?;
        found.push(copy)?;
    }
    Ok(())
}

/// The types among the members of an interface, in their order.
pub fn scope_types<'a>(alloc: Global, members: &[Member<'a>]) -> Result<Vec<Member<'a>>, AllocError>
    ensures { IfOk result (λ v. scope_view.members v.items ≡ spec.types_of (scope_view.members members.now)) }
{
    let mut found = Vec::new(alloc);
    for member in members {
        add_type(&mut found, member)?;
    }
    Ok(found)
}

/// Adds a member of a world where it is a type.
fn add_world_type<'a>(
    found: &mut Vec<Member<'a>>,
    member: &WorldMember<'a>,
) -> Result<(), AllocError>
    ensures { OnOk result (scope_view.members found.new.items ≡ scope_view.members found.old.items ++ spec.world_member_type (scope_view.world_member member.now)) }
{
    match member {
        WorldMember::Member(member) => add_type(found, member),
        WorldMember::Listed(_) | WorldMember::Included(_) => Ok(()),
    }
}

/// Whether all members of an interface are types.
pub fn are_types(members: &[Member<'_>]) -> bool
    ensures yes { result ≡ true → spec.types_of (scope_view.members members.now) ≡ scope_view.members members.now }
    ensures no { result ≡ false → spec.types_of (scope_view.members members.now) ≡ scope_view.members members.now → ⊥ }
{
    for member in members {
        if !is_type(&member.kind) {
            return false;
        }
    }
    true
}

/// The types among the members of a world, in their order.
pub fn world_types<'a>(
    alloc: Global,
    members: &[WorldMember<'a>],
) -> Result<Vec<Member<'a>>, AllocError>
    ensures { IfOk result (λ v. scope_view.members v.items ≡ spec.world_types (map scope_view.world_member members.now)) }
{
    let mut found = Vec::new(alloc);
    for member in members {
        add_world_type(&mut found, member)?;
    }
    Ok(found)
}

/// The types by what they name.
fn type_entries<'a>(alloc: Global, types: &[Member<'a>]) -> Result<Vec<Entry<'a>>, AllocError>
    ensures { IfOk result (λ v. map seen.entry v.items ≡ map spec.type_entry (scope_view.members types.now)) }
{
    let mut found = Vec::with_capacity(alloc, types.len())?;
    for member in types {
        let needs = member_type_names(alloc, &member.kind)?;
        found.push(Entry {
            label: member.name,
            needs,
        })?;
    }
    Ok(found)
}

/// Whether these names are all among those.
fn are_among(known: &FirstPlaces<'_>, names: &[Id<'_>]) -> bool
    ensures { result ≡ list_all (λ n. is_some (place_of n.name.now known.now)) names.now }
{
    names.iter().all(|name| known.first(name.name).is_some())
}

/// Whether each of the types stands behind all that its definition names: then they need no sorting.
pub fn are_sorted<'a>(alloc: Global, types: &[Member<'a>]) -> Result<bool, AllocError>
    ensures yes { IfOk result (λ b. b ≡ true → spec.AreSorted (scope_view.members types.now) (scope_view.members types.now) × IsKept (spec.CircleBreaks (map spec.type_entry (scope_view.members types.now)))) }
    ensures no { IfOk result (λ b. b ≡ false → AreBehindNeeds (map spec.type_entry (scope_view.members types.now)) → ⊥) }
{
    let mut before = FirstPlaces::with_capacity(alloc, types.len())?;
    for member in types {
        let needs = member_type_names(alloc, &member.kind)?;
        if !are_among(&before, needs.as_slice()) {
            return Ok(false);
        }
        before.push(member.name.name)?;
    }
    Ok(true)
}

/// The places of the types of a scope, each behind all that its definition names, and of all such orders the least; or P6 at
/// the name of a type that leads back to itself.
pub fn type_order<'a>(alloc: Global, types: &[Member<'a>]) -> Result<Vec<usize>, PackageFault>
    ensures ok { IfOk result (λ o. spec.IsOrderOf (map spec.type_entry (scope_view.members types.now)) o.items × IsKept (spec.CircleBreaks (map spec.type_entry (scope_view.members types.now)))) }
    ensures cause { IfErr result (IsFaultOf (spec.CircleBreaks (map spec.type_entry (scope_view.members types.now)))) }
{
    let entries = type_entries(alloc, types)?;
    order_of(alloc, entries.as_slice())
}

/// The member at a place.
fn member_at<'s, 'a>(members: &'s [Member<'a>], place: usize) -> &'s Member<'a>
    requires { place < length members.now }
    ensures { slice_get (scope_view.members members.entry.now) place ≡ Some (scope_view.member result.now) }
{
    &members[place]
}

/// The members at these places.
fn members_at<'a>(
    alloc: Global,
    members: &[Member<'a>],
    places: &[usize],
) -> Result<Vec<Member<'a>>, AllocError>
    requires { (place : ℕ) → Has places.now place → place < length members.now }
    ensures { IfOk result (λ v. spec.AreAt (scope_view.members members.now) places.now (scope_view.members v.items)) }
{
    let mut found = Vec::with_capacity(alloc, places.len())?;
    for place in places {
        let copy = member_at(members, *place).clone()?;
        found.push(copy)?;
    }
    Ok(found)
}

/// The types of a scope, each behind all that its definition names, in the least of such orders; or P6 at the name of a type
/// that leads back to itself.
pub fn sorted_types<'a>(
    alloc: Global,
    types: &[Member<'a>],
) -> Result<Vec<Member<'a>>, PackageFault>
    ensures ok { IfOk result (λ v. spec.AreSorted (scope_view.members types.now) (scope_view.members v.items) × IsKept (spec.CircleBreaks (map spec.type_entry (scope_view.members types.now)))) }
    ensures cause { IfErr result (IsFaultOf (spec.CircleBreaks (map spec.type_entry (scope_view.members types.now)))) }
{
    let order = type_order(alloc, types)?;
    let sorted = members_at(alloc, types, order.as_slice())?;
    Ok(sorted)
}
