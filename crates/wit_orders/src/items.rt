//! The order of interfaces and worlds.

ghost use Rattle.std.specs.Prelude.{◌≡◌, ◌++◌, map, flat_map, IfOk, OnOk, IfErr};
ghost use Rattle.wit_type_names.specs.Passed.wit_syntax-AstView as view;
ghost use Rattle.wit_type_names.specs.Passed.wit_scopes-View as scope_view;
ghost use Rattle.wit_rules.specs.Breaks.{IsKept, IsFaultOf};
ghost use Rattle.wit_orders.specs.Needs as spec;
ghost use Rattle.wit_orders.specs.View as seen;

use crate::order::{Entry, order_of};
use std::alloc::{AllocError, Global};
use wit_rules::PackageFault;
use wit_type_names::{Id, ItemScope, Member, MemberKind, Target, WorldMember};

/// Adds the name of what a path leads to in the own package.
fn add_own<'a>(found: &mut Vec<Id<'a>>, path: &Target<'a>) -> Result<(), AllocError>
    ensures { OnOk result (map view.id found.new.items ≡ map view.id found.old.items ++ spec.own_names (scope_view.target path.now)) }
{
    if let Target::Own(name) = path {
        found.push(*name)?;
    }
    Ok(())
}

/// Adds the names of the interfaces of the own package from which members use types.
fn add_used<'a>(found: &mut Vec<Id<'a>>, members: &[Member<'a>]) -> Result<(), AllocError>
    ensures { OnOk result (map view.id found.new.items ≡ map view.id found.old.items ++ flat_map spec.member_item (scope_view.members members.now)) }
{
    for member in members {
        if let MemberKind::Used { from, .. } = &member.kind {
            add_own(found, from)?;
        }
    }
    Ok(())
}

/// Adds the names of the worlds of the own package that members include.
fn add_included<'a>(found: &mut Vec<Id<'a>>, members: &[WorldMember<'a>]) -> Result<(), AllocError>
    ensures { OnOk result (map view.id found.new.items ≡ map view.id found.old.items ++ flat_map spec.included_item (map scope_view.world_member members.now)) }
{
    for member in members {
        if let WorldMember::Included(included) = member {
            add_own(found, &included.world)?;
        }
    }
    Ok(())
}

/// An interface or a world by what it needs.
fn item_entry<'a>(alloc: Global, item: &ItemScope<'a>) -> Result<Entry<'a>, AllocError>
    ensures { IfOk result (λ e. seen.entry e ≡ spec.item_entry (scope_view.item_scope item.now)) }
{
    let mut needs = Vec::new(alloc);
    match item {
        ItemScope::Interface(interface) => {
            add_used(&mut needs, interface.members.as_slice())?;
            Ok(Entry {
                label: interface.name,
                needs,
            })
        }
        ItemScope::World(world) => {
            add_included(&mut needs, world.members.as_slice())?;
            Ok(Entry {
                label: world.name,
                needs,
            })
        }
    }
}

/// The interfaces and worlds by what they need.
fn item_entries<'a>(alloc: Global, scopes: &[ItemScope<'a>]) -> Result<Vec<Entry<'a>>, AllocError>
    ensures { IfOk result (λ v. map seen.entry v.items ≡ map spec.item_entry (map scope_view.item_scope scopes.now)) }
{
    let mut found = Vec::with_capacity(alloc, scopes.len())?;
    for item in scopes {
        let entry = item_entry(alloc, item)?;
        found.push(entry)?;
    }
    Ok(found)
}

/// The places of the interfaces and worlds of a package, each behind all that it needs: an interface behind those from which
/// it uses types, a world behind those that it includes. Of all such orders it is the least; or P6 at the name of one that
/// leads back to itself.
pub fn item_order<'a>(alloc: Global, scopes: &[ItemScope<'a>]) -> Result<Vec<usize>, PackageFault>
    ensures ok { IfOk result (λ o. spec.IsOrderOf (map spec.item_entry (map scope_view.item_scope scopes.now)) o.items × IsKept (spec.CircleBreaks (map spec.item_entry (map scope_view.item_scope scopes.now)))) }
    ensures cause { IfErr result (IsFaultOf (spec.CircleBreaks (map spec.item_entry (map scope_view.item_scope scopes.now)))) }
{
    let entries = item_entries(alloc, scopes)?;
    order_of(alloc, entries.as_slice())
}
