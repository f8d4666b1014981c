//! The types and functions that belong to a world.

ghost use Rattle.std.specs.Prelude.{◌≡◌, ◌++◌, map, IfOk, OnOk};
ghost use Rattle.wit_scopes.specs.View as scope_view;
ghost use Rattle.wit_resolved_scopes.specs.Texts as spec;

use std::alloc::{AllocError, Global};
use wit_scopes::{ExternKind, Listed, Member, MemberKind, WorldMember};

/// Adds a function that a world imports or exports.
fn add_listed<'a>(found: &mut Vec<Member<'a>>, listed: &Listed<'a>) -> Result<(), AllocError>
    ensures { OnOk result (scope_view.members found.new.items ≡ scope_view.members found.old.items ++ spec.listed_member (scope_view.listed listed.now) (scope_view.extern_kind listed.now.kind)) }
{
    if let ExternKind::Function(func) = &listed.kind {
        let kind = MemberKind::Function(func.clone()?);
        let front = listed.front.clone()?;
        found.push(Member {
            name: listed.name,
            kind,
            front,
            span: listed.span,
        })?;
    }
    Ok(())
}

/// Adds what belongs to a world.
fn add_own<'a>(found: &mut Vec<Member<'a>>, member: &WorldMember<'a>) -> Result<(), AllocError>
    ensures { OnOk result (scope_view.members found.new.items ≡ scope_view.members found.old.items ++ spec.own_member (scope_view.world_member member.now)) }
{
    match member {
        WorldMember::Member(member) => {
            let copy = member.clone()?;
            found.push(copy)?;
            Ok(())
        }
        WorldMember::Listed(listed) => add_listed(found, listed),
        WorldMember::Included(_) => Ok(()),
    }
}

/// The members that belong to a world, in the order of the text: its types with their functions, and the functions that it
/// imports and exports.
pub fn own_members<'a>(
    alloc: Global,
    members: &[WorldMember<'a>],
) -> Result<Vec<Member<'a>>, AllocError>
    ensures { IfOk result (λ v. scope_view.members v.items ≡ spec.own_members (map scope_view.world_member members.now)) }
{
    let mut found = Vec::new(alloc);
    for member in members {
        add_own(&mut found, member)?;
    }
    Ok(found)
}
