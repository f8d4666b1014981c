//! What worlds break.

ghost use Rattle.std.specs.Prelude.{◌≡◌, ◌++◌, map, OnOk, IfErr};
ghost use Rattle.wit_scopes.specs.View as scope_view;
ghost use Rattle.wit_rules.specs.Breaks.{IsKept, IsFaultOf};
ghost use Rattle.wit_rules.specs.Facts as spec;
ghost use Rattle.wit_rules.specs.Labels as names;
ghost use Rattle.wit_rules.specs.View as seen;

use crate::checked::{Checked, check_all, check_names, check_paths};
use crate::labels::{member_label, param_labels};
use crate::members::check_members;
use std::alloc::{AllocError, Global};
use wit_rules::{Label, PackageFault, check_front, target_text, written};
use wit_scopes::{ExternKind, Listed, Side, WorldMember};

/// Adds the label that a member has on a side.
fn add_label<'a>(
    alloc: Global,
    found: &mut Vec<Label<'a>>,
    side: Side,
    member: &WorldMember<'a>,
) -> Result<(), AllocError>
    ensures { OnOk result (map seen.label found.new.items ≡ map seen.label found.old.items ++ names.side_labels side (scope_view.world_member member.now)) }
{
    match member {
        WorldMember::Member(member) if side == Side::Import => {
            let label = member_label(alloc, member)?;
            found.push(label)?;
            Ok(())
        }
        WorldMember::Listed(listed) if side == listed.side => match &listed.kind {
            ExternKind::Function(_) | ExternKind::Interface(_) => {
                found.push(written(listed.name))?;
                Ok(())
            }
            ExternKind::Item(_) => Ok(()),
        },
        _ => Ok(()),
    }
}

/// Adds the path that a member has on a side.
fn add_path<'a>(
    alloc: Global,
    found: &mut Vec<Label<'a>>,
    side: Side,
    member: &WorldMember<'a>,
) -> Result<(), AllocError>
    ensures { OnOk result (map seen.label found.new.items ≡ map seen.label found.old.items ++ names.side_paths side (scope_view.world_member member.now)) }
{
    match member {
        WorldMember::Listed(
            Listed {
                side: there,
                name,
                kind: ExternKind::Item(target),
                ..
            },
        ) if side == *there => {
            let text = target_text(alloc, target)?;
            found.push(Label {
                text,
                span: name.span,
            })?;
            Ok(())
        }
        _ => Ok(()),
    }
}

/// Refuses labels of a side of which two have one key, and paths of which two are spelled alike.
fn check_side<'a>(
    alloc: Global,
    side: Side,
    members: &[WorldMember<'a>],
) -> Result<(), PackageFault>
    ensures ok { OnOk result (IsKept (spec.SideBreaks side (map scope_view.world_member members.now))) }
    ensures cause { IfErr result (IsFaultOf (spec.SideBreaks side (map scope_view.world_member members.now))) }
{
    let mut labels = Vec::new(alloc);
    let mut paths = Vec::new(alloc);
    for member in members {
        add_label(alloc, &mut labels, side, member)?;
        add_path(alloc, &mut paths, side, member)?;
    }
    check_names(alloc, labels.as_slice())?;
    check_paths(alloc, paths.as_slice())
}

/// Refuses what stands behind `import` or `export` where it breaks a rule.
fn check_extern<'a>(alloc: Global, kind: &ExternKind<'a>) -> Result<(), PackageFault>
    ensures ok { OnOk result (IsKept (spec.ExternBreaks (scope_view.extern_kind kind.now))) }
    ensures cause { IfErr result (IsFaultOf (spec.ExternBreaks (scope_view.extern_kind kind.now))) }
{
    match kind {
        ExternKind::Function(func) => {
            let params = param_labels(alloc, func.params.as_slice())?;
            check_names(alloc, params.as_slice())
        }
        ExternKind::Interface(members) => check_members(alloc, members.as_slice()),
        ExternKind::Item(_) => Ok(()),
    }
}

/// Refuses an import or export that breaks a rule.
fn check_listed<'a>(alloc: Global, listed: &Listed<'a>) -> Result<(), PackageFault>
    ensures ok { OnOk result (IsKept (spec.ListedBreaks (scope_view.listed listed.now))) }
    ensures cause { IfErr result (IsFaultOf (spec.ListedBreaks (scope_view.listed listed.now))) }
{
    check_front(&listed.front)?;
    check_extern(alloc, &listed.kind)
}

impl<'a> Checked for WorldMember<'a> {
    ghost breaks = { λ m. spec.WorldMemberBreaks (scope_view.world_member m) };

    fn check(&self, alloc: Global) -> Result<(), PackageFault> {
        match self {
            WorldMember::Member(member) => member.check(alloc),
            WorldMember::Listed(listed) => check_listed(alloc, listed),
            WorldMember::Included(included) => check_front(&included.front),
        }
    }
}

/// Refuses what members of a world break.
pub fn check_world<'a>(alloc: Global, members: &[WorldMember<'a>]) -> Result<(), PackageFault>
    ensures ok { OnOk result (IsKept (spec.WorldBreaks (map scope_view.world_member members.now))) }
    ensures cause { IfErr result (IsFaultOf (spec.WorldBreaks (map scope_view.world_member members.now))) }
{
    check_all(alloc, members)?;
    check_side(alloc, Side::Import, members)?;
    check_side(alloc, Side::Export, members)
}
