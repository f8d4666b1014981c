//! What the members of a scope break.

ghost use Rattle.std.specs.Prelude.{◌≡◌, map, OnOk, IfErr};
ghost use Rattle.wit_syntax.specs.AstView as view;
ghost use Rattle.wit_scopes.specs.View as scope_view;
ghost use Rattle.wit_rules.specs.Breaks.{IsKept, IsFaultOf};
ghost use Rattle.wit_rules.specs.Facts as spec;

use crate::checked::{Checked, check_all, check_names};
use crate::labels::{member_labels, names_within};
use std::alloc::Global;
use wit_rules::{PackageFault, PackageRule, check_front};
use wit_scopes::{Member, MemberKind};
use wit_syntax::TypeDefKind;

/// Whether it is an enum or a variant without a case.
fn kind_has_no_case(kind: &TypeDefKind<'_>) -> bool
    ensures { result ≡ spec.kind_has_no_case (view.type_def_kind kind.now) }
{
    match kind {
        TypeDefKind::Enum(cases) => cases.is_empty(),
        TypeDefKind::Variant(cases) => cases.is_empty(),
        _ => false,
    }
}

/// Whether it defines an enum or a variant without a case.
fn has_no_case(kind: &MemberKind<'_>) -> bool
    ensures { result ≡ spec.has_no_case (scope_view.member_kind kind.now) }
{
    match kind {
        MemberKind::Defined(kind) => kind_has_no_case(kind),
        _ => false,
    }
}

/// Refuses an enum or a variant without a case.
fn check_cases(member: &Member<'_>) -> Result<(), PackageFault>
    ensures ok { OnOk result (IsKept (spec.CasesBreak (scope_view.member member.now))) }
    ensures cause { IfErr result (IsFaultOf (spec.CasesBreak (scope_view.member member.now))) }
{
    if has_no_case(&member.kind) {
        return Err(PackageFault::Broken {
            rule: PackageRule::EmptyCases,
            span: member.name.span,
        });
    }
    Ok(())
}

impl<'a> Checked for Member<'a> {
    ghost breaks = { λ m. spec.MemberBreaks (scope_view.member m) };

    fn check(&self, alloc: Global) -> Result<(), PackageFault> {
        check_front(&self.front)?;
        check_cases(self)?;
        let names = names_within(alloc, self)?;
        check_names(alloc, names.as_slice())
    }
}

/// Refuses what members of one scope break.
pub fn check_members<'a>(alloc: Global, members: &[Member<'a>]) -> Result<(), PackageFault>
    ensures ok { OnOk result (IsKept (spec.MembersBreak (scope_view.members members.now))) }
    ensures cause { IfErr result (IsFaultOf (spec.MembersBreak (scope_view.members members.now))) }
{
    check_all(alloc, members)?;
    let names = member_labels(alloc, members)?;
    check_names(alloc, names.as_slice())
}
