//! Handles, and results that hold them.

ghost use Rattle.std.specs.Prelude.{◌≡◌, ◌∷◌, [], map, Option, option_map, OnOk, IfErr, IfOk};
ghost use Rattle.wit_rules.specs.Passed.wit_syntax-AstView as view;
ghost use Rattle.wit_rules.specs.Passed.wit_productions-TypeView.{type_tree};
ghost use Rattle.wit_arena.specs.Passed.wit_type_names-TypeNames.{handles_in_member};
ghost use Rattle.wit_rules.specs.Passed.wit_scopes-View as scope_view;
ghost use Rattle.wit_rules.specs.Breaks.{IsKept, IsFaultOf, AnyBreaks};
ghost use Rattle.wit_arena.specs.Lower.{AreThere};
ghost use Rattle.wit_resources.specs.Failing as spec;

use crate::natures::Natures;
use std::alloc::Global;
use wit_arena::{Table, member_handle_names};
use wit_rules::{Id, MemberKind, PackageFault, PackageRule, Span};
use wit_types::Type;

/// Refuses a handle of what is no resource. Its name is in the table.
fn check_handle(natures: &Natures, table: &Table<'_>, name: &Id<'_>) -> Result<(), PackageFault>
    requires there { AreThere table.now (view.id name.now ∷ []) }
    requires distinct { spec.AreDistinct table.now }
    ensures ok { OnOk result (IsKept (spec.HandleFails natures.now table.now (view.id name.now))) }
    ensures cause { IfErr result (IsFaultOf (spec.HandleFails natures.now table.now (view.id name.now))) }
{
    match table.get(name.name) {
        Some(id) if natures.get(id).is_resource => Ok(()),
        Some(_) => Err(PackageFault::Broken {
            rule: PackageRule::BadHandle,
            span: name.span,
        }),
        None => unreachable!(),
    }
}

/// Refuses a member in which a handle stands of what is no resource. The names in it are in the table, under which no two
/// types stand.
pub fn check_handles<'a>(
    alloc: Global,
    natures: &Natures,
    table: &Table<'_>,
    kind: &MemberKind<'a>,
) -> Result<(), PackageFault>
    requires there { AreThere table.now (handles_in_member (scope_view.member_kind kind.now)) }
    requires distinct { spec.AreDistinct table.now }
    ensures ok { OnOk result (IsKept (AnyBreaks (spec.HandleFails natures.now table.now) (handles_in_member (scope_view.member_kind kind.now)))) }
    ensures cause { IfErr result (IsFaultOf (AnyBreaks (spec.HandleFails natures.now table.now) (handles_in_member (scope_view.member_kind kind.now)))) }
{
    let names = member_handle_names(alloc, kind)?;
    for name in &names {
        check_handle(natures, table, name)?;
    }
    Ok(())
}

/// Refuses a result in which a `borrow` stands: this is the type in the arena, which stands there.
pub fn check_result(natures: &Natures, ty: &Option<Type>, span: Span) -> Result<(), PackageFault>
    ensures ok { OnOk result (IsKept (spec.ResultFails natures.now ty.now span)) }
    ensures cause { IfErr result (IsFaultOf (spec.ResultFails natures.now ty.now span)) }
{
    if natures.holds_borrow(ty) {
        return Err(PackageFault::Broken {
            rule: PackageRule::BorrowInResult,
            span,
        });
    }
    Ok(())
}
