//! What the members of a scope break over the types of its arena.

ghost use Rattle.std.specs.Prelude.{◌≡◌, map, OnOk, IfErr, IfOk};
ghost use Rattle.wit_lookups.specs.Passed.wit_scopes-Members.{MemberTree};
ghost use Rattle.wit_lookups.specs.Passed.wit_type_names-TypeNames.{handles_in_member};
ghost use Rattle.wit_lookups.specs.Passed.wit_scopes-View as scope_view;
ghost use Rattle.wit_lookups.specs.Passed.wit_rules-Breaks.{IsKept, IsFaultOf};
ghost use Rattle.wit_resources.specs.Passed.wit_arena-Lower.{AreThere};
ghost use Rattle.wit_resources.specs.Passed.wit_arena-Meaning.{Has};
ghost use Rattle.wit_functions.specs.Passed.wit_package_types-Fill.{member_names};
ghost use Rattle.wit_resources.specs.Failing.{AreDistinct};
ghost use Rattle.wit_resolved_scopes.specs.Faults.{MemberFails, MembersFail};

use name_places::FirstPlaces;
use std::alloc::{AllocError, Global};
use wit_lookups::{Member, MemberKind, PackageFault};
use wit_resources::{Natures, Table, check_constructor, check_handles};

/// The names of types.
fn type_places<'a>(alloc: Global, types: &[Member<'a>]) -> Result<FirstPlaces<'a>, AllocError>
    ensures { IfOk result (λ p. p ≡ member_names (scope_view.members types.now)) }
{
    let mut found = FirstPlaces::new(alloc);
    for member in types {
        found.push(member.name.name)?;
    }
    Ok(found)
}

/// Refuses a member of a scope with a handle of what is no resource (P9), and a constructor that declares another result than
/// it may (P8). These are the types of the scope, by these names.
fn check_member<'a>(
    alloc: Global,
    natures: &Natures,
    table: &Table<'a>,
    types: &[Member<'a>],
    names: &FirstPlaces<'a>,
    kind: &MemberKind<'a>,
) -> Result<(), PackageFault>
    requires names { names.now ≡ member_names (scope_view.members types.now) }
    requires there { AreThere table.now (handles_in_member (scope_view.member_kind kind.now)) }
    requires distinct { AreDistinct table.now }
    ensures ok { OnOk result (IsKept (MemberFails natures.now table.now (scope_view.members types.now) (scope_view.member_kind kind.now))) }
    ensures cause { IfErr result (IsFaultOf (MemberFails natures.now table.now (scope_view.members types.now) (scope_view.member_kind kind.now))) }
{
    check_handles(alloc, natures, table, kind)?;
    check_constructor(types, names, kind)
}

/// Refuses members of a scope of which one has such a handle or such a result. These are the types of the scope.
pub fn check_members<'a>(
    alloc: Global,
    natures: &Natures,
    table: &Table<'a>,
    types: &[Member<'a>],
    members: &[Member<'a>],
) -> Result<(), PackageFault>
    requires there { (m : MemberTree) → Has (scope_view.members members.now) m → AreThere table.now (handles_in_member m.kind) }
    requires distinct { AreDistinct table.now }
    ensures ok { OnOk result (IsKept (MembersFail natures.now table.now (scope_view.members types.now) (scope_view.members members.now))) }
    ensures cause { IfErr result (IsFaultOf (MembersFail natures.now table.now (scope_view.members types.now) (scope_view.members members.now))) }
{
    let names = type_places(alloc, types)?;
    for member in members {
        if let Err(fault) = check_member(alloc, natures, table, types, &names, &member.kind) {
            return Err(fault);
        }
    }
    Ok(())
}
