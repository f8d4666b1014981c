//! The members of a scope.

ghost use Rattle.std.specs.Prelude.{◌≡◌, IfOk, OnOk, IfErr};
ghost use Rattle.wit_scopes.specs.View as scope_view;
ghost use Rattle.wit_rules.specs.Breaks.{IsKept, IsFaultOf};
ghost use Rattle.wit_resolved_scopes.specs.Passed.wit_orders-Needs.{types_of};
ghost use Rattle.wit_arena.specs.Tree.{Place};
ghost use Rattle.wit_resolved_scopes.specs.Passed.wit_resources-Natures.{natures as natures_of};
ghost use Rattle.wit_resolved_scopes.specs.Scope.{AreReady, ResolvesScope};
ghost use Rattle.wit_resolved_scopes.specs.InArena.{Context};
ghost use Rattle.wit_interfaces.specs.Adding as spec;

use wit_arena::Types;
use wit_resolved_scopes::{Known, Natures, ResolvedScope, are_types, resolve_scope, scope_types};
use wit_rules::PackageFault;
use wit_scopes::Member;
use wit_types::TypeOwner;

/// Brings the members of a scope into the arena: its types, each behind those that it names, then its functions. They are
/// refused where a type leads back to itself (P6), where a `borrow` stands in a result (P7), where a constructor declares
/// another result than it may (P8), and where a handle names no resource (P9); then nothing is said of the arena.
pub fn bring_members<'a>(
    types: &mut Types,
    natures: &mut Natures,
    known: &Known<'a>,
    owner: TypeOwner,
    members: &[Member<'a>],
) -> Result<ResolvedScope<'a>, PackageFault>
    requires ready { AreReady known.now (types_of (scope_view.members members.now)) (scope_view.members members.now) }
    requires natures { natures.old ≡ natures_of types.old }
    ensures resolves { IfOk result (λ r. ResolvesScope known.now owner types.old (types_of (scope_view.members members.now)) (scope_view.members members.now) types.new r.table r.functions.items) }
    ensures natures { OnOk result (natures.new ≡ natures_of types.new) }
    ensures kept { (c : Context) (o : Place) → spec.MayBring c o owner known.now types.old (scope_view.members members.now) → OnOk result (IsKept (spec.MembersBreak c o (scope_view.members members.now))) }
    ensures cause { (c : Context) (o : Place) → spec.MayBring c o owner known.now types.old (scope_view.members members.now) → IfErr result (IsFaultOf (spec.MembersBreak c o (scope_view.members members.now))) }
{
    // An interface of types alone, as there are many, needs no copies of them.
    if are_types(members) {
        return resolve_scope(types, natures, known, owner, members, members);
    }
    let declared = scope_types(types.allocator(), members)?;
    resolve_scope(types, natures, known, owner, declared.as_slice(), members)
}
