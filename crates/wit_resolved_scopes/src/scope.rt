//! Scopes.

ghost use Rattle.std.specs.Prelude.{◌≡◌, List, map, IfOk, OnOk, IfErr};
ghost use Rattle.wit_lookups.specs.Passed.wit_scopes-Members.{MemberTree};
ghost use Rattle.wit_orders.specs.Needs.{type_entry, CircleBreaks, AreSorted};
ghost use Rattle.wit_functions.specs.Passed.wit_package_types-Fill.{AreFillable, Fills};
ghost use Rattle.wit_lookups.specs.Passed.wit_scopes-Scopes.{ItemScope};
ghost use Rattle.wit_lookups.specs.Passed.wit_scopes-View as scope_view;
ghost use Rattle.wit_lookups.specs.Passed.wit_rules-Breaks.{IsKept, IsFaultOf};
ghost use Rattle.wit_resources.specs.Passed.wit_arena-Tree.{PackageText, Place};
ghost use Rattle.wit_resources.specs.Passed.wit_arena-Unfold.{Owners};
ghost use Rattle.wit_resources.specs.Natures.{natures as natures_of};
ghost use Rattle.wit_resolved_scopes.specs.Scope as spec;
ghost use Rattle.wit_resolved_scopes.specs.Faults.{ScopeBreaks, MayBeFilled};

use crate::checks::check_members;
use crate::functions::resolve_functions;
use std::alloc::AllocError;
use wit_functions::{Known, fill_types};
use wit_lookups::{Member, PackageFault};
use wit_orders::{are_sorted, sorted_types};
use wit_resources::{Natures, Table, Types};
use wit_types::{Function, TypeOwner};

/// What is made of a scope.
#[derive(Drop)]
pub struct ResolvedScope<'a> {
    /// Its types by name, each behind those that it needs.
    pub table: Table<'a>,
    /// Its functions, in the order of the text.
    pub functions: Vec<Function>,
}

/// Types in an order in which each stands behind those that it names, and what is known of them.
fn fill_in_order<'a>(
    types: &mut Types,
    natures: &mut Natures,
    known: &Known<'a>,
    owner: TypeOwner,
    sorted: &[Member<'a>],
) -> Result<Table<'a>, AllocError>
    requires ready { AreFillable known.now (scope_view.members sorted.now) }
    requires natures { natures.old ≡ natures_of types.old }
    ensures fills { IfOk result (λ t. Fills known.now owner types.old (scope_view.members sorted.now) types.new t) }
    ensures natures { OnOk result (natures.new ≡ natures_of types.new) }
{
    let table = fill_types(types, known, owner, sorted)?;
    natures.catch_up(types)?;
    Ok(table)
}

/// The types of a scope, each behind those that it names, and what is known of them; P6 where a type leads back to itself.
fn fill_sorted<'a>(
    types: &mut Types,
    natures: &mut Natures,
    known: &Known<'a>,
    owner: TypeOwner,
    declared: &[Member<'a>],
) -> Result<Table<'a>, PackageFault>
    requires ready { (sorted : List MemberTree) → AreSorted (scope_view.members declared.now) sorted → AreFillable known.now sorted }
    requires natures { natures.old ≡ natures_of types.old }
    ensures fills { IfOk result (λ t. spec.FillsSorted known.now owner types.old (scope_view.members declared.now) types.new t) }
    ensures natures { OnOk result (natures.new ≡ natures_of types.new) }
    ensures kept { OnOk result (IsKept (CircleBreaks (map type_entry (scope_view.members declared.now)))) }
    ensures cause { IfErr result (IsFaultOf (CircleBreaks (map type_entry (scope_view.members declared.now)))) }
{
    // Most texts need no sorting.
    if are_sorted(types.allocator(), declared)? {
        let table = fill_in_order(types, natures, known, owner, declared)?;
        return Ok(table);
    }
    let sorted = sorted_types(types.allocator(), declared)?;
    let table = fill_in_order(types, natures, known, owner, sorted.as_slice())?;
    Ok(table)
}

/// Brings a scope into the arena: the types that it declares, each behind those that it names, then its functions. It is
/// refused where a type leads back to itself (P6), where a `borrow` stands in a result (P7), where a constructor declares
/// another result than it may (P8), and where a handle names no resource (P9). Then nothing is said of the arena, which is to
/// be dropped.
pub fn resolve_scope<'a>(
    types: &mut Types,
    natures: &mut Natures,
    known: &Known<'a>,
    owner: TypeOwner,
    declared: &[Member<'a>],
    members: &[Member<'a>],
) -> Result<ResolvedScope<'a>, PackageFault>
    requires ready { spec.AreReady known.now (scope_view.members declared.now) (scope_view.members members.now) }
    requires natures { natures.old ≡ natures_of types.old }
    ensures resolves { IfOk result (λ r. spec.ResolvesScope known.now owner types.old (scope_view.members declared.now) (scope_view.members members.now) types.new r.table r.functions.items) }
    ensures natures { OnOk result (natures.new ≡ natures_of types.new) }
    ensures kept { (me : PackageText) (scopes : List ItemScope) (owners : Owners) (o : Place) → MayBeFilled me scopes owners o owner known.now (scope_view.members declared.now) types.old → OnOk result (IsKept (ScopeBreaks me scopes o (scope_view.members declared.now) (scope_view.members members.now))) }
    ensures cause { (me : PackageText) (scopes : List ItemScope) (owners : Owners) (o : Place) → MayBeFilled me scopes owners o owner known.now (scope_view.members declared.now) types.old → IfErr result (IsFaultOf (ScopeBreaks me scopes o (scope_view.members declared.now) (scope_view.members members.now))) }
{
    let table = fill_sorted(types, natures, known, owner, declared)?;
    if let Err(fault) = check_members(types.allocator(), natures, &table, declared, members) {
        return Err(fault);
    }
    match resolve_functions(types, natures, &table, members) {
        Ok(functions) => Ok(ResolvedScope { table, functions }),
        Err(fault) => Err(fault),
    }
}
