//! The functions of a scope.

ghost use Rattle.std.specs.Prelude.{◌≡◌, List, ◌++◌, ◌∷◌, [], map, option_map, IsTrue, IsFalse, IfOk, OnOk, IfErr};
ghost use Rattle.wit_lookups.specs.Passed.wit_productions-TypeView.{type_tree};
ghost use Rattle.wit_lookups.specs.Passed.wit_scopes-Scopes.{ItemScope};
ghost use Rattle.wit_lookups.specs.Passed.wit_scopes-View as scope_view;
ghost use Rattle.wit_lookups.specs.Passed.wit_rules-Breaks.{IsKept, IsFaultOf, AnyBreaks};
ghost use Rattle.wit_resources.specs.Passed.wit_arena-Tree.{PackageText, Place};
ghost use Rattle.wit_resources.specs.Passed.wit_arena-Unfold.{Owners};
ghost use Rattle.wit_resources.specs.Passed.wit_arena-Lower.{AreThere};
ghost use Rattle.wit_functions.specs.Passed.wit_package_types-Stability.{AreGates};
ghost use Rattle.wit_functions.specs.Function.{LowersFunction};
ghost use Rattle.wit_functions.specs.Signature.{IsFunction, function_names};
ghost use Rattle.wit_resources.specs.Natures.{natures as natures_of};
ghost use Rattle.wit_resources.specs.Failing.{ResultFails};
ghost use Rattle.wit_resources.specs.Rules.{type_span, declared_result, PartBreaks, ResultBreaks};
ghost use Rattle.wit_resolved_scopes.specs.Scope as spec;
ghost use Rattle.wit_lookups.specs.Passed.wit_rules-declared-fault-PackageFault-TheVariants.{OutOfMemory};
ghost use Rattle.wit_lookups.specs.Passed.wit_scopes-Members.{MemberTree};
ghost use Rattle.wit_resources.specs.Passed.wit_arena-Meaning.{Has};
ghost use Rattle.wit_resources.specs.Passed.wit_arena-Standing.{IsOfType};
ghost use Rattle.wit_resolved_scopes.specs.Faults.{StandsSoFar, ResultsBreak};

use wit_functions::lower_function;
use wit_lookups::{Member, MemberKind, PackageFault, Span, Type};
use wit_resources::{Natures, Table, Types, check_result};
use wit_types::Function;

/// Where a type stands, if there is one.
fn type_place(ty: &Option<Type<'_>>) -> Option<Span>
    ensures { result ≡ option_map type_span (option_map type_tree ty.now) }
{
    match ty {
        Some(ty) => Some(ty.span),
        None => None,
    }
}

/// Where the result stands that a function declares.
fn result_place(kind: &MemberKind<'_>) -> Option<Span>
    ensures { result ≡ option_map type_span (declared_result (scope_view.member_kind kind.now)) }
{
    match kind {
        MemberKind::Function(func) => type_place(&func.result),
        MemberKind::Method { func, .. } => type_place(&func.result),
        MemberKind::Static { func, .. } => type_place(&func.result),
        MemberKind::Constructor { func, .. } => type_place(&func.result),
        _ => None,
    }
}

/// Refuses a function whose result holds a `borrow`: this is what it is in the arena.
fn check_function(
    natures: &Natures,
    function: &Function,
    member: &Member<'_>,
) -> Result<(), PackageFault>
    ensures ok { OnOk result (IsKept (PartBreaks (λ e. ResultFails natures.now function.now.result (type_span e)) (declared_result (scope_view.member_kind member.now.kind)))) }
    ensures cause { IfErr result (IsFaultOf (PartBreaks (λ e. ResultFails natures.now function.now.result (type_span e)) (declared_result (scope_view.member_kind member.now.kind)))) }
{
    match result_place(&member.kind) {
        Some(span) => check_result(natures, &function.result, span),
        None => Ok(()),
    }
}

/// Whether a member is a type.
fn is_type(kind: &MemberKind<'_>) -> bool
    ensures yes { IsTrue result → IsOfType (scope_view.member_kind kind.now) }
    ensures no_type { IsFalse result → IsFunction (scope_view.member_kind kind.now) }
{
    matches!(kind, MemberKind::Used { .. } | MemberKind::Defined(_))
}

/// Adds a function behind the others.
fn push_to(functions: &mut Vec<Function>, function: Function) -> Result<(), PackageFault>
    ensures ok { OnOk result (functions.new.items ≡ functions.old.items ++ function ∷ []) }
    ensures err { IfErr result (λ fault. fault ≡ OutOfMemory) }
{
    functions.push(function)?;
    Ok(())
}

/// A function of a scope, behind the types that stand in it; P7 where a `borrow` stands in its result.
fn resolve_function(
    types: &mut Types,
    natures: &mut Natures,
    table: &Table<'_>,
    member: &Member<'_>,
) -> Result<Function, PackageFault>
    requires kind { IsFunction (scope_view.member_kind member.now.kind) }
    requires names { AreThere table.now (function_names (scope_view.member_kind member.now.kind)) }
    requires gates { AreGates (scope_view.member member.now).attributes }
    requires natures { natures.old ≡ natures_of types.old }
    ensures lowers { IfOk result (LowersFunction table.now types.old (scope_view.member member.now) types.new) }
    ensures natures { OnOk result (natures.new ≡ natures_of types.new) }
    ensures kept { (me : PackageText) (scopes : List ItemScope) (owners : Owners) (o : Place) → StandsSoFar me scopes owners o table.now types.old → OnOk result (IsKept (PartBreaks (ResultBreaks me scopes o) (declared_result (scope_view.member_kind member.now.kind)))) }
    ensures cause { (me : PackageText) (scopes : List ItemScope) (owners : Owners) (o : Place) → StandsSoFar me scopes owners o table.now types.old → IfErr result (IsFaultOf (PartBreaks (ResultBreaks me scopes o) (declared_result (scope_view.member_kind member.now.kind)))) }
{
    let function = lower_function(types, table, member)?;
    natures.catch_up(types)?;
    check_function(natures, &function, member).and(Ok(function))
}

/// Adds what a member is in the arena, where it is a function; P7 where a `borrow` stands in its result.
fn add_function(
    types: &mut Types,
    natures: &mut Natures,
    table: &Table<'_>,
    functions: &mut Vec<Function>,
    member: &Member<'_>,
) -> Result<(), PackageFault>
    requires names { AreThere table.now (spec.all_names (scope_view.member_kind member.now.kind)) }
    requires gates { AreGates (scope_view.member member.now).attributes }
    requires natures { natures.old ≡ natures_of types.old }
    ensures adds { OnOk result (spec.AddsFunction table.now types.old functions.old.items (scope_view.member member.now) types.new functions.new.items) }
    ensures natures { OnOk result (natures.new ≡ natures_of types.new) }
    ensures kept { (me : PackageText) (scopes : List ItemScope) (owners : Owners) (o : Place) → StandsSoFar me scopes owners o table.now types.old → OnOk result (IsKept (PartBreaks (ResultBreaks me scopes o) (declared_result (scope_view.member_kind member.now.kind)))) }
    ensures cause { (me : PackageText) (scopes : List ItemScope) (owners : Owners) (o : Place) → StandsSoFar me scopes owners o table.now types.old → IfErr result (IsFaultOf (PartBreaks (ResultBreaks me scopes o) (declared_result (scope_view.member_kind member.now.kind)))) }
{
    if is_type(&member.kind) {
        return Ok(());
    }
    match resolve_function(types, natures, table, member) {
        Ok(function) => push_to(functions, function),
        Err(fault) => Err(fault),
    }
}

/// The functions of a scope, behind the types that stand in them; P7 where a `borrow` stands in a result.
pub fn resolve_functions(
    types: &mut Types,
    natures: &mut Natures,
    table: &Table<'_>,
    members: &[Member<'_>],
) -> Result<Vec<Function>, PackageFault>
    requires names { (m : MemberTree) → Has (scope_view.members members.now) m → AreThere table.now (spec.all_names m.kind) }
    requires gates { (m : MemberTree) → Has (scope_view.members members.now) m → AreGates m.attributes }
    requires natures { natures.old ≡ natures_of types.old }
    ensures lowers { IfOk result (λ fs. spec.LowersFunctions table.now types.old (scope_view.members members.now) types.new fs.items) }
    ensures natures { OnOk result (natures.new ≡ natures_of types.new) }
    ensures kept { (me : PackageText) (scopes : List ItemScope) (owners : Owners) (o : Place) → StandsSoFar me scopes owners o table.now types.old → OnOk result (IsKept (ResultsBreak me scopes o (scope_view.members members.now))) }
    ensures cause { (me : PackageText) (scopes : List ItemScope) (owners : Owners) (o : Place) → StandsSoFar me scopes owners o table.now types.old → IfErr result (IsFaultOf (ResultsBreak me scopes o (scope_view.members members.now))) }
{
    let mut functions = Vec::new(types.allocator());
    for member in members {
        if let Err(fault) = add_function(types, natures, table, &mut functions, member) {
            return Err(fault);
        }
    }
    Ok(functions)
}
