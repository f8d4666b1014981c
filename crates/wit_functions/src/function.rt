//! Functions.

ghost use Rattle.std.specs.Prelude.{◌≡◌, [], ◌∷◌, string_bytes, IfOk};
ghost use Rattle.wit_package_types.specs.Passed.wit_syntax-AstView as view;
ghost use Rattle.wit_package_types.specs.Passed.wit_scopes-View as scope_view;
ghost use Rattle.wit_package_types.specs.Passed.wit_rules-Labels.{full_name, name_place};
ghost use Rattle.wit_package_types.specs.Passed.wit_arena-Meaning.{Has};
ghost use Rattle.wit_package_types.specs.Passed.wit_arena-Lower.{AreThere};
ghost use Rattle.wit_package_types.specs.Stability.{AreGates};
ghost use Rattle.wit_functions.specs.Function as spec;
ghost use Rattle.wit_functions.specs.Signature.{IsFunction, function_names, IsKindOf};

use crate::signature::{Signature, lower_signature};
use std::alloc::{AllocError, Global};
use wit_package_types::{Id, Member, MemberKind, Span, Table, Types, docs_of, stability_in};
use wit_types::{Function, FunctionKind, TypeId};

/// The name by which a function is known in its scope.
fn function_name(alloc: Global, member: &Member<'_>) -> Result<String, AllocError>
    ensures { IfOk result (λ s. string_bytes s ≡ full_name (scope_view.member_kind member.now.kind) (view.id member.now.name)) }
{
    let name = member.name.name;
    match &member.kind {
        MemberKind::Method { resource, .. } => {
            let resource = resource.name;
            format!(in alloc; "[method]{resource}.{name}")
        }
        MemberKind::Static { resource, .. } => {
            let resource = resource.name;
            format!(in alloc; "[static]{resource}.{name}")
        }
        MemberKind::Constructor { resource, .. } => {
            let resource = resource.name;
            format!(in alloc; "[constructor]{resource}")
        }
        _ => String::from_str(alloc, name),
    }
}

/// Where that name stands: a constructor's is not written, but stands for the whole of it.
fn function_place(member: &Member<'_>) -> Span
    ensures { result ≡ name_place (scope_view.member_kind member.now.kind) (view.id member.now.name) member.now.span }
{
    match &member.kind {
        MemberKind::Constructor { .. } => member.span,
        _ => member.name.span,
    }
}

/// What stands under the name of a resource that is there.
fn resource_id(table: &Table<'_>, name: &Id<'_>) -> TypeId
    requires { AreThere table.now (view.id name.now ∷ []) }
    ensures { Has table.now (name.now.name.now, result) }
{
    match table.get(name.name) {
        Some(id) => id,
        None => unreachable!(),
    }
}

/// Whose a function is, and whether it is asynchronous.
fn function_kind(table: &Table<'_>, kind: &MemberKind<'_>) -> FunctionKind
    requires kind { IsFunction (scope_view.member_kind kind.now) }
    requires names { AreThere table.now (function_names (scope_view.member_kind kind.now)) }
    ensures { IsKindOf table.now (scope_view.member_kind kind.now) result }
{
    match kind {
        MemberKind::Function(func) => {
            if func.async_ {
                FunctionKind::AsyncFreestanding
            } else {
                FunctionKind::Freestanding
            }
        }
        MemberKind::Method { resource, func } => {
            let id = resource_id(table, resource);
            if func.async_ {
                FunctionKind::AsyncMethod(id)
            } else {
                FunctionKind::Method(id)
            }
        }
        MemberKind::Static { resource, func } => {
            let id = resource_id(table, resource);
            if func.async_ {
                FunctionKind::AsyncStatic(id)
            } else {
                FunctionKind::Static(id)
            }
        }
        MemberKind::Constructor { resource, .. } => {
            FunctionKind::Constructor(resource_id(table, resource))
        }
        _ => unreachable!(),
    }
}

/// A function of a scope, behind the types that stand in it. The names that stand in it are in the table, and its attributes
/// are gates that may stand together.
pub fn lower_function(
    types: &mut Types,
    table: &Table<'_>,
    member: &Member<'_>,
) -> Result<Function, AllocError>
    requires kind { IsFunction (scope_view.member_kind member.now.kind) }
    requires names { AreThere table.now (function_names (scope_view.member_kind member.now.kind)) }
    requires gates { AreGates (scope_view.member member.now).attributes }
    ensures { IfOk result (spec.LowersFunction table.now types.old (scope_view.member member.now) types.new) }
{
    let alloc = types.allocator();
    let name = function_name(alloc, member)?;
    let docs = docs_of(alloc, &member.front.docs)?;
    let stability = stability_in(alloc, &member.front)?;
    let signature = lower_signature(types, table, member)?;
    let Signature { params, result } = signature;
    Ok(Function {
        name,
        kind: function_kind(table, &member.kind),
        params,
        result,
        docs,
        stability,
        span: function_place(member),
    })
}
