//! What functions take and give.

ghost use Rattle.std.specs.Prelude.{◌≡◌, Option, map, option_map, IfOk};
ghost use Rattle.wit_package_types.specs.Passed.wit_productions-NameView.{id};
ghost use Rattle.wit_package_types.specs.Passed.wit_syntax-AstView as view;
ghost use Rattle.wit_package_types.specs.Passed.wit_productions-TypeView.{type_tree};
ghost use Rattle.wit_package_types.specs.Passed.wit_scopes-View as scope_view;
ghost use Rattle.wit_package_types.specs.Passed.wit_type_names-TypeNames.{names_in_parts, signature_parts};
ghost use Rattle.wit_package_types.specs.Passed.wit_arena-Lower.{AreThere};
ghost use Rattle.wit_functions.specs.Signature as spec;

use std::alloc::AllocError;
use wit_package_types::{
    Func, Id, Member, MemberKind, Span, Table, Types, lower_borrow, lower_own, lower_params,
    lower_result,
};
use wit_types::{Param, Type};

/// What a function takes and gives.
#[derive(Drop)]
pub struct Signature {
    /// Its parameters, in order.
    pub params: Vec<Param>,
    /// The type of its result, if it has one.
    pub result: Option<Type>,
}

/// What a function takes and gives that is written so.
fn lower_written(
    types: &mut Types,
    table: &Table<'_>,
    params: &[wit_package_types::Param<'_>],
    ty: &Option<wit_package_types::Type<'_>>,
) -> Result<Signature, AllocError>
    requires { AreThere table.now (names_in_parts (signature_parts (map view.param params.now) (option_map type_tree ty.now))) }
    ensures { IfOk result (spec.LowersSignature table.now types.old (map view.param params.now) (option_map type_tree ty.now) types.new) }
{
    let params = lower_params(types, table, params)?;
    let result = lower_result(types, table, ty)?;
    Ok(Signature { params, result })
}

/// What a function takes and gives of which all is written.
fn lower_func(
    types: &mut Types,
    table: &Table<'_>,
    func: &Func<'_>,
) -> Result<Signature, AllocError>
    requires { AreThere table.now (names_in_parts (signature_parts (view.func func.now).params (view.func func.now).result)) }
    ensures { IfOk result (spec.LowersSignature table.now types.old (view.func func.now).params (view.func func.now).result types.new) }
{
    lower_written(types, table, func.params.as_slice(), &func.result)
}

/// What a method takes and gives: `self` comes first.
fn lower_method(
    types: &mut Types,
    table: &Table<'_>,
    name: Id<'_>,
    resource: &Id<'_>,
    func: &Func<'_>,
) -> Result<Signature, AllocError>
    requires { AreThere table.now (spec.behind (id resource.now) (names_in_parts (signature_parts (view.func func.now).params (view.func func.now).result))) }
    ensures { IfOk result (spec.LowersSignature table.now types.old (spec.with_self (id resource.now) (id name.entry) (view.func func.now).params) (view.func func.now).result types.new) }
{
    let alloc = types.allocator();
    let ty = lower_borrow(types, table, resource, name.span)?;
    let mut params = lower_params(types, table, func.params.as_slice())?;
    let result = lower_result(types, table, &func.result)?;
    let receiver = Param {
        name: String::from_str(alloc, "self")?,
        ty,
        span: name.span,
    };
    params.insert(0, receiver)?;
    Ok(Signature { params, result })
}

/// What a constructor takes and gives: its resource, where it says nothing.
fn lower_constructor(
    types: &mut Types,
    table: &Table<'_>,
    span: Span,
    resource: &Id<'_>,
    params: &[wit_package_types::Param<'_>],
    ty: &Option<wit_package_types::Type<'_>>,
) -> Result<Signature, AllocError>
    requires { AreThere table.now (spec.behind (id resource.now) (names_in_parts (signature_parts (map view.param params.now) (option_map type_tree ty.now)))) }
    ensures { IfOk result (spec.LowersSignature table.now types.old (map view.param params.now) (spec.or_resource (id resource.now) span (option_map type_tree ty.now)) types.new) }
{
    match ty {
        Some(_) => Ok(lower_written(types, table, params, ty)?),
        None => {
            let params = lower_params(types, table, params)?;
            let result = lower_own(types, table, resource, span)?;
            Ok(Signature {
                params,
                result: Some(result),
            })
        }
    }
}

/// What a function of a scope takes and gives, behind the types that stand in it.
pub fn lower_signature(
    types: &mut Types,
    table: &Table<'_>,
    member: &Member<'_>,
) -> Result<Signature, AllocError>
    requires kind { spec.IsFunction (scope_view.member_kind member.now.kind) }
    requires names { AreThere table.now (spec.function_names (scope_view.member_kind member.now.kind)) }
    ensures { IfOk result (spec.LowersSignature table.now types.old (spec.all_params (scope_view.member member.now)) (spec.all_result (scope_view.member member.now)) types.new) }
{
    match &member.kind {
        MemberKind::Function(func) => lower_func(types, table, func),
        MemberKind::Static { func, .. } => lower_func(types, table, func),
        MemberKind::Method { resource, func } => {
            lower_method(types, table, member.name, resource, func)
        }
        MemberKind::Constructor { resource, func } => lower_constructor(
            types,
            table,
            member.span,
            resource,
            func.params.as_slice(),
            &func.result,
        ),
        _ => unreachable!(),
    }
}
