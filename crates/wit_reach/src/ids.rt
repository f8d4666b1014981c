//! The types that something is made of.

ghost use Rattle.std.specs.Prelude.{◌≡◌, ◌++◌, flat_map, OnOk, IfOk};
ghost use Rattle.wit_reach.specs.Ids as spec;

use indexmap::IndexMap;
use std::alloc::{AllocError, Global};
use wit_types::{
    Case, Field, Function, FunctionKind, Handle, Param, Type, TypeDefKind, TypeId, WorldItem,
    WorldKey,
};

/// Adds the id of a type, if it has one.
fn add_type(ids: &mut Vec<TypeId>, ty: &Type) -> Result<(), AllocError>
    ensures { OnOk result (ids.new.items ≡ ids.old.items ++ spec.ref_ids ty.now) }
{
    if let Type::Id(id) = ty {
        ids.push(*id)?;
    }
    Ok(())
}

/// The same of one that may be left out.
fn add_part(ids: &mut Vec<TypeId>, part: &Option<Type>) -> Result<(), AllocError>
    ensures { OnOk result (ids.new.items ≡ ids.old.items ++ spec.part_ids part.now) }
{
    match part {
        Some(ty) => add_type(ids, ty),
        None => Ok(()),
    }
}

/// Adds the types of fields.
fn add_fields(ids: &mut Vec<TypeId>, fields: &[Field]) -> Result<(), AllocError>
    ensures { OnOk result (ids.new.items ≡ ids.old.items ++ flat_map (λ x. spec.ref_ids x.ty) fields.now) }
{
    for field in fields {
        add_type(ids, &field.ty)?;
    }
    Ok(())
}

/// Adds the types of cases.
fn add_cases(ids: &mut Vec<TypeId>, cases: &[Case]) -> Result<(), AllocError>
    ensures { OnOk result (ids.new.items ≡ ids.old.items ++ flat_map (λ c. spec.part_ids c.ty) cases.now) }
{
    for case in cases {
        add_part(ids, &case.ty)?;
    }
    Ok(())
}

/// Adds types.
fn add_types(ids: &mut Vec<TypeId>, types: &[Type]) -> Result<(), AllocError>
    ensures { OnOk result (ids.new.items ≡ ids.old.items ++ flat_map spec.ref_ids types.now) }
{
    for ty in types {
        add_type(ids, ty)?;
    }
    Ok(())
}

/// Adds the types of parameters.
fn add_params(ids: &mut Vec<TypeId>, params: &[Param]) -> Result<(), AllocError>
    ensures { OnOk result (ids.new.items ≡ ids.old.items ++ flat_map (λ p. spec.ref_ids p.ty) params.now) }
{
    for param in params {
        add_type(ids, &param.ty)?;
    }
    Ok(())
}

/// Adds the resource behind a handle.
fn add_handle(ids: &mut Vec<TypeId>, handle: Handle) -> Result<(), AllocError>
    ensures { OnOk result (ids.new.items ≡ ids.old.items ++ spec.handle_ids handle) }
{
    match handle {
        Handle::Own(id) | Handle::Borrow(id) => ids.push(id)?,
    }
    Ok(())
}

/// Adds the types of both parts of a result.
fn add_parts(ids: &mut Vec<TypeId>, ok: &Option<Type>, err: &Option<Type>) -> Result<(), AllocError>
    ensures { OnOk result (ids.new.items ≡ ids.old.items ++ (spec.part_ids ok.now ++ spec.part_ids err.now)) }
{
    add_part(ids, ok)?;
    add_part(ids, err)
}

/// Adds the types that a definition is made of.
pub fn add_kind(ids: &mut Vec<TypeId>, kind: &TypeDefKind) -> Result<(), AllocError>
    ensures { OnOk result (ids.new.items ≡ ids.old.items ++ spec.kind_ids kind.now) }
{
    match kind {
        TypeDefKind::Record(record) => add_fields(ids, record.fields.as_slice()),
        TypeDefKind::Variant(variant) => add_cases(ids, variant.cases.as_slice()),
        TypeDefKind::Tuple(tuple) => add_types(ids, tuple.types.as_slice()),
        TypeDefKind::Handle(handle) => add_handle(ids, *handle),
        TypeDefKind::Option(ty)
        | TypeDefKind::List(ty)
        | TypeDefKind::FixedLengthList(ty, _)
        | TypeDefKind::Alias(ty) => add_type(ids, ty),
        TypeDefKind::Future(part) | TypeDefKind::Stream(part) => add_part(ids, part),
        TypeDefKind::Result(result) => add_parts(ids, &result.ok, &result.err),
        TypeDefKind::Resource
        | TypeDefKind::Flags(_)
        | TypeDefKind::Enum(_)
        | TypeDefKind::Unknown => Ok(()),
    }
}

/// Adds the resource that a function is of, if it is of one.
fn add_resource(ids: &mut Vec<TypeId>, kind: &FunctionKind) -> Result<(), AllocError>
    ensures { OnOk result (ids.new.items ≡ ids.old.items ++ spec.resource_ids kind.now) }
{
    if let Some(id) = kind.resource() {
        ids.push(id)?;
    }
    Ok(())
}

/// Adds the types that a function takes and gives.
fn add_signature(ids: &mut Vec<TypeId>, function: &Function) -> Result<(), AllocError>
    ensures { OnOk result (ids.new.items ≡ ids.old.items ++ spec.signature_ids function.now) }
{
    add_params(ids, function.params.as_slice())?;
    add_part(ids, &function.result)
}

/// Adds the resource that a function is of and the types that it takes and gives.
pub fn add_function(ids: &mut Vec<TypeId>, function: &Function) -> Result<(), AllocError>
    ensures { OnOk result (ids.new.items ≡ ids.old.items ++ spec.function_ids function.now) }
{
    add_resource(ids, &function.kind)?;
    add_signature(ids, function)
}

/// Adds the types that an item of a world is made of, or the type that it is.
fn add_item(ids: &mut Vec<TypeId>, item: &WorldItem) -> Result<(), AllocError>
    ensures { OnOk result (ids.new.items ≡ ids.old.items ++ spec.item_ids item.now) }
{
    match item {
        WorldItem::Interface { .. } => Ok(()),
        WorldItem::Function(function) => add_function(ids, function),
        WorldItem::TypeItem { id, .. } => {
            ids.push(*id)?;
            Ok(())
        }
    }
}

/// Adds the types that what a world imports or exports is made of, those of interfaces aside.
pub fn add_side(
    ids: &mut Vec<TypeId>,
    side: &IndexMap<WorldKey, WorldItem>,
) -> Result<(), AllocError>
    ensures { OnOk result (ids.new.items ≡ ids.old.items ++ spec.side_ids side.now.entries) }
{
    for item in side.values() {
        add_item(ids, item)?;
    }
    Ok(())
}
