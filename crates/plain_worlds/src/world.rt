//! The plain functions of worlds.

ghost use Rattle.std.specs.Prelude.{◌≡◌, [], map, string_bytes, option_map, IfOk};
ghost use Rattle.indexmap.specs.IndexMap.{values};
ghost use Rattle.std.specs.List.{list_all};
ghost use Rattle.distinct_names.specs.Names.{all_new};
ghost use Rattle.plain_worlds.specs.World as spec;

use distinct_names::Names;
use indexmap::IndexMap;
use std::alloc::{AllocError, Global};
use wit_types::{FunctionKind, Type, WorldItem, WorldKey};

/// A type of one core value: `bool`, or an integer (WIT, Types).
#[derive(Clone, Copy, Debug, PartialEq, Eq)]
pub enum PrimitiveType {
    /// `bool`
    Bool,
    /// `s8`
    S8,
    /// `u8`
    U8,
    /// `s16`
    S16,
    /// `u16`
    U16,
    /// `s32`
    S32,
    /// `u32`
    U32,
    /// `s64`
    S64,
    /// `u64`
    U64,
}

/// A parameter of a function.
#[derive(Debug, Drop)]
pub struct Param {
    pub name: String,
    pub ty: PrimitiveType,
}

/// A function: its name, parameters in order, and result.
#[derive(Debug, Drop)]
pub struct Function {
    pub name: String,
    pub params: Vec<Param>,
    pub result: Option<PrimitiveType>,
}

/// A world by its plain functions: some of those that it imports, and all that it exports, in its order.
#[derive(Debug, Drop)]
pub struct World {
    pub name: String,
    pub imports: Vec<Function>,
    pub exports: Vec<Function>,
}

/// The type, if it is `bool` or an integer, under no other name.
fn type_of(ty: &Type) -> Option<PrimitiveType>
    ensures { result ≡ spec.type_of ty.now }
{
    match ty {
        Type::Bool => Some(PrimitiveType::Bool),
        Type::U8 => Some(PrimitiveType::U8),
        Type::U16 => Some(PrimitiveType::U16),
        Type::U32 => Some(PrimitiveType::U32),
        Type::U64 => Some(PrimitiveType::U64),
        Type::S8 => Some(PrimitiveType::S8),
        Type::S16 => Some(PrimitiveType::S16),
        Type::S32 => Some(PrimitiveType::S32),
        Type::S64 => Some(PrimitiveType::S64),
        _ => None,
    }
}

/// The type of a result, if there is none or it is one of those.
fn result_of(ty: &Option<Type>) -> Option<Option<PrimitiveType>>
    ensures { result ≡ spec.result_of ty.now }
{
    match ty {
        Some(ty) => Some(Some(type_of(ty)?)),
        None => Some(None),
    }
}

/// The parameters, if all are of those types.
fn params_of(alloc: Global, params: &[wit_types::Param]) -> Result<Option<Vec<Param>>, AllocError>
    ensures { IfOk result (λ o. option_map (λ v. map spec.param_item v.items) o ≡ spec.each_of spec.parameter_of params.now) }
{
    let mut found = Vec::new(alloc);
    for param in params {
        let Some(ty) = type_of(&param.ty) else {
            return Ok(None);
        };
        let name = String::from_str(alloc, param.name.as_str())?;
        found.push(Param { name, ty })?;
    }
    Ok(Some(found))
}

/// A function that is neither `async` nor of a resource, if its types are of those.
fn typed_function(
    alloc: Global,
    function: &wit_types::Function,
) -> Result<Option<Function>, AllocError>
    ensures { IfOk result (λ o. option_map spec.function_item o ≡ spec.typed_function function.now) }
{
    let FunctionKind::Freestanding = function.kind else {
        return Ok(None);
    };
    let Some(params) = params_of(alloc, &function.params)? else {
        return Ok(None);
    };
    let Some(result) = result_of(&function.result) else {
        return Ok(None);
    };
    Ok(Some(Function {
        name: String::from_str(alloc, function.name.as_str())?,
        params,
        result,
    }))
}

/// A function, if it is plain: neither `async` nor of a resource, with at most 16 parameters, over `bool` and integers alone.
fn function_of(
    alloc: Global,
    function: &wit_types::Function,
) -> Result<Option<Function>, AllocError>
    ensures { IfOk result (λ o. option_map spec.function_item o ≡ spec.function_of function.now) }
{
    match typed_function(alloc, function)? {
        Some(function) if function_fits(alloc, &function)? => Ok(Some(function)),
        _ => Ok(None),
    }
}

/// What a world imports or exports, if it is a plain function.
fn item_of(alloc: Global, item: &WorldItem) -> Result<Option<Function>, AllocError>
    ensures { IfOk result (λ o. option_map spec.function_item o ≡ spec.item_of item.now) }
{
    match item {
        WorldItem::Function(function) => function_of(alloc, function),
        WorldItem::Interface { .. } | WorldItem::TypeItem { .. } => Ok(None),
    }
}

/// The plain functions of a side of a world.
fn functions_of(
    alloc: Global,
    side: &IndexMap<WorldKey, WorldItem>,
) -> Result<Vec<Function>, AllocError>
    ensures { IfOk result (λ v. map spec.function_item v.items ≡ spec.functions_of (values side.now)) }
{
    let mut found = Vec::new(alloc);
    for item in side.values() {
        if let Some(function) = item_of(alloc, item)? {
            found.push(function)?;
        }
    }
    Ok(found)
}

/// The functions of a side of a world, if all that it has are plain functions.
fn all_functions_of(
    alloc: Global,
    side: &IndexMap<WorldKey, WorldItem>,
) -> Result<Option<Vec<Function>>, AllocError>
    ensures { IfOk result (λ o. option_map (λ v. map spec.function_item v.items) o ≡ spec.each_of spec.item_of (values side.now)) }
{
    let mut found = Vec::new(alloc);
    for item in side.values() {
        let Some(function) = item_of(alloc, item)? else {
            return Ok(None);
        };
        found.push(function)?;
    }
    Ok(Some(found))
}

/// The plain functions that a world imports, and what it exports, if that is plain functions alone, and no two names of a side have
/// equal letters.
pub fn plain_world(alloc: Global, world: &wit_types::World) -> Result<Option<World>, AllocError>
    ensures { IfOk result (λ o. option_map spec.world_meaning o ≡ spec.plain_world world.now) }
{
    let Some(exports) = all_functions_of(alloc, &world.exports)? else {
        return Ok(None);
    };
    let plain = World {
        name: String::from_str(alloc, world.name.as_str())?,
        imports: functions_of(alloc, &world.imports)?,
        exports,
    };
    if !world_fits(alloc, &plain)? {
        return Ok(None);
    }
    Ok(Some(plain))
}

/// The most parameters that a function of this stage has.
const MOST_PARAMETERS: usize = 16;

/// Whether no two keys are equal.
fn are_distinct(alloc: Global, keys: &[String]) -> Result<bool, AllocError>
    ensures { IfOk result (λ b. b ≡ all_new [] (map string_bytes keys.now)) }
{
    let mut seen = Names::new(alloc);
    for key in keys {
        let name = key.as_str();
        if !seen.is_new(name) {
            return Ok(false);
        }
        seen.add(name)?;
    }
    Ok(true)
}

/// The keys of parameters' names: names that differ in the case of their letters alone have one key.
fn parameter_keys(alloc: Global, params: &[Param]) -> Result<Vec<String>, AllocError>
    ensures { IfOk result (λ v. map string_bytes v.items ≡ spec.parameter_keys (map spec.param_item params.now)) }
{
    let mut keys = Vec::new(alloc);
    for param in params {
        keys.push(param.name.to_ascii_lowercase(alloc)?)?;
    }
    Ok(keys)
}

/// The keys of functions' names.
fn function_keys(alloc: Global, functions: &[Function]) -> Result<Vec<String>, AllocError>
    ensures { IfOk result (λ v. map string_bytes v.items ≡ spec.function_keys (map spec.function_item functions.now)) }
{
    let mut keys = Vec::new(alloc);
    for function in functions {
        keys.push(function.name.to_ascii_lowercase(alloc)?)?;
    }
    Ok(keys)
}

fn function_fits(alloc: Global, function: &Function) -> Result<bool, AllocError>
    ensures { IfOk result (λ b. b ≡ spec.function_fits (spec.function_item function.now)) }
{
    if function.params.len() > MOST_PARAMETERS {
        return Ok(false);
    }
    are_distinct(alloc, &parameter_keys(alloc, &function.params)?)
}

/// Whether each function fits by itself.
fn each_fits(alloc: Global, functions: &[Function]) -> Result<bool, AllocError>
    ensures { IfOk result (λ b. b ≡ list_all spec.function_fits (map spec.function_item functions.now)) }
{
    for function in functions {
        if !function_fits(alloc, function)? {
            return Ok(false);
        }
    }
    Ok(true)
}

fn functions_fit(alloc: Global, functions: &[Function]) -> Result<bool, AllocError>
    ensures { IfOk result (λ b. b ≡ spec.functions_fit (map spec.function_item functions.now)) }
{
    if !each_fits(alloc, functions)? {
        return Ok(false);
    }
    are_distinct(alloc, &function_keys(alloc, functions)?)
}

/// Whether no function has more than 16 parameters, and no two names of one scope have equal letters.
pub fn world_fits(alloc: Global, world: &World) -> Result<bool, AllocError>
    ensures { IfOk result (λ b. b ≡ spec.world_fits (spec.world_meaning world.now)) }
{
    if !functions_fit(alloc, &world.imports)? {
        return Ok(false);
    }
    functions_fit(alloc, &world.exports)
}
