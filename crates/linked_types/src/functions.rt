//! Functions, and the types that they reach.

ghost use Rattle.std.specs.Prelude.{◌≡◌, ◌++◌, map, None, IfOk, OnOk, IfErr};
ghost use Rattle.std.specs.List.{list_any};
ghost use Rattle.wit_reach.specs.Types.{AreTypesBackward, AreTypesThere};
ghost use Rattle.linked_types.specs.Kinds as kinds;
ghost use Rattle.linked_types.specs.Reached as spec;

use crate::fault::TypeFault;
use crate::kinds::{if_async, is_error_context, kind_fault, part_is};
use std::alloc::{AllocError, Global};
use wit_reach::{add_function, made_of};
use wit_types::{Arena, Function, FunctionKind, Param, TypeDef, TypeId};

/// Why functions of a kind aren't linked.
fn function_kind_fault(kind: &FunctionKind) -> Option<TypeFault>
    ensures { result ≡ spec.function_kind_fault kind.now }
{
    match kind {
        FunctionKind::Freestanding => None,
        FunctionKind::AsyncFreestanding => Some(TypeFault::AsyncReached),
        FunctionKind::AsyncMethod(_) => Some(TypeFault::AsyncReached),
        FunctionKind::AsyncStatic(_) => Some(TypeFault::AsyncReached),
        FunctionKind::Method(_) => Some(TypeFault::NotYet),
        FunctionKind::Static(_) => Some(TypeFault::NotYet),
        FunctionKind::Constructor(_) => Some(TypeFault::NotYet),
    }
}

/// Whether one of these parameters is an error context.
fn param_is(params: &[Param]) -> bool
    ensures { result ≡ list_any (λ p. kinds.is_error_context p.ty) params.now }
{
    params.iter().any(|param| is_error_context(&param.ty))
}

/// Why a function by itself isn't linked: functions of resources are to come, async ones and those that take or give an error context are
/// asynchronous (Component Model, Explainer, Type Definitions).
pub fn function_fault(function: &Function) -> Option<TypeFault>
    ensures { result ≡ spec.function_fault function.now }
{
    match function_kind_fault(&function.kind) {
        Some(fault) => Some(fault),
        None => if_async(param_is(&function.params) || part_is(function.result.as_ref())),
    }
}

/// Looks at functions by themselves, and adds the types that they take and give.
fn add_functions(ids: &mut Vec<TypeId>, functions: &[&Function]) -> Result<(), TypeFault>
    ensures ids { OnOk result (ids.new.items ≡ ids.old.items ++ spec.ids_of (spec.functions functions.now)) }
    ensures linked { OnOk result (spec.AreLinked (spec.functions functions.now)) }
    ensures cause { IfErr result (spec.IsFunctionCause (spec.functions functions.now)) }
{
    for function in functions {
        if let Some(fault) = function_fault(function) {
            return Err(fault);
        }
        add_function(ids, function)?;
    }
    Ok(())
}

/// Looks at types.
fn check_types(types: &Arena<TypeDef>, ids: &[TypeId]) -> Result<(), TypeFault>
    requires { AreTypesThere types.now ids.now }
    ensures linked { OnOk result (spec.AreTypesLinked types.now ids.now) }
    ensures cause { IfErr result (spec.IsTypeCause types.now ids.now) }
{
    for id in ids {
        if let Some(fault) = kind_fault(&types.get(*id).kind) {
            return Err(fault);
        }
    }
    Ok(())
}

/// Whether functions and all types that they reach may be linked (Component Model, Explainer, Type Definitions). Types are made of earlier
/// ones, and those of the functions are there. Answers `NotYet` where a resource or a handle is reached, `AsyncReached` where an async
/// function, a future, a stream or an error context is, `EmptyTypeReached` where a record, a tuple or flags without parts are,
/// `TooManyFlags` where flags of more than 32 are, and `OutOfMemory` where memory is wanting.
pub fn check_functions(
    alloc: Global,
    types: &Arena<TypeDef>,
    functions: &[&Function],
) -> Result<(), TypeFault>
    requires backward { AreTypesBackward types.now }
    requires there { AreTypesThere types.now (spec.ids_of (spec.functions functions.now)) }
    ensures linked { OnOk result (spec.MayBeLinked types.now (spec.functions functions.now)) }
    ensures cause { IfErr result (spec.IsCause types.now (spec.functions functions.now)) }
{
    let mut ids = Vec::new(alloc);
    add_functions(&mut ids, functions)?;
    let reached = made_of(alloc, types, ids.as_slice())?;
    check_types(types, reached.as_slice())
}
