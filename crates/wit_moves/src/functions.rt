//! Functions.

ghost use Rattle.std.specs.Prelude.{◌≡◌, map};
ghost use Rattle.std.specs.List.{list_all};
ghost use Rattle.wit_moves.specs.Moved as spec;

use crate::maps::{TypeMap, moved_part, moved_type};
use crate::places::TypePlaces;
use wit_features::{Function, FunctionKind, Param};

/// Whether the resource that a function is of stands somewhere, where it is of one.
pub fn has_resource(places: &TypePlaces, kind: &FunctionKind) -> bool
    ensures { result ≡ spec.is_resource_placed places.now (spec.resource_of kind.now) }
{
    match kind.resource() {
        Some(id) => places.has_id(id),
        None => true,
    }
}

/// Whether the types of all parameters stand somewhere.
fn has_params(places: &TypePlaces, params: &[Param]) -> bool
    ensures { result ≡ list_all (λ p. spec.is_ref_placed places.now p.ty) params.now }
{
    params.iter().all(|param| places.has(&param.ty))
}

/// Whether all types that a function takes and gives stand somewhere.
pub fn has_signature(places: &TypePlaces, function: &Function) -> bool
    ensures { result ≡ spec.is_signature_placed places.now function.now.params.items function.now.result }
{
    has_params(places, function.params.as_slice()) && places.has_part(&function.result)
}

/// Moves the types of parameters.
fn move_params<M: TypeMap>(ids: &M, params: &mut [Param])
    ensures { params.new ≡ map (spec.moved_param (M.goes ids.now)) params.old }
{
    for param in params.iter_mut() {
        param.ty = moved_type(ids, param.ty);
    }
}

/// The kind of a function of the resource where it stands.
fn moved_function_kind<M: TypeMap>(ids: &M, kind: FunctionKind) -> FunctionKind
    ensures { result ≡ spec.moved_function_kind (M.goes ids.now) kind }
{
    match kind {
        FunctionKind::Freestanding => FunctionKind::Freestanding,
        FunctionKind::AsyncFreestanding => FunctionKind::AsyncFreestanding,
        FunctionKind::Method(id) => FunctionKind::Method(ids.moved_id(id)),
        FunctionKind::AsyncMethod(id) => FunctionKind::AsyncMethod(ids.moved_id(id)),
        FunctionKind::Static(id) => FunctionKind::Static(ids.moved_id(id)),
        FunctionKind::AsyncStatic(id) => FunctionKind::AsyncStatic(ids.moved_id(id)),
        FunctionKind::Constructor(id) => FunctionKind::Constructor(ids.moved_id(id)),
    }
}

/// Moves a function to the types where they stand.
pub fn move_function<M: TypeMap>(ids: &M, function: &mut Function)
    ensures { spec.IsMovedFunction (M.goes ids.now) function.old function.new }
{
    move_params(ids, function.params.as_mut_slice());
    function.kind = moved_function_kind(ids, function.kind);
    function.result = moved_part(ids, function.result);
}
