//! Definitions of types.

ghost use Rattle.std.specs.Prelude.{◌≡◌, map};
ghost use Rattle.std.specs.List.{list_all};
ghost use Rattle.wit_features.specs.Passed.wit_types-declared-kind-TypeDefKind-TheVariants as of;
ghost use Rattle.wit_moves.specs.Moved as spec;

use crate::maps::{TypeMap, moved_part, moved_type};
use crate::places::TypePlaces;
use wit_features::{
    Case, Field, Handle, Record, Result_, Tuple, Type, TypeDef, TypeDefKind, TypeOwner, Variant,
};

/// Whether the types of all fields stand somewhere.
fn has_fields(places: &TypePlaces, fields: &[Field]) -> bool
    ensures { result ≡ list_all (λ x. spec.is_ref_placed places.now x.ty) fields.now }
{
    fields.iter().all(|field| places.has(&field.ty))
}

/// Whether the types of all cases stand somewhere.
fn has_cases(places: &TypePlaces, cases: &[Case]) -> bool
    ensures { result ≡ list_all (λ c. spec.is_part_placed places.now c.ty) cases.now }
{
    cases.iter().all(|case| places.has_part(&case.ty))
}

/// Whether all types stand somewhere.
fn has_types(places: &TypePlaces, types: &[Type]) -> bool
    ensures { result ≡ list_all (spec.is_ref_placed places.now) types.now }
{
    types.iter().all(|ty| places.has(ty))
}

/// Whether the resource behind a handle stands somewhere.
fn has_handle(places: &TypePlaces, handle: Handle) -> bool
    ensures { result ≡ spec.is_handle_placed places.now handle }
{
    match handle {
        Handle::Own(id) | Handle::Borrow(id) => places.has_id(id),
    }
}

/// Whether all types that a definition names stand somewhere.
pub fn has_kind(places: &TypePlaces, kind: &TypeDefKind) -> bool
    ensures { result ≡ spec.is_kind_placed places.now kind.now }
{
    match kind {
        TypeDefKind::Record(record) => has_fields(places, record.fields.as_slice()),
        TypeDefKind::Variant(variant) => has_cases(places, variant.cases.as_slice()),
        TypeDefKind::Tuple(tuple) => has_types(places, tuple.types.as_slice()),
        TypeDefKind::Handle(handle) => has_handle(places, *handle),
        TypeDefKind::Option(ty) => places.has(ty),
        TypeDefKind::List(ty) => places.has(ty),
        TypeDefKind::FixedLengthList(ty, _) => places.has(ty),
        TypeDefKind::Alias(ty) => places.has(ty),
        TypeDefKind::Future(part) => places.has_part(part),
        TypeDefKind::Stream(part) => places.has_part(part),
        TypeDefKind::Result(result) => {
            places.has_part(&result.ok) && places.has_part(&result.err)
        }
        TypeDefKind::Resource
        | TypeDefKind::Flags(_)
        | TypeDefKind::Enum(_)
        | TypeDefKind::Unknown => true,
    }
}

/// Moves the types of fields.
fn move_fields<M: TypeMap>(ids: &M, fields: &mut [Field])
    ensures { fields.new ≡ map (spec.moved_field (M.goes ids.now)) fields.old }
{
    for field in fields.iter_mut() {
        field.ty = moved_type(ids, field.ty);
    }
}

/// Moves the types of cases.
fn move_cases<M: TypeMap>(ids: &M, cases: &mut [Case])
    ensures { cases.new ≡ map (spec.moved_case (M.goes ids.now)) cases.old }
{
    for case in cases.iter_mut() {
        case.ty = moved_part(ids, case.ty);
    }
}

/// Moves types.
fn move_types<M: TypeMap>(ids: &M, types: &mut [Type])
    ensures { types.new ≡ map (spec.moved_ref (M.goes ids.now)) types.old }
{
    for ty in types.iter_mut() {
        *ty = moved_type(ids, *ty);
    }
}

/// A handle of the resource where it stands.
fn moved_handle<M: TypeMap>(ids: &M, handle: Handle) -> Handle
    ensures { result ≡ spec.moved_handle (M.goes ids.now) handle }
{
    match handle {
        Handle::Own(id) => Handle::Own(ids.moved_id(id)),
        Handle::Borrow(id) => Handle::Borrow(ids.moved_id(id)),
    }
}

/// A record of the types where they stand.
fn moved_record<M: TypeMap>(ids: &M, record_: Record) -> TypeDefKind
    ensures { spec.IsMovedKind (M.goes ids.now) (of.Record record_) result }
{
    let Record { mut fields } = record_;
    move_fields(ids, fields.as_mut_slice());
    TypeDefKind::Record(Record { fields })
}

/// A variant of the types where they stand.
fn moved_variant<M: TypeMap>(ids: &M, variant: Variant) -> TypeDefKind
    ensures { spec.IsMovedKind (M.goes ids.now) (of.Variant variant) result }
{
    let Variant { mut cases } = variant;
    move_cases(ids, cases.as_mut_slice());
    TypeDefKind::Variant(Variant { cases })
}

/// A tuple of the types where they stand.
fn moved_tuple<M: TypeMap>(ids: &M, tuple: Tuple) -> TypeDefKind
    ensures { spec.IsMovedKind (M.goes ids.now) (of.Tuple tuple) result }
{
    let Tuple { mut types } = tuple;
    move_types(ids, types.as_mut_slice());
    TypeDefKind::Tuple(Tuple { types })
}

/// A definition of the types where they stand.
pub fn moved_kind<M: TypeMap>(ids: &M, kind: TypeDefKind) -> TypeDefKind
    ensures { spec.IsMovedKind (M.goes ids.now) kind result }
{
    match kind {
        TypeDefKind::Record(record) => moved_record(ids, record),
        TypeDefKind::Variant(variant) => moved_variant(ids, variant),
        TypeDefKind::Tuple(tuple) => moved_tuple(ids, tuple),
        TypeDefKind::Handle(handle) => TypeDefKind::Handle(moved_handle(ids, handle)),
        TypeDefKind::Option(ty) => TypeDefKind::Option(moved_type(ids, ty)),
        TypeDefKind::List(ty) => TypeDefKind::List(moved_type(ids, ty)),
        TypeDefKind::FixedLengthList(ty, length) => {
            TypeDefKind::FixedLengthList(moved_type(ids, ty), length)
        }
        TypeDefKind::Alias(ty) => TypeDefKind::Alias(moved_type(ids, ty)),
        TypeDefKind::Future(part) => TypeDefKind::Future(moved_part(ids, part)),
        TypeDefKind::Stream(part) => TypeDefKind::Stream(moved_part(ids, part)),
        TypeDefKind::Result(result) => TypeDefKind::Result(Result_ {
            ok: moved_part(ids, result.ok),
            err: moved_part(ids, result.err),
        }),
        TypeDefKind::Flags(flags) => TypeDefKind::Flags(flags),
        TypeDefKind::Enum(labels) => TypeDefKind::Enum(labels),
        TypeDefKind::Resource => TypeDefKind::Resource,
        TypeDefKind::Unknown => TypeDefKind::Unknown,
    }
}

/// A type of the types where they stand, which belongs there.
pub fn moved_def<M: TypeMap>(ids: &M, owner: TypeOwner, def: TypeDef) -> TypeDef
    ensures { spec.IsMovedDef (M.goes ids.now) owner def result }
{
    let TypeDef {
        name,
        kind,
        owner: _,
        docs,
        stability,
        span,
    } = def;
    TypeDef {
        name,
        kind: moved_kind(ids, kind),
        owner,
        docs,
        stability,
        span,
    }
}
