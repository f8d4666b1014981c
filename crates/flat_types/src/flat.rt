//! Core types of types.

ghost use Rattle.std.specs.Prelude.{◌≡◌, List, map, IfOk};
ghost use Rattle.wit_types.specs.declared.kind.«Type».TheVariants.{Id};
ghost use Rattle.flat_types.specs.Flats as spec;
ghost use Rattle.flat_types.specs.View.{flat_value, known_value};

use crate::known::{
    Flat, Known, a_float, a_handle, a_long_float, a_long_integer, a_string, nothing,
};
use crate::part::Part;
use std::alloc::{AllocError, Global};
use std::marker::Model;
use wit_types::{Arena, Type, TypeDef, TypeDefKind, TypeId};

/// The core types of the types of an arena, by their ids, as far as any question looks: the first 17 (Canonical ABI,
/// Flattening).
#[derive(Drop)]
pub struct FlatTypes {
    known: Vec<Flat>,
}

impl Model for FlatTypes {
    ghost use Rattle.std.specs.Prelude.{List, map};
    ghost use Rattle.flat_types.specs.Flats.{FlatValue};

    ghost Value = { List FlatValue };

    ghost use Rattle.flat_types.specs.View.{flat_value};

    ghost view = { λ f. map flat_value f.known.items };
}

/// Of the type under an id; of an id that has none yet, of nothing.
fn of_id(known: &[Flat], id: TypeId) -> Known<'_>
    ensures { known_value result ≡ spec.ref_flat (map flat_value known.now) (Id id) }
{
    let Some(flat) = known.get(id.index()) else {
        return nothing();
    };
    flat.known()
}

/// Of a type where it is used.
fn of_ref<'a>(known: &'a [Flat], ty: &Type) -> Known<'a>
    ensures { known_value result ≡ spec.ref_flat (map flat_value known.now) ty.now }
{
    match ty {
        Type::Id(id) => of_id(known, *id),
        Type::U64 | Type::S64 => a_long_integer(),
        Type::F32 => a_float(),
        Type::F64 => a_long_float(),
        Type::String => a_string(),
        _ => a_handle(),
    }
}

/// Of a part that may be missing.
fn of_part<'a>(known: &'a [Flat], part: Option<Type>) -> Known<'a>
    ensures { known_value result ≡ spec.part_flat (map flat_value known.now) part }
{
    match part {
        Some(ty) => of_ref(known, &ty),
        None => nothing(),
    }
}

/// Of parts that stand one after the other.
fn of_fields<P: Part>(alloc: Global, known: &[Flat], parts: &[P]) -> Result<Flat, AllocError>
    ensures { IfOk result (λ f. flat_value f ≡ spec.of_fields (map (λ p. spec.part_flat (map flat_value known.now) (P.part p)) parts.now)) }
{
    let mut flat = Flat::nothing(alloc);
    for part in parts {
        flat.append(of_part(known, part.ty()))?;
    }
    Ok(flat)
}

/// Of cases, which share their places.
fn of_cases<P: Part>(alloc: Global, known: &[Flat], cases: &[P]) -> Result<Flat, AllocError>
    ensures { IfOk result (λ f. flat_value f ≡ spec.of_cases (map (λ p. spec.part_flat (map flat_value known.now) (P.part p)) cases.now)) }
{
    let mut payload = Flat::nothing(alloc);
    for case in cases {
        payload.join(of_part(known, case.ty()))?;
    }
    payload.with_number()
}

/// Of a type by what it is.
fn of_kind(alloc: Global, known: &[Flat], kind: &TypeDefKind) -> Result<Flat, AllocError>
    ensures { IfOk result (λ f. flat_value f ≡ spec.kind_flat (map flat_value known.now) kind.now) }
{
    match kind {
        TypeDefKind::Record(record) => of_fields(alloc, known, record.fields.as_slice()),
        TypeDefKind::Tuple(tuple) => of_fields(alloc, known, tuple.types.as_slice()),
        TypeDefKind::Variant(variant) => of_cases(alloc, known, variant.cases.as_slice()),
        TypeDefKind::Option(ty) => of_cases(alloc, known, &[*ty]),
        TypeDefKind::Result(parts) => of_cases(alloc, known, &[parts.ok, parts.err]),
        TypeDefKind::List(ty) => of_ref(known, ty).list().keep(alloc),
        TypeDefKind::FixedLengthList(ty, length) => of_ref(known, ty).repeat(alloc, *length),
        TypeDefKind::Alias(ty) => of_ref(known, ty).keep(alloc),
        TypeDefKind::Resource
        | TypeDefKind::Handle(_)
        | TypeDefKind::Flags(_)
        | TypeDefKind::Enum(_)
        | TypeDefKind::Future(_)
        | TypeDefKind::Stream(_)
        | TypeDefKind::Unknown => a_handle().keep(alloc),
    }
}

impl FlatTypes {
    /// The core types of the types of an arena, each by those before it. It takes as long as the types are long: however many
    /// core types a value has, 17 at most are made of it, and however long a fixed-length list is, 17 rounds are enough.
    pub fn new(alloc: Global, types: &Arena<TypeDef>) -> Result<FlatTypes, AllocError>
        ensures { IfOk result (λ f. f ≡ spec.flats types.now) }
    {
        let mut known = Vec::new(alloc);
        for def in types.iter() {
            let flat = of_kind(alloc, known.as_slice(), &def.kind)?;
            known.push(flat)?;
        }
        Ok(FlatTypes { known })
    }

    /// Of a part that may be missing.
    pub(crate) fn of_part(&self, part: Option<Type>) -> Known<'_>
        ensures { known_value result ≡ spec.part_flat self.now part }
    {
        of_part(self.known.as_slice(), part)
    }

    /// Of parts that stand one after the other.
    pub(crate) fn of_fields<P: Part>(&self, alloc: Global, parts: &[P]) -> Result<Flat, AllocError>
        ensures { IfOk result (λ f. flat_value f ≡ spec.of_fields (map (λ p. spec.part_flat self.now (P.part p)) parts.now)) }
    {
        of_fields(alloc, self.known.as_slice(), parts)
    }
}
