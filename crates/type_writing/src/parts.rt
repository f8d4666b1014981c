//! What types are made of, by the indices of what is written.

ghost use Rattle.std.specs.Prelude.{◌≡◌, ℕ, List, map, IfOk, IfErr, IfSome, IfNone, None, Some, string_bytes};
ghost use Rattle.type_meaning.specs.Passed.component_value_types-Names.{named_value, label_value};
ghost use Rattle.type_meaning.specs.Passed.component_value_types-Types.{case_value, defined_type_value};
ghost use Rattle.wit_types.specs.declared.interface.TypeDef.{TypeDef as Def};
ghost use Rattle.type_meaning.specs.Syntax.{primitive_kind, names_of};
ghost use Rattle.type_writing.specs.declared.fault.Fault.TheVariants.{NotYet};
ghost use Rattle.type_writing.specs.Unfolding as spec;
ghost use Rattle.type_writing.specs.Refusals.{IsCause, IsUnready, AreUnready, IsFormUnready, unlabelled_form};
ghost use Rattle.type_writing.specs.Writing.{Stands, PartStands, PartsStand, IsDefinedAs, IsRemembered};

use crate::encoder::ValtypeEncoder;
use crate::fault::Fault;
use std::alloc::{AllocError, Global};
use type_meaning::{CaseType, DefinedType, Label, Named, PrimitiveValueType, ValueType};
use wit_types::{Case, EnumCase, Field, Flag, Type, TypeDefKind};

/// The primitive type that a type is, if it is one that is written.
fn primitive_of(ty: &Type) -> Option<PrimitiveValueType>
    ensures some { IfSome result (λ p. spec.primitive_of ty.now ≡ Some (primitive_kind p)) }
    ensures none { IfNone result (spec.primitive_of ty.now ≡ None) }
{
    match ty {
        Type::Bool => Some(PrimitiveValueType::Bool),
        Type::U8 => Some(PrimitiveValueType::U8),
        Type::U16 => Some(PrimitiveValueType::U16),
        Type::U32 => Some(PrimitiveValueType::U32),
        Type::U64 => Some(PrimitiveValueType::U64),
        Type::S8 => Some(PrimitiveValueType::S8),
        Type::S16 => Some(PrimitiveValueType::S16),
        Type::S32 => Some(PrimitiveValueType::S32),
        Type::S64 => Some(PrimitiveValueType::S64),
        Type::F32 => Some(PrimitiveValueType::F32),
        Type::F64 => Some(PrimitiveValueType::F64),
        Type::Char => Some(PrimitiveValueType::Char),
        Type::String => Some(PrimitiveValueType::String),
        Type::ErrorContext | Type::Id(_) => None,
    }
}

/// The value type that a type is here.
pub fn value_of<'s, S: ValtypeEncoder<'s>>(sink: &S, ty: &Type) -> Result<ValueType, Fault>
    ensures stands { (types : List Def) → S.good sink.now types → IfOk result (λ v. Stands (S.setting sink.now).label types (S.space sink.now) ty.now v) }
    ensures cause { IfErr result (λ e. (e ≡ NotYet) × IsUnready (IsRemembered (S.table sink.now)) (Some ty.now)) }
{
    if let Some(primitive) = primitive_of(ty) {
        return Ok(ValueType::Primitive(primitive));
    }
    let Type::Id(id) = ty else {
        return Err(Fault::NotYet);
    };
    match sink.known(*id) {
        Some(index) => Ok(ValueType::Index(index)),
        None => Err(Fault::NotYet),
    }
}

/// The same of a type that may be missing.
pub fn part_of<'s, S: ValtypeEncoder<'s>>(
    sink: &S,
    part: &Option<Type>,
) -> Result<Option<ValueType>, Fault>
    ensures stands { (types : List Def) → S.good sink.now types → IfOk result (λ v. PartStands (S.setting sink.now).label types (S.space sink.now) part.now v) }
    ensures cause { IfErr result (λ e. (e ≡ NotYet) × IsUnready (IsRemembered (S.table sink.now)) part.now) }
{
    match part {
        Some(ty) => Ok(Some(value_of(sink, ty)?)),
        None => Ok(None),
    }
}

/// The fields of a record.
fn fields_of<'s, S: ValtypeEncoder<'s>>(
    alloc: Global,
    sink: &S,
    fields: &'s [Field],
) -> Result<Vec<Named<'s, ValueType>>, Fault>
    ensures names { IfOk result (λ v. names_of (map (named_value (λ t. t)) v.items) ≡ map (λ f. string_bytes f.name) fields.entry.now) }
    ensures parts { (types : List Def) → S.good sink.now types → IfOk result (λ v. PartsStand (S.setting sink.now).label types (S.space sink.now) (map (λ f. Some f.ty) fields.entry.now) (map (λ n. Some n.item) v.items)) }
    ensures cause { IfErr result (IsCause (AreUnready (IsRemembered (S.table sink.now)) (map (λ f. Some f.ty) fields.entry.now)) ⊥) }
{
    let mut found = Vec::new(alloc);
    for field in fields {
        found.push(Named {
            name: field.name.as_str(),
            item: value_of(sink, &field.ty)?,
        })?;
    }
    Ok(found)
}

/// The parts of a tuple.
fn types_of<'s, S: ValtypeEncoder<'s>>(
    alloc: Global,
    sink: &S,
    types: &[Type],
) -> Result<Vec<ValueType>, Fault>
    ensures parts { (defs : List Def) → S.good sink.now defs → IfOk result (λ v. PartsStand (S.setting sink.now).label defs (S.space sink.now) (map (λ r. Some r) types.now) (map (λ t. Some t) v.items)) }
    ensures cause { IfErr result (IsCause (AreUnready (IsRemembered (S.table sink.now)) (map (λ r. Some r) types.now)) ⊥) }
{
    let mut found = Vec::new(alloc);
    for ty in types {
        found.push(value_of(sink, ty)?)?;
    }
    Ok(found)
}

/// The cases of a variant.
fn cases_of<'s, S: ValtypeEncoder<'s>>(
    alloc: Global,
    sink: &S,
    cases: &'s [Case],
) -> Result<Vec<Named<'s, CaseType>>, Fault>
    ensures names { IfOk result (λ v. names_of (map (named_value case_value) v.items) ≡ map (λ c. string_bytes c.name) cases.entry.now) }
    ensures parts { (types : List Def) → S.good sink.now types → IfOk result (λ v. PartsStand (S.setting sink.now).label types (S.space sink.now) (map (λ c. c.ty) cases.entry.now) (map (λ n. case_value n.item) v.items)) }
    ensures cause { IfErr result (IsCause (AreUnready (IsRemembered (S.table sink.now)) (map (λ c. c.ty) cases.entry.now)) ⊥) }
{
    let mut found = Vec::new(alloc);
    for case in cases {
        let ty = part_of(sink, &case.ty)?;
        found.push(Named {
            name: case.name.as_str(),
            item: CaseType { ty },
        })?;
    }
    Ok(found)
}

/// The names of flags.
fn flag_names<'s>(alloc: Global, flags: &'s [Flag]) -> Result<Vec<Label<'s>>, AllocError>
    ensures { IfOk result (λ v. map label_value v.items ≡ map (λ f. string_bytes f.name) flags.entry.now) }
{
    let mut found = Vec::new(alloc);
    for flag in flags {
        found.push(Label {
            name: flag.name.as_str(),
        })?;
    }
    Ok(found)
}

/// The names of the cases of an enum.
fn case_names<'s>(alloc: Global, cases: &'s [EnumCase]) -> Result<Vec<Label<'s>>, AllocError>
    ensures { IfOk result (λ v. map label_value v.items ≡ map (λ c. string_bytes c.name) cases.entry.now) }
{
    let mut found = Vec::new(alloc);
    for case in cases {
        found.push(Label {
            name: case.name.as_str(),
        })?;
    }
    Ok(found)
}

/// What a type is defined as that is no other name of one.
pub fn defined_of<'s, S: ValtypeEncoder<'s>>(
    alloc: Global,
    sink: &S,
    kind: &'s TypeDefKind,
) -> Result<DefinedType<'s>, Fault>
    ensures defined { (types : List Def) → S.good sink.now types → IfOk result (λ d. IsDefinedAs (S.setting sink.now).label types (S.space sink.now) kind.entry.now (defined_type_value d)) }
    ensures cause { IfErr result (IsCause (IsFormUnready (IsRemembered (S.table sink.now)) (spec.form_of kind.entry.now)) ⊥) }
{
    match kind {
        TypeDefKind::Record(record) => Ok(DefinedType::Record(fields_of(
            alloc,
            sink,
            &record.fields,
        )?)),
        TypeDefKind::Tuple(tuple) => Ok(DefinedType::Tuple(types_of(alloc, sink, &tuple.types)?)),
        TypeDefKind::Variant(variant) => {
            Ok(DefinedType::Variant(cases_of(alloc, sink, &variant.cases)?))
        }
        TypeDefKind::Flags(flags) => Ok(DefinedType::Flags(flag_names(alloc, &flags.flags)?)),
        TypeDefKind::Enum(cases) => Ok(DefinedType::Enum(case_names(alloc, &cases.cases)?)),
        _ => defined_of_one(sink, kind),
    }
}

/// The same of what has one or two parts at most.
fn defined_of_one<'s, S: ValtypeEncoder<'s>>(
    sink: &S,
    kind: &TypeDefKind,
) -> Result<DefinedType<'s>, Fault>
    ensures defined { (types : List Def) → S.good sink.now types → IfOk result (λ d. IsDefinedAs (S.setting sink.now).label types (S.space sink.now) kind.now (defined_type_value d)) }
    ensures cause { IfErr result (IsCause (IsFormUnready (IsRemembered (S.table sink.now)) (unlabelled_form kind.now)) ⊥) }
{
    match kind {
        TypeDefKind::Option(ty) => Ok(DefinedType::Option(value_of(sink, ty)?)),
        TypeDefKind::List(ty) => Ok(DefinedType::List(value_of(sink, ty)?)),
        TypeDefKind::FixedLengthList(ty, length) => Ok(DefinedType::FixedLengthList {
            element: value_of(sink, ty)?,
            length: *length,
        }),
        TypeDefKind::Result(parts) => Ok(DefinedType::Result {
            ok: part_of(sink, &parts.ok)?,
            err: part_of(sink, &parts.err)?,
        }),
        _ => Err(Fault::NotYet),
    }
}
