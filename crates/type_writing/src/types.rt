//! Types that are written one after the other, each behind those that it is made of.

ghost use Rattle.std.specs.Prelude.{◌≡◌, ◌⊎◌, ℕ, ◌<◌, ◌++◌, List, length, IfOk, IfErr, OnOk, slice_get, Some};
ghost use Rattle.std.specs.List.{All, AllByRecursion as Each};
ghost use Rattle.type_meaning.specs.Passed.component_value_types-declared-values-ValueType-TheVariants.{Index};
ghost use Rattle.wit_types.specs.Passed.wit_order-Order.{Has};
ghost use Rattle.wit_types.specs.declared.interface.TypeDef.{TypeDef as Def};
ghost use Rattle.wit_types.specs.declared.kind.«Type».TheVariants.{Id};
ghost use Rattle.wit_types.specs.declared.kind.TypeDefKind.TheVariants as kind;
ghost use Rattle.type_writing.specs.Placing.{HasLabelsApart, AreLabelsApart};
ghost use Rattle.type_writing.specs.Refusals.{IsCause, IsUnready, IsKindUnready, IsTypeUnready, AreTypesUnready};
ghost use Rattle.type_writing.specs.Writing.{Stands, KindStands, Begins, HasItsName, name_of, names_of_types, IsRemembered};

use crate::encoder::ValtypeEncoder;
use crate::fault::Fault;
use crate::parts::{defined_of, value_of};
use std::alloc::Global;
use type_meaning::{DefinedType, ValueType};
use wit_types::{Arena, Type, TypeDef, TypeDefKind, TypeId};

/// Writes another name of a type, without that name, and answers its index: that of the type, where it has one.
fn write_alias<'s, S: ValtypeEncoder<'s>>(sink: &mut S, ty: &Type) -> Result<u32, Fault>
    ensures setting { S.setting sink.new ≡ S.setting sink.old }
    ensures outside { Begins (S.outside sink.old) (S.outside sink.new) }
    ensures table { S.table sink.new ≡ S.table sink.old }
    ensures names { S.names sink.new ≡ S.names sink.old }
    ensures given { (k : ℕ) → S.given sink.old k → S.given sink.new k }
    ensures keeps { (types : List Def) → S.good sink.old types → Begins (S.space sink.old) (S.space sink.new) × S.good sink.new types }
    ensures placed { S.placed sink.old → S.placed sink.new }
    ensures stands { (types : List Def) → S.good sink.old types → IfOk result (λ i. KindStands (S.setting sink.new).label types (S.space sink.new) (kind.Alias ty.now) i) }
    ensures cause { IfErr result (IsCause (IsUnready (IsRemembered (S.table sink.old)) (Some ty.now)) (S.full sink.new)) }
{
    match value_of(sink, ty)? {
        ValueType::Index(index) => Ok(index),
        ValueType::Primitive(primitive) => sink.define(DefinedType::Primitive(primitive)),
    }
}

/// Writes what a type is, without its own name, and answers its index.
fn write_kind<'s, S: ValtypeEncoder<'s>>(
    alloc: Global,
    sink: &mut S,
    kind: &'s TypeDefKind,
) -> Result<u32, Fault>
    ensures setting { S.setting sink.new ≡ S.setting sink.old }
    ensures outside { Begins (S.outside sink.old) (S.outside sink.new) }
    ensures table { S.table sink.new ≡ S.table sink.old }
    ensures names { S.names sink.new ≡ S.names sink.old }
    ensures given { (k : ℕ) → S.given sink.old k → S.given sink.new k }
    ensures keeps { (types : List Def) → S.good sink.old types → Begins (S.space sink.old) (S.space sink.new) × S.good sink.new types }
    ensures placed { (types : List Def) → S.good sink.old types → HasLabelsApart kind.entry.now → S.placed sink.old → S.placed sink.new }
    ensures stands { (types : List Def) → S.good sink.old types → IfOk result (λ i. KindStands (S.setting sink.new).label types (S.space sink.new) kind.entry.now i) }
    ensures cause { IfErr result (IsCause (IsKindUnready (IsRemembered (S.table sink.old)) kind.entry.now) (S.full sink.new)) }
{
    if let TypeDefKind::Alias(ty) = kind {
        return write_alias(sink, ty);
    }
    let defined = defined_of(alloc, sink, kind)?;
    sink.define(defined)
}

/// Writes a type under its own name, if it has one, and answers its index.
fn write_named<'s, S: ValtypeEncoder<'s>>(
    alloc: Global,
    sink: &mut S,
    types: &'s Arena<TypeDef>,
    id: TypeId,
) -> Result<u32, Fault>
    requires there { id < length types.now }
    requires good { S.good sink.old types.now }
    ensures setting { S.setting sink.new ≡ S.setting sink.old }
    ensures outside { Begins (S.outside sink.old) (S.outside sink.new) }
    ensures begins { Begins (S.space sink.old) (S.space sink.new) }
    ensures good { S.good sink.new types.entry.now }
    ensures placed { AreLabelsApart types.entry.now → S.placed sink.old → S.placed sink.new }
    ensures table { S.table sink.new ≡ S.table sink.old }
    ensures names { OnOk result (S.names sink.new ≡ S.names sink.old ++ name_of (S.setting sink.old) (slice_get types.entry.now id)) }
    ensures given { (k : ℕ) → S.given sink.old k → S.given sink.new k }
    ensures named { OnOk result (HasItsName (S.setting sink.old) types.entry.now (S.given sink.new) id) }
    ensures stands { IfOk result (λ i. Stands (S.setting sink.new).label types.entry.now (S.space sink.new) (Id id) (Index i)) }
    ensures cause { IfErr result (IsCause (IsTypeUnready (S.setting sink.old) (IsRemembered (S.table sink.old)) (S.names sink.old) types.entry.now id) (S.full sink.new)) }
{
    let def = types.get(id);
    let Some(name) = &def.name else {
        return write_kind(alloc, sink, &def.kind);
    };
    if !sink.is_own(def.owner) {
        return sink.foreign(def.owner, name.as_str(), id);
    }
    let body = write_kind(alloc, sink, &def.kind)?;
    sink.declare(def.owner, name.as_str(), id, body)
}

/// Writes a type, behind those that it is made of, and answers its index, which is remembered. Answers `NotYet` where one that it is made
/// of isn't written, or is never written as a resource, a handle, a future, a stream or an error context; where its name is there already;
/// and where it is a type of others and no instance has it. Answers `TooLarge` where 32 bits can't say an index, and `OutOfMemory` where
/// memory is wanting. Where that fails, what is written until then stays.
pub fn write_type<'s, S: ValtypeEncoder<'s>>(
    alloc: Global,
    sink: &mut S,
    types: &'s Arena<TypeDef>,
    id: TypeId,
) -> Result<u32, Fault>
    requires there { id < length types.now }
    requires good { S.good sink.old types.now }
    ensures setting { S.setting sink.new ≡ S.setting sink.old }
    ensures outside { Begins (S.outside sink.old) (S.outside sink.new) }
    ensures begins { Begins (S.space sink.old) (S.space sink.new) }
    ensures good { S.good sink.new types.entry.now }
    ensures placed { AreLabelsApart types.entry.now → S.placed sink.old → S.placed sink.new }
    ensures remembered { IfOk result (λ i. S.table sink.new id ≡ Some i) }
    ensures remembers { OnOk result ((k : ℕ) → IsRemembered (S.table sink.old) k → IsRemembered (S.table sink.new) k) }
    ensures names { OnOk result (S.names sink.new ≡ S.names sink.old ++ name_of (S.setting sink.old) (slice_get types.entry.now id)) }
    ensures given { (k : ℕ) → S.given sink.old k → S.given sink.new k }
    ensures named { OnOk result (HasItsName (S.setting sink.old) types.entry.now (S.given sink.new) id) }
    ensures stands { IfOk result (λ i. Stands (S.setting sink.new).label types.entry.now (S.space sink.new) (Id id) (Index i)) }
    ensures cause { IfErr result (IsCause (IsTypeUnready (S.setting sink.old) (IsRemembered (S.table sink.old)) (S.names sink.old) types.entry.now id) (S.full sink.new)) }
{
    let index = write_named(alloc, sink, types, id)?;
    sink.remember(id, index)?;
    Ok(index)
}

/// Writes types in order, each behind those that it is made of. Answers `NotYet` where that is so of one of them, with those that stand in
/// front of it written, `TooLarge` where 32 bits can't say an index, and `OutOfMemory` where memory is wanting. Where that fails, what is
/// written until then stays.
pub fn write_types<'s, S: ValtypeEncoder<'s>>(
    alloc: Global,
    sink: &mut S,
    types: &'s Arena<TypeDef>,
    ids: &[TypeId],
) -> Result<(), Fault>
    requires there { All (λ id. id < length types.now) ids.now }
    requires good { S.good sink.old types.now }
    ensures setting { S.setting sink.new ≡ S.setting sink.old }
    ensures outside { Begins (S.outside sink.old) (S.outside sink.new) }
    ensures begins { Begins (S.space sink.old) (S.space sink.new) }
    ensures good { S.good sink.new types.entry.now }
    ensures placed { AreLabelsApart types.entry.now → S.placed sink.old → S.placed sink.new }
    ensures remembered { OnOk result ((k : ℕ) → IsRemembered (S.table sink.old) k ⊎ Has ids.now k → IsRemembered (S.table sink.new) k) }
    ensures names { OnOk result (S.names sink.new ≡ S.names sink.old ++ names_of_types (S.setting sink.old) types.entry.now ids.now) }
    ensures given { (k : ℕ) → S.given sink.old k → S.given sink.new k }
    ensures named { OnOk result (Each (HasItsName (S.setting sink.old) types.entry.now (S.given sink.new)) ids.now) }
    ensures cause { IfErr result (IsCause (AreTypesUnready (S.setting sink.old) (IsRemembered (S.table sink.old)) (S.names sink.old) types.entry.now ids.now) (S.full sink.new)) }
{
    for id in ids {
        write_type(alloc, sink, types, *id)?;
    }
    Ok(())
}
