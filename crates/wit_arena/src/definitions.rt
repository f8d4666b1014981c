//! Definitions as they are written, brought into an arena.

ghost use Rattle.std.specs.Prelude.{◌≡◌, Option, Some, None, map, option_map, IfOk};
ghost use Rattle.wit_types.specs.declared.kind.«Type».{«Type» as Ref};
ghost use Rattle.wit_type_names.specs.Passed.wit_productions-TypeTree.{TypeOption, no_type, opt};
ghost use Rattle.wit_type_names.specs.Passed.wit_syntax-AstView as view;
ghost use Rattle.wit_type_names.specs.Passed.wit_productions-TypeView.{type_tree};
ghost use Rattle.wit_type_names.specs.Passed.wit_items-ItemTree as item;
ghost use Rattle.wit_type_names.specs.TypeNames.{names_in_part, names_in_parts, definition_parts, field_parts, case_parts};
ghost use Rattle.wit_type_names.specs.TypeView.{type_part};
ghost use Rattle.wit_arena.specs.Lower.{AreThere, LowersPart, LowersParts};
ghost use Rattle.wit_arena.specs.LowerKind.{Label, written_field, written_label, written_case, field_label, flag_label, enum_case_label, case_label, LowersKind};

use crate::docs::docs_of;
use crate::lowering::lower;
use crate::table::Table;
use crate::types::Types;
use std::alloc::AllocError;
use wit_types::{Case, Enum, EnumCase, Field, Flag, Flags, Record, Type, TypeDefKind, Variant};

/// What stands under a name of its own in a definition or a function: a field, a flag, a case, a parameter.
pub trait Part<'a>: Sized + Drop {
    /// The same as it is written.
    type Written;

    ghost label: { Self → Label };

    ghost part: { Self → Option Ref };

    ghost source_label: { Self.Written → Label };

    ghost source_part: { Self.Written → TypeOption };

    /// What it is in the arena.
    fn bring(
        types: &mut Types,
        table: &Table<'_>,
        written: &Self::Written,
    ) -> Result<Self, AllocError>
        requires { AreThere table.now (names_in_part (source_part written.now)) }
        ensures label { IfOk result (λ p. label p ≡ source_label written.now) }
        ensures part { IfOk result (λ p. LowersPart table.now types.old (source_part written.now) types.new (part p)) };
}

impl<'a> Part<'a> for Field {
    type Written = wit_type_names::Field<'a>;

    ghost label = { field_label };

    ghost part = { λ f. Some f.ty };

    ghost source_label = { λ f. written_field (view.field f) };

    ghost source_part = { λ f. type_part f.ty };

    fn bring(
        types: &mut Types,
        table: &Table<'_>,
        written: &wit_type_names::Field<'a>,
    ) -> Result<Field, AllocError> {
        let docs = docs_of(types.allocator(), &written.docs)?;
        let name = String::from_str(types.allocator(), written.name.name)?;
        let ty = lower(types, table, &written.ty)?;
        let span = written.name.span;
        Ok(Field {
            docs,
            name,
            ty,
            span,
        })
    }
}

impl<'a> Part<'a> for Flag {
    type Written = wit_type_names::Flag<'a>;

    ghost label = { flag_label };

    ghost part = { λ _. None };

    ghost source_label = { λ f. written_label (view.flag f) };

    ghost source_part = { λ _. no_type };

    fn bring(
        types: &mut Types,
        _table: &Table<'_>,
        written: &wit_type_names::Flag<'a>,
    ) -> Result<Flag, AllocError> {
        let docs = docs_of(types.allocator(), &written.docs)?;
        let name = String::from_str(types.allocator(), written.name.name)?;
        let span = written.name.span;
        Ok(Flag { docs, name, span })
    }
}

impl<'a> Part<'a> for EnumCase {
    type Written = wit_type_names::EnumCase<'a>;

    ghost label = { enum_case_label };

    ghost part = { λ _. None };

    ghost source_label = { λ c. written_label (view.enum_case c) };

    ghost source_part = { λ _. no_type };

    fn bring(
        types: &mut Types,
        _table: &Table<'_>,
        written: &wit_type_names::EnumCase<'a>,
    ) -> Result<EnumCase, AllocError> {
        let docs = docs_of(types.allocator(), &written.docs)?;
        let name = String::from_str(types.allocator(), written.name.name)?;
        let span = written.name.span;
        Ok(EnumCase { docs, name, span })
    }
}

impl<'a> Part<'a> for Case {
    type Written = wit_type_names::Case<'a>;

    ghost label = { case_label };

    ghost part = { λ c. c.ty };

    ghost source_label = { λ c. written_case (view.case c) };

    ghost source_part = { λ c. opt (option_map type_tree c.ty) };

    fn bring(
        types: &mut Types,
        table: &Table<'_>,
        written: &wit_type_names::Case<'a>,
    ) -> Result<Case, AllocError> {
        let docs = docs_of(types.allocator(), &written.docs)?;
        let name = String::from_str(types.allocator(), written.name.name)?;
        let ty = lower_optional(types, table, &written.ty)?;
        let span = written.name.span;
        Ok(Case {
            docs,
            name,
            ty,
            span,
        })
    }
}

/// The type in the arena, if there is one.
pub fn lower_optional(
    types: &mut Types,
    table: &Table<'_>,
    ty: &Option<wit_type_names::Type<'_>>,
) -> Result<Option<Type>, AllocError>
    requires { AreThere table.now (names_in_part (opt (option_map type_tree ty.now))) }
    ensures { IfOk result (λ r. LowersPart table.now types.old (opt (option_map type_tree ty.now)) types.new r) }
{
    match ty {
        Some(ty) => Ok(Some(lower(types, table, ty)?)),
        None => Ok(None),
    }
}

/// What stands in a definition or a function, from left to right.
pub fn bring_all<'a, T: Part<'a>>(
    types: &mut Types,
    table: &Table<'_>,
    items: &[T::Written],
) -> Result<Vec<T>, AllocError>
    requires { AreThere table.now (names_in_parts (map T.source_part items.now)) }
    ensures labels { IfOk result (λ v. map T.label v.items ≡ map T.source_label items.now) }
    ensures types { IfOk result (λ v. LowersParts table.now types.old (map T.source_part items.now) types.new (map T.part v.items)) }
{
    let mut found = Vec::new(types.allocator());
    for item in items {
        found.push(T::bring(types, table, item)?)?;
    }
    Ok(found)
}

/// A record in the arena.
fn lower_record(
    types: &mut Types,
    table: &Table<'_>,
    fields: &[wit_type_names::Field<'_>],
) -> Result<TypeDefKind, AllocError>
    requires { AreThere table.now (names_in_parts (field_parts (map view.field fields.now))) }
    ensures { IfOk result (λ k. LowersKind table.now types.old (item.fields (map view.field fields.now)) types.new k) }
{
    let fields = bring_all(types, table, fields)?;
    Ok(TypeDefKind::Record(Record { fields }))
}

/// Flags in the arena.
fn lower_flags(
    types: &mut Types,
    table: &Table<'_>,
    flags: &[wit_type_names::Flag<'_>],
) -> Result<TypeDefKind, AllocError>
    ensures { IfOk result (λ k. LowersKind table.now types.old (item.flags (map view.flag flags.now)) types.new k) }
{
    let flags = bring_all(types, table, flags)?;
    Ok(TypeDefKind::Flags(Flags { flags }))
}

/// An enum in the arena.
fn lower_enum(
    types: &mut Types,
    table: &Table<'_>,
    cases: &[wit_type_names::EnumCase<'_>],
) -> Result<TypeDefKind, AllocError>
    ensures { IfOk result (λ k. LowersKind table.now types.old (item.labels (map view.enum_case cases.now)) types.new k) }
{
    let cases = bring_all(types, table, cases)?;
    Ok(TypeDefKind::Enum(Enum { cases }))
}

/// A variant in the arena.
fn lower_variant(
    types: &mut Types,
    table: &Table<'_>,
    cases: &[wit_type_names::Case<'_>],
) -> Result<TypeDefKind, AllocError>
    requires { AreThere table.now (names_in_parts (case_parts (map view.case cases.now))) }
    ensures { IfOk result (λ k. LowersKind table.now types.old (item.cases (map view.case cases.now)) types.new k) }
{
    let cases = bring_all(types, table, cases)?;
    Ok(TypeDefKind::Variant(Variant { cases }))
}

/// What a definition is in the arena, behind the types that stand in it. Each name that stands in them is in the table.
pub fn lower_kind(
    types: &mut Types,
    table: &Table<'_>,
    kind: &wit_type_names::TypeDefKind<'_>,
) -> Result<TypeDefKind, AllocError>
    requires { AreThere table.now (names_in_parts (definition_parts (view.type_def_kind kind.now))) }
    ensures { IfOk result (λ k. LowersKind table.now types.old (view.type_def_kind kind.now) types.new k) }
{
    match kind {
        wit_type_names::TypeDefKind::Alias(ty) => Ok(TypeDefKind::Alias(lower(types, table, ty)?)),
        wit_type_names::TypeDefKind::Record(fields) => lower_record(
            types,
            table,
            fields.as_slice(),
        ),
        wit_type_names::TypeDefKind::Flags(flags) => lower_flags(types, table, flags.as_slice()),
        wit_type_names::TypeDefKind::Enum(cases) => lower_enum(types, table, cases.as_slice()),
        wit_type_names::TypeDefKind::Variant(cases) => lower_variant(
            types,
            table,
            cases.as_slice(),
        ),
        wit_type_names::TypeDefKind::Resource(_) => Ok(TypeDefKind::Resource),
    }
}
