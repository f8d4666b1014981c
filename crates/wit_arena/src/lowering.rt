//! Types as they are written, brought into an arena.

ghost use Rattle.std.specs.Prelude.{◌≡◌, ◌∷◌, ◌++◌, [], Some, map, IfOk};
ghost use Rattle.wit_type_names.specs.Passed.wit_productions-NameView.{id};
ghost use Rattle.wit_type_names.specs.Passed.wit_productions-TypeTree.{row};
ghost use Rattle.wit_type_names.specs.Passed.wit_productions-TypeView.{type_tree, type_shape};
ghost use Rattle.wit_arena.specs.Meaning.{Has};
ghost use Rattle.wit_arena.specs.Shape.{shape_of};
ghost use Rattle.wit_type_names.specs.TypeNames.{names_in, names_in_shape, names_in_part, names_in_row};
ghost use Rattle.wit_type_names.specs.TypeView.{part_tree, type_part};
ghost use Rattle.wit_arena.specs.Lower.{primitive_ref, IsComposed, IsResult, err_part, AreThere, Lowers, LowersShape, LowersPart, LowersParts};

use crate::shape::Shape;
use crate::table::Table;
use crate::types::Types;
use std::alloc::AllocError;
use wit_type_names::{Id, TypeKind};
use wit_types::{Handle, Result_, Type, TypeId};

/// The type, if it is one by its word alone.
fn primitive(kind: &TypeKind<'_>) -> Option<Type>
    ensures { result ≡ primitive_ref (type_shape kind.now) }
{
    match kind {
        TypeKind::Bool => Some(Type::Bool),
        TypeKind::U8 => Some(Type::U8),
        TypeKind::U16 => Some(Type::U16),
        TypeKind::U32 => Some(Type::U32),
        TypeKind::U64 => Some(Type::U64),
        TypeKind::S8 => Some(Type::S8),
        TypeKind::S16 => Some(Type::S16),
        TypeKind::S32 => Some(Type::S32),
        TypeKind::S64 => Some(Type::S64),
        TypeKind::F32 => Some(Type::F32),
        TypeKind::F64 => Some(Type::F64),
        TypeKind::Char => Some(Type::Char),
        TypeKind::String => Some(Type::String),
        TypeKind::ErrorContext => Some(Type::ErrorContext),
        _ => None,
    }
}

/// What stands under a name that is there.
pub fn id_of(table: &Table<'_>, name: &Id<'_>) -> TypeId
    requires { AreThere table.now (id name.now ∷ []) }
    ensures { Has table.now (name.now.name.now, result) }
{
    match table.get(name.name) {
        Some(id) => id,
        None => unreachable!(),
    }
}

/// The type in the arena. Each name that stands in it is in the table.
#[cycle(lower)]
pub fn lower(
    types: &mut Types,
    table: &Table<'_>,
    ty: &wit_type_names::Type<'_>,
) -> Result<Type, AllocError>
    requires { AreThere table.now (names_in (type_tree ty.now)) }
    ensures { IfOk result (λ r. Lowers table.now types.old (type_tree ty.now) types.new r) }
{
    if let Some(ty) = primitive(&ty.kind) {
        return Ok(ty);
    }
    if let TypeKind::Name(name) = &ty.kind {
        return Ok(Type::Id(id_of(table, name)));
    }
    let shape = lower_shape(types, table, &ty.kind)?;
    let ty = types.intern(shape, ty.span)?;
    Ok(ty)
}

/// What a type that is composed is made of in the arena.
#[cycle(lower)]
fn lower_shape(
    types: &mut Types,
    table: &Table<'_>,
    kind: &TypeKind<'_>,
) -> Result<Shape, AllocError>
    requires composed { IsComposed (type_shape kind.now) }
    requires names { AreThere table.now (names_in_shape (type_shape kind.now)) }
    ensures { IfOk result (λ s. LowersShape table.now types.old (type_shape kind.now) types.new (shape_of s)) }
{
    match kind {
        TypeKind::Own(name) => Ok(Shape::Handle(Handle::Own(id_of(table, name)))),
        TypeKind::Borrow(name) => Ok(Shape::Handle(Handle::Borrow(id_of(table, name)))),
        TypeKind::List(part) => Ok(Shape::List(lower(types, table, part)?)),
        TypeKind::FixedLengthList(part, length) => {
            Ok(Shape::FixedLengthList(lower(types, table, part)?, *length))
        }
        TypeKind::Option(part) => Ok(Shape::Option(lower(types, table, part)?)),
        TypeKind::Tuple(parts) => Ok(Shape::Tuple(lower_row(types, table, parts.as_slice())?)),
        TypeKind::Result { ok, .. } => {
            let ok = lower_part(types, table, ok)?;
            let err = lower_err(types, table, kind)?;
            Ok(Shape::Result(Result_ { ok, err }))
        }
        TypeKind::Future(part) => Ok(Shape::Future(lower_part(types, table, part)?)),
        TypeKind::Stream(part) => Ok(Shape::Stream(lower_part(types, table, part)?)),
        _ => unreachable!(),
    }
}

/// The type in the arena of what a call gives that fails, if the result says it.
#[cycle(lower)]
fn lower_err(
    types: &mut Types,
    table: &Table<'_>,
    kind: &TypeKind<'_>,
) -> Result<Option<Type>, AllocError>
    requires result { IsResult (type_shape kind.now) }
    requires names { AreThere table.now (names_in_part (err_part (type_shape kind.now))) }
    ensures { IfOk result (λ r. LowersPart table.now types.old (err_part (type_shape kind.now)) types.new r) }
{
    match kind {
        TypeKind::Result { err, .. } => Ok(lower_part(types, table, err)?),
        _ => unreachable!(),
    }
}

/// The type in the arena, if there is one.
#[cycle(lower)]
fn lower_part(
    types: &mut Types,
    table: &Table<'_>,
    part: &Option<Box<wit_type_names::Type<'_>>>,
) -> Result<Option<Type>, AllocError>
    requires { AreThere table.now (names_in_part (part_tree part.now)) }
    ensures { IfOk result (λ r. LowersPart table.now types.old (part_tree part.now) types.new r) }
{
    match part {
        Some(ty) => Ok(Some(lower(types, table, ty)?)),
        None => Ok(None),
    }
}

/// The types in the arena, from left to right.
#[cycle(lower)]
fn lower_row(
    types: &mut Types,
    table: &Table<'_>,
    parts: &[wit_type_names::Type<'_>],
) -> Result<Vec<Type>, AllocError>
    requires { AreThere table.now (names_in_row (row (map type_tree parts.now))) }
    ensures { IfOk result (λ v. LowersParts table.now types.old (map type_part parts.now) types.new (map (λ r. Some r) v.items)) }
{
    let mut found = Vec::new(types.allocator());
    for part in parts {
        found.push(lower(types, table, part)?)?;
    }
    Ok(found)
}
