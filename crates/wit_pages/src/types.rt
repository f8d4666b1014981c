//! Types.

use crate::names::{named_type, place};
use crate::page::Page;
use crate::view::{View, under};
use std::alloc::{AllocError, Global};
use wit_types::{Handle, Type, TypeDefKind, TypeId};

/// In how many brackets types are written.
const DEEPEST: u32 = 128;

/// The keyword of a type that has no parts.
pub fn keyword(ty: Type) -> &'static str {
    match ty {
        Type::Bool => "bool",
        Type::Char => "char",
        Type::String => "string",
        Type::ErrorContext => "error-context",
        Type::Id(_) => "! defined",
        _ => number_keyword(ty),
    }
}

/// The keyword of a type of numbers.
fn number_keyword(ty: Type) -> &'static str {
    match ty {
        Type::U8 => "u8",
        Type::U16 => "u16",
        Type::U32 => "u32",
        Type::U64 => "u64",
        Type::S8 => "s8",
        Type::S16 => "s16",
        Type::S32 => "s32",
        Type::S64 => "s64",
        Type::F32 => "f32",
        Type::F64 => "f64",
        _ => "!",
    }
}

/// What stands in front of the brackets of a type.
pub fn front_of(kind: &TypeDefKind) -> &'static str {
    match kind {
        TypeDefKind::FixedLengthList(_, _) => "list",
        _ => kind.as_str(),
    }
}

/// The types in the brackets of a type, in their order; `None` is that of a success that holds nothing.
pub fn parts_of(alloc: Global, kind: &TypeDefKind) -> Result<Vec<Option<Type>>, AllocError> {
    let mut parts = Vec::new(alloc);
    match kind {
        TypeDefKind::Option(ty)
        | TypeDefKind::List(ty)
        | TypeDefKind::FixedLengthList(ty, _)
        | TypeDefKind::Alias(ty)
        | TypeDefKind::Future(Some(ty))
        | TypeDefKind::Stream(Some(ty)) => parts.push(Some(*ty))?,
        TypeDefKind::Handle(Handle::Own(id) | Handle::Borrow(id)) => {
            parts.push(Some(Type::Id(*id)))?;
        }
        TypeDefKind::Tuple(tuple) => {
            for ty in &tuple.types {
                parts.push(Some(*ty))?;
            }
        }
        TypeDefKind::Result(outcome) => {
            if outcome.ok.is_some() || outcome.err.is_some() {
                parts.push(outcome.ok)?;
            }
            if outcome.err.is_some() {
                parts.push(outcome.err)?;
            }
        }
        _ => {}
    }
    Ok(parts)
}

/// What a type is, if it has no name.
fn unnamed<'p>(view: &View<'p>, id: TypeId) -> Option<&'p TypeDefKind> {
    let found = under(view.types, id)?;
    match &found.name {
        Some(_) => None,
        None => Some(&found.kind),
    }
}

/// What a type in brackets is, if it is defined and has no name.
fn unnamed_part<'p>(view: &View<'p>, part: &Option<Type>) -> Option<&'p TypeDefKind> {
    match part {
        Some(of) => unnamed_type(view, of),
        None => None,
    }
}

/// What a type is, if it is defined and has no name.
fn unnamed_type<'p>(view: &View<'p>, of: &Type) -> Option<&'p TypeDefKind> {
    match of {
        Type::Id(id) => unnamed(view, *id),
        _ => None,
    }
}

/// A type in brackets that has a name or a keyword, or that of a success that holds nothing.
fn named_part(page: &mut Page, view: &View<'_>, part: &Option<Type>) {
    match part {
        Some(of) => plain(page, view, of),
        None => page.words("_"),
    }
}

/// A type that has a name or a keyword.
fn plain(page: &mut Page, view: &View<'_>, of: &Type) {
    match of {
        Type::Id(id) => named_type(page, view, *id),
        _ => {
            let of = *of;
            page.words(keyword(of));
        }
    }
}

/// What a type is, with the types in its brackets, as far as names go.
#[cycle(spelled)]
fn spelled(page: &mut Page, view: &View<'_>, kind: &TypeDefKind, fuel: u32) {
    page.words(front_of(kind));
    let Some(left) = fuel.checked_sub(1) else {
        return page.words("! deeper");
    };
    match &parts_of(page.alloc, kind) {
        Ok(parts) => {
            spelled_parts(page, view, parts.as_slice(), left);
            close(page, kind, parts.is_empty());
        }
        Err(_) => page.refuse(),
    }
}

/// The types in the brackets of a type, behind what parts them.
#[cycle(spelled)]
fn spelled_parts(page: &mut Page, view: &View<'_>, parts: &[Option<Type>], fuel: u32) {
    for (index, part) in parts.iter().enumerate() {
        page.words(if index == 0 { "<" } else { ", " });
        spelled_part(page, view, part, fuel);
    }
}

/// A type in the brackets of a type.
#[cycle(spelled)]
fn spelled_part(page: &mut Page, view: &View<'_>, part: &Option<Type>, fuel: u32) {
    match unnamed_part(view, part) {
        Some(kind) => spelled(page, view, kind, fuel),
        None => named_part(page, view, part),
    }
}

/// What stands behind the types in brackets.
pub fn close(page: &mut Page, kind: &TypeDefKind, is_empty: bool) {
    if let TypeDefKind::FixedLengthList(_, length) = kind {
        page.words(", ");
        page.shown(length);
    }
    if !is_empty {
        page.words(">");
    }
}

/// A type that is defined: its name, or what it is where it has none.
fn defined(page: &mut Page, view: &View<'_>, id: TypeId) {
    match unnamed(view, id) {
        Some(kind) => spelled(page, view, kind, DEEPEST),
        None => named_type(page, view, id),
    }
}

/// A type.
pub fn ty(page: &mut Page, view: &View<'_>, of: Type) {
    match of {
        Type::Id(id) => defined(page, view, id),
        _ => page.words(keyword(of)),
    }
}

/// What a type is that isn't said by a keyword, behind its name.
pub fn defined_as(page: &mut Page, view: &View<'_>, kind: &TypeDefKind) {
    page.words(" = ");
    match kind {
        TypeDefKind::Alias(of) => ty(page, view, *of),
        _ => spelled(page, view, kind, DEEPEST),
    }
}

/// The types that have no name, in their order, each with where it stands, if places are written.
pub fn unnamed_types(page: &mut Page, view: &View<'_>) {
    let mut is_first = true;
    for of in view.types.iter() {
        if of.name.is_none() {
            if is_first {
                page.begin("without names: ");
            } else {
                page.words("; ");
            }
            spelled(page, view, &of.kind, DEEPEST);
            place(page, view, of.span);
            is_first = false;
        }
    }
    if !is_first {
        page.end();
    }
}
