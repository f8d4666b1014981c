//! Rows of constructors.

use crate::functions::kind_of;
use crate::row_fault::{RowFault, readable};
use crate::samples::{function_of, type_of};
use std::alloc::Global;
use wit_types::{Arena, Function, Handle, Id, Type, TypeDef, TypeDefKind, TypeId};

/// The id that digits spell.
fn id_of(digits: &str) -> Option<TypeId> {
    Some(Id::from_index(digits.parse::<usize>().ok()?))
}

/// The kind of type that a word says: `resource`, `own-PLACE`, `borrow-PLACE`, `alias-PLACE`.
fn kind_by(word: &str) -> Option<TypeDefKind> {
    if word == "resource" {
        return Some(TypeDefKind::Resource);
    }
    let (kind, digits) = word.split_once('-')?;
    let id = id_of(digits)?;
    match kind {
        "own" => Some(TypeDefKind::Handle(Handle::Own(id))),
        "borrow" => Some(TypeDefKind::Handle(Handle::Borrow(id))),
        "alias" => Some(TypeDefKind::Alias(Type::Id(id))),
        _ => None,
    }
}

/// The types that words say.
fn types_of(alloc: Global, words: &str) -> Result<Arena<TypeDef>, RowFault> {
    let mut types = Arena::new(alloc);
    for word in words.split_whitespace() {
        add_type(&mut types, word)?;
    }
    Ok(types)
}

/// Adds the type that a word says.
fn add_type(types: &mut Arena<TypeDef>, word: &str) -> Result<(), RowFault> {
    let kind = readable(kind_by(word))?;
    types.alloc(type_of(kind))?;
    Ok(())
}

/// The function that words say: `SORT-PLACE -> PLACE`, where `-` is no result.
fn function_by(alloc: Global, words: &str) -> Result<Function, RowFault> {
    let (sort, result) = readable(words.split_once(" -> "))?;
    let (word, digits) = readable(sort.split_once('-'))?;
    let resource = readable(id_of(digits))?;
    let kind = readable(kind_of(word, resource))?;
    let mut function = function_of(alloc, "f", kind)?;
    if let Some(id) = id_of(result) {
        function.result = Some(Type::Id(id));
    }
    Ok(function)
}

/// Whether the function that words say is a shorthand among the types that other words say.
fn is_shorthand(alloc: Global, types: &str, function: &str) -> Result<bool, RowFault> {
    let types = types_of(alloc, types)?;
    let function = function_by(alloc, function)?;
    Ok(function.is_constructor_shorthand(&types))
}

/// The answer to a row.
pub fn answer(alloc: Global, row: &str) -> Result<String, RowFault> {
    let (types, function) = readable(row.split_once(" ~ "))?;
    let text = if is_shorthand(alloc, types, function)? {
        "shorthand"
    } else {
        "no shorthand"
    };
    Ok(String::from_str(alloc, text)?)
}
