//! Rows of functions.

use crate::row_fault::{RowFault, made, readable};
use crate::samples::{function_of, somewhere};
use std::alloc::{AllocError, Global};
use wit_types::{Function, FunctionKind, Id, Mangling, Param, Type, TypeId};

/// What is asked of a function.
#[derive(Clone, Copy)]
pub enum Question {
    /// `= item names`: of a row `SORT NAME`, what stands behind the mark.
    ItemName,
    /// `= core exports`: of a row `INTERFACE NAME`, where `-` is the world, the names in both manglings.
    CoreExport,
    /// `= sorts`: of a row `SORT`, whether such a function is asynchronous, its resource, and that after it was changed.
    Sort,
    /// `= types of functions`: of a row `TYPE .. -> TYPE`, where `-` is no result, what its types give one by one.
    Types,
}

/// What words ask of a function.
pub fn question_by(words: &str) -> Option<Question> {
    match words {
        "item names" => Some(Question::ItemName),
        "core exports" => Some(Question::CoreExport),
        "sorts" => Some(Question::Sort),
        "types of functions" => Some(Question::Types),
        _ => None,
    }
}

/// The sort of function that a word names, of a resource where it is of one.
pub fn kind_of(word: &str, resource: TypeId) -> Option<FunctionKind> {
    match word {
        "freestanding" => Some(FunctionKind::Freestanding),
        "async-freestanding" => Some(FunctionKind::AsyncFreestanding),
        "method" => Some(FunctionKind::Method(resource)),
        "async-method" => Some(FunctionKind::AsyncMethod(resource)),
        "static" => Some(FunctionKind::Static(resource)),
        "async-static" => Some(FunctionKind::AsyncStatic(resource)),
        "constructor" => Some(FunctionKind::Constructor(resource)),
        _ => None,
    }
}

/// The sort and the name of a row.
fn sort_and_name(row: &str) -> Option<(FunctionKind, &str)> {
    let (word, name) = row.split_once(' ')?;
    Some((kind_of(word, Id::from_index(7))?, name))
}

/// The name of an item.
fn item_name(alloc: Global, row: &str) -> Result<String, RowFault> {
    let Some((kind, name)) = sort_and_name(row) else {
        return Err(RowFault::Unreadable);
    };
    let function = function_of(alloc, name, kind)?;
    made(String::from_str(alloc, function.item_name()))
}

/// The names of a core export: by the two calls, and by the one that is told the mangling.
fn core_export(alloc: Global, row: &str) -> Result<String, RowFault> {
    let (interface, name) = readable(row.split_once(' '))?;
    let interface = if interface == "-" {
        None
    } else {
        Some(interface)
    };
    let function = function_of(alloc, name, FunctionKind::Freestanding)?;
    made(names_text(alloc, &function, interface))
}

/// The names of a function's core export.
fn names_text(
    alloc: Global,
    function: &Function,
    interface: Option<&str>,
) -> Result<String, AllocError> {
    let standard = function.standard32_core_export_name(alloc, interface)?;
    let legacy = function.legacy_core_export_name(alloc, interface)?;
    let agrees = agrees(alloc, function, interface, &standard, &legacy)?;
    format!(in alloc; "{standard} or {legacy}{agrees}")
}

/// Nothing, where the call that is told the mangling answers the same.
fn agrees(
    alloc: Global,
    function: &Function,
    interface: Option<&str>,
    standard: &str,
    legacy: &str,
) -> Result<&'static str, AllocError> {
    let first = function.core_export_name(alloc, interface, Mangling::Standard32)?;
    let second = function.core_export_name(alloc, interface, Mangling::Legacy)?;
    if first.as_str() == standard && second.as_str() == legacy {
        Ok("")
    } else {
        Ok(" ! and others")
    }
}

/// A resource's place, if there is one.
fn place_text(alloc: Global, resource: Option<TypeId>) -> Result<String, AllocError> {
    match resource {
        Some(id) => {
            let index = id.index();
            format!(in alloc; "type {index}")
        }
        None => String::from_str(alloc, "none"),
    }
}

/// What is said of a sort of function.
fn sort(alloc: Global, row: &str) -> Result<String, RowFault> {
    let mut kind = readable(kind_of(row, Id::from_index(7)))?;
    let turn = if kind.is_async() {
        "async"
    } else {
        "not async"
    };
    let before = place_text(alloc, kind.resource())?;
    if let Some(resource) = kind.resource_mut() {
        *resource = Id::from_index(8);
    }
    let after = place_text(alloc, kind.resource())?;
    made(format!(in alloc; "{turn}, {before}, {after}"))
}

/// The type of a word.
fn type_by(word: &str) -> Option<Type> {
    match word {
        "bool" => Some(Type::Bool),
        "u8" => Some(Type::U8),
        "s64" => Some(Type::S64),
        "f32" => Some(Type::F32),
        "char" => Some(Type::Char),
        "string" => Some(Type::String),
        _ => None,
    }
}

/// The word of a type.
fn word_of(ty: Type) -> &'static str {
    match ty {
        Type::Bool => "bool",
        Type::U8 => "u8",
        Type::S64 => "s64",
        Type::F32 => "f32",
        Type::Char => "char",
        Type::String => "string",
        _ => "!",
    }
}

/// The parameters of those types; a word that names none is passed over.
fn params_of(alloc: Global, words: &str) -> Result<Vec<Param>, AllocError> {
    let mut params = Vec::new(alloc);
    for word in words.split_whitespace() {
        if let Some(ty) = type_by(word) {
            let name = String::new(alloc);
            let span = somewhere();
            params.push(Param { name, ty, span })?;
        }
    }
    Ok(params)
}

/// The function of those parameters and that result.
fn function_by(alloc: Global, params: &str, word: &str) -> Result<Function, AllocError> {
    let mut function = function_of(alloc, "f", FunctionKind::Freestanding)?;
    function.params = params_of(alloc, params)?;
    function.result = type_by(word);
    Ok(function)
}

/// Adds the word of a type behind others.
fn push_word(out: &mut String, ty: Type) -> Result<(), AllocError> {
    if !out.is_empty() {
        out.push_str(", ")?;
    }
    out.push_str(word_of(ty))
}

/// The words of the types of a function.
fn words_text(alloc: Global, function: &Function) -> Result<String, AllocError> {
    let mut out = String::new(alloc);
    for ty in function.parameter_and_result_types() {
        push_word(&mut out, ty)?;
    }
    if out.is_empty() {
        out.push_str("nothing")?;
    }
    Ok(out)
}

/// What the types of a function give one by one.
fn types(alloc: Global, row: &str) -> Result<String, RowFault> {
    let (params, result) = readable(row.split_once("-> "))?;
    let function = function_by(alloc, params, result)?;
    made(words_text(alloc, &function))
}

/// The answer to a row.
pub fn answer(alloc: Global, question: Question, row: &str) -> Result<String, RowFault> {
    match question {
        Question::ItemName => item_name(alloc, row),
        Question::CoreExport => core_export(alloc, row),
        Question::Sort => sort(alloc, row),
        Question::Types => types(alloc, row),
    }
}
