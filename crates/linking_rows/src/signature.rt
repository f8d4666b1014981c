//! Rows that ask for core types of functions.

use component_linker::Session;
use component_types::{WasmSignature, wasm_signature};
use indexmap::IndexMap;
use row_pages::Page;
use wasm_types::ValType;
use wit_types::{AbiVariant, WorldItem, WorldKey};

/// The word of a core type.
fn word_of(ty: &ValType) -> &'static str {
    match ty {
        ValType::I32 => "i32",
        ValType::I64 => "i64",
        ValType::F32 => "f32",
        ValType::F64 => "f64",
        ValType::V128 => "v128",
        ValType::Ref(_) => "ref",
    }
}

/// Core types in their order.
fn write_types(page: &mut Page, types: &[ValType]) {
    page.words("(");
    for (place, ty) in types.iter().enumerate() {
        if place > 0 {
            page.words(" ");
        }
        page.words(word_of(ty));
    }
    page.words(")");
}

/// A core type on a line: what it takes and gives, and which of them lie in memory.
fn write_signature(page: &mut Page, side: &str, signature: &WasmSignature) {
    page.words("  ");
    page.words(side);
    page.words(" ");
    write_types(page, signature.params.as_slice());
    page.words(" to ");
    write_types(page, signature.results.as_slice());
    if signature.indirect_params {
        page.words(", parameters in memory");
    }
    if signature.retptr {
        page.words(", result in memory");
    }
    page.words("\n");
}

/// The core types of the functions that one side of a world has under this name.
fn write_side(
    page: &mut Page,
    session: &Session,
    items: &IndexMap<WorldKey, WorldItem>,
    variant: AbiVariant,
    name: &str,
) {
    let side = match variant {
        AbiVariant::GuestImport => "import",
        AbiVariant::GuestExport => "export",
    };
    for (_, item) in items.iter() {
        if let WorldItem::Function(function) = item {
            if function.name.as_str() == name {
                match wasm_signature(session.resolve(), variant, function) {
                    Ok(signature) => write_signature(page, side, &signature),
                    Err(_) => page.refuse(),
                }
            }
        }
    }
}

/// The core types of the functions of the chosen world that have this name.
pub fn write_signatures(page: &mut Page, session: &Session, name: &str) {
    let Some(chosen) = session.world() else {
        return page.line("no world");
    };
    for (place, world) in session.resolve().worlds().iter().enumerate() {
        if place == chosen.index() {
            write_side(page, session, &world.imports, AbiVariant::GuestImport, name);
            write_side(page, session, &world.exports, AbiVariant::GuestExport, name);
        }
    }
}
