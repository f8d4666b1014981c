//! What a core module defines, in lines.

use crate::page::Page;
use crate::{instructions, names};
use wasm_format::{
    CoreModule, EntityType, Export, FuncType, Global, GlobalType, Import, Limits, TableType,
    ValType,
};

/// Types, each behind a space.
fn write_values(page: &mut Page, values: &[ValType]) {
    for ty in values {
        page.words(" ");
        page.words(names::value(*ty));
    }
}

fn write_type(page: &mut Page, ty: &FuncType) {
    write_values(page, &ty.params);
    page.words(" ->");
    write_values(page, &ty.results);
}

fn write_limits(page: &mut Page, limits: Limits) {
    page.words(" ");
    page.shown(&limits.minimum);
    page.words("..");
    if let Some(maximum) = limits.maximum {
        page.shown(&maximum);
    }
}

fn write_table(page: &mut Page, table: TableType) {
    page.words("table ");
    page.words(names::reference(table.element));
    write_limits(page, table.limits);
}

fn write_memory(page: &mut Page, limits: Limits) {
    page.words("memory");
    write_limits(page, limits);
}

fn write_global(page: &mut Page, global: GlobalType) {
    page.words("global ");
    page.words(names::mutability(global.mutability));
    page.words(" ");
    page.words(names::value(global.value));
}

fn write_function(page: &mut Page, ty: u32) {
    page.words("function of type ");
    page.shown(&ty);
}

fn write_entity(page: &mut Page, entity: EntityType) {
    match entity {
        EntityType::Function(ty) => write_function(page, ty),
        EntityType::Table(table) => write_table(page, table),
        EntityType::Memory(limits) => write_memory(page, limits),
        EntityType::Global(global) => write_global(page, global),
    }
}

fn type_line(page: &mut Page, ty: &FuncType) {
    page.words("  type");
    write_type(page, ty);
    page.words("\n");
}

fn import_line(page: &mut Page, import: &Import) {
    page.words("  import ");
    page.spelled(&import.module);
    page.words(" ");
    page.spelled(&import.name);
    page.words(" ");
    write_entity(page, import.ty);
    page.words("\n");
}

/// What is of the module's own, but for globals.
fn own_line(page: &mut Page, entity: EntityType) {
    page.words("  ");
    write_entity(page, entity);
    page.words("\n");
}

fn global_line(page: &mut Page, global: &Global) {
    page.words("  ");
    write_global(page, global.ty);
    instructions::write(page, &global.init.instructions);
    page.words("\n");
}

/// An export, a function with its type.
fn export_line(page: &mut Page, found: &CoreModule, export: &Export) {
    page.words("  export ");
    page.spelled(&export.name);
    page.words(" ");
    page.words(names::sort(export.kind));
    page.words(" ");
    page.shown(&export.index);
    if let Some(ty) = found.exported_type(export) {
        page.words(":");
        write_type(page, ty);
    }
    page.words("\n");
}

/// Types, imports, and what is of the module's own but globals.
pub fn write_entities(page: &mut Page, found: &CoreModule) {
    for ty in &found.types {
        type_line(page, ty);
    }
    for import in &found.imports {
        import_line(page, import);
    }
    for function in &found.functions {
        own_line(page, EntityType::Function(function.0));
    }
    for table in &found.tables {
        own_line(page, EntityType::Table(*table));
    }
    for limits in &found.memories {
        own_line(page, EntityType::Memory(*limits));
    }
}

/// Globals and exports.
pub fn write_globals_and_exports(page: &mut Page, found: &CoreModule) {
    for global in &found.globals {
        global_line(page, global);
    }
    for export in &found.exports {
        export_line(page, found, export);
    }
}
