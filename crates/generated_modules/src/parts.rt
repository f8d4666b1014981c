//! What a generated module is made of.

ghost use Rattle.std.specs.Prelude.{◌≡◌, [], map, OnOk, IfOk};
ghost use Rattle.wasm_types.specs.Entries.{type_index_value};
ghost use Rattle.generated_sections.specs.Types.{import_value};
ghost use Rattle.generated_sections.specs.Sections.{section_value};
ghost use Rattle.generated_modules.specs.Parts as spec;
ghost use Rattle.generated_modules.specs.Parts.{parts_value};

use generated_sections::{HeldGlobal, Import, ImportType, Section, SlotGlobal, SlotTable};
use std::alloc::{AllocError, Global};
use wasm_bodies::{Body, Bounded, ElementSegment};
use wasm_types::{Export, FuncType, Limits, TypeIndex};

/// What a generated module is made of (WebAssembly Core, Structure, Modules): its names are slices of the bytes that were
/// read.
#[derive(Drop)]
pub struct Parts<'a> {
    /// The types of functions.
    pub types: Vec<FuncType>,
    /// The imports, of each sort.
    pub imports: Vec<Import<'a>>,
    /// The place of the type of each function of its own.
    pub functions: Vec<TypeIndex>,
    /// The tables of its own.
    pub tables: Vec<SlotTable>,
    /// The memories of its own.
    pub memories: Vec<Limits>,
    /// The globals of its own.
    pub globals: Vec<SlotGlobal>,
    /// The exports, of each sort.
    pub exports: Vec<Export<'a>>,
    /// The function that is called first, if one is.
    pub start: Option<u32>,
    /// The segments of functions.
    pub elements: Vec<ElementSegment>,
    /// The instructions of each function of its own.
    pub code: Vec<Bounded<Body>>,
    /// The place of the type of each function by its index: imported ones first, then those of its own.
    pub function_space: Vec<u32>,
    /// Each table by its index, imported ones first.
    pub table_space: Vec<SlotTable>,
    /// The type of each global by its index, imported ones first.
    pub global_space: Vec<HeldGlobal>,
}

impl<'a> Parts<'a> {
    fn new(alloc: Global) -> Parts<'a>
        ensures { parts_value result ≡ spec.gathered [] }
    {
        Parts {
            types: Vec::new(alloc),
            imports: Vec::new(alloc),
            functions: Vec::new(alloc),
            tables: Vec::new(alloc),
            memories: Vec::new(alloc),
            globals: Vec::new(alloc),
            exports: Vec::new(alloc),
            start: None,
            elements: Vec::new(alloc),
            code: Vec::new(alloc),
            function_space: Vec::new(alloc),
            table_space: Vec::new(alloc),
            global_space: Vec::new(alloc),
        }
    }

    /// Adds what a section holds.
    fn add(&mut self, section: Section<'a>) -> Result<(), AllocError>
        ensures { OnOk result (parts_value self.new ≡ spec.with_section (parts_value self.old) (section_value section.entry)) }
    {
        match section {
            Section::Custom(_) => Ok(()),
            Section::Types(mut types) => self.types.append(&mut types),
            Section::Imports(mut imports) => self.imports.append(&mut imports),
            Section::Functions(mut functions) => self.functions.append(&mut functions),
            Section::Tables(mut tables) => self.tables.append(&mut tables),
            Section::Memories(mut memories) => self.memories.append(&mut memories),
            Section::Globals(mut globals) => self.globals.append(&mut globals),
            Section::Exports(mut exports) => self.exports.append(&mut exports),
            Section::Start(function) => {
                self.start = self.start.or(Some(function));
                Ok(())
            }
            Section::Elements(mut elements) => self.elements.append(&mut elements),
            Section::Bodies(mut code) => self.code.append(&mut code),
        }
    }

    /// Gathers the index spaces.
    fn number(&mut self, alloc: Global) -> Result<(), AllocError>
        ensures { OnOk result (parts_value self.new ≡ spec.numbered (parts_value self.old)) }
    {
        self.function_space = function_space(alloc, &self.imports, &self.functions)?;
        self.table_space = table_space(alloc, &self.imports, &self.tables)?;
        self.global_space = global_space(alloc, &self.imports, &self.globals)?;
        Ok(())
    }
}

/// The place of the type of each function, imported ones first.
fn function_space(
    alloc: Global,
    imports: &[Import],
    functions: &[TypeIndex],
) -> Result<Vec<u32>, AllocError>
    ensures { IfOk result (λ v. v.items ≡ spec.function_space_of (map import_value imports.now) (map type_index_value functions.now)) }
{
    let mut space = Vec::new(alloc);
    for import in imports {
        if let ImportType::Function(ty) = import.ty {
            space.push(ty)?;
        }
    }
    for function in functions {
        space.push(function.0)?;
    }
    Ok(space)
}

/// Each table, imported ones first.
fn table_space(
    alloc: Global,
    imports: &[Import],
    tables: &[SlotTable],
) -> Result<Vec<SlotTable>, AllocError>
    ensures { IfOk result (λ v. v.items ≡ spec.table_space_of (map import_value imports.now) tables.now) }
{
    let mut space = Vec::new(alloc);
    for import in imports {
        if let ImportType::Table(table) = import.ty {
            space.push(table)?;
        }
    }
    for table in tables {
        space.push(*table)?;
    }
    Ok(space)
}

/// The type of each global, imported ones first.
fn global_space(
    alloc: Global,
    imports: &[Import],
    globals: &[SlotGlobal],
) -> Result<Vec<HeldGlobal>, AllocError>
    ensures { IfOk result (λ v. v.items ≡ spec.global_space_of (map import_value imports.now) globals.now) }
{
    let mut space = Vec::new(alloc);
    for import in imports {
        if let ImportType::Global(global) = import.ty {
            space.push(global)?;
        }
    }
    for global in globals {
        space.push(global.as_held())?;
    }
    Ok(space)
}

/// What these sections hold.
pub fn parts_of<'a>(alloc: Global, sections: Vec<Section<'a>>) -> Result<Parts<'a>, AllocError>
    ensures { IfOk result (λ p. parts_value p ≡ spec.parts_of (map section_value sections.entry.items)) }
{
    let mut parts = Parts::new(alloc);
    for section in sections {
        parts.add(section)?;
    }
    parts.number(alloc).and(Ok(parts))
}
