//! Sections that are written.

ghost use Rattle.std.specs.Prelude.{◌≡◌, ◌++◌, OnOk, Err};
ghost use Rattle.binary_grammar.specs.Syntax.{section, bytes, IsTyped};
ghost use Rattle.wasm_sections.specs.Module.{section_byte};

use crate::contents::{Globals, Items, Start};
use crate::section::SectionId;
use binary_grammar::{Content, Part, WriteFault, put_content};
use wasm_types::{Export, FuncType, Import, Limits, Spaces, TableType, TypeIndex};

/// A content of which sections of one sort are made.
pub trait SectionWriter<'a>: Content<'a> {
    ghost use Rattle.wasm_sections.specs.declared.section.SectionId.{SectionId};

    ghost id: { SectionId };

    /// The sort.
    fn id(&self) -> SectionId
        ensures { result ≡ id };
}

/// What a vector holds that is all of a section of one sort.
pub trait SectionItem {
    ghost use Rattle.wasm_sections.specs.declared.section.SectionId.{SectionId};

    ghost id: { SectionId };

    /// The sort.
    fn id() -> SectionId
        ensures { result ≡ id };
}

/// Adds a section (WebAssembly Core, Binary Format, Modules, Sections): its sort, its size and its content; the content
/// is made in `room`, which is emptied for it. Answers `TooLarge` only where 32 bits can't say the size, or the content doesn't fit.
pub fn put_section<'a, T: SectionWriter<'a>>(
    content: &T,
    room: &mut Vec<u8>,
    out: &mut Vec<u8>,
) -> Result<(), WriteFault>
    ensures bytes { OnOk result (out.new.items ≡ out.old.items ++ bytes (section (section_byte T.id) T.content) (T.value content.now)) }
    ensures typed { OnOk result (IsTyped (section (section_byte T.id) T.content) (T.value content.now)) }
    ensures large { result ≡ Err WriteFault.TooLarge → IsTyped (section (section_byte T.id) T.content) (T.value content.now) → ⊥ }
{
    put_content(section_byte(content.id()), content, room, out)
}

/// The byte of a sort.
pub fn section_byte(id: SectionId) -> u8
    ensures { result ≡ section_byte id }
{
    match id {
        SectionId::Custom => 0,
        SectionId::Type_ => 1,
        SectionId::Import => 2,
        SectionId::Function => 3,
        SectionId::Table => 4,
        SectionId::Memory => 5,
        SectionId::Global => 6,
        SectionId::Export => 7,
        SectionId::Start => 8,
        SectionId::Element => 9,
        SectionId::Code => 10,
        SectionId::Data => 11,
        SectionId::DataCount => 12,
    }
}

impl<'a, T: SectionItem + Part<'a, Context = Spaces>> SectionWriter<'a> for Items<T> {
    ghost id = { T.SectionItem.id };

    fn id(&self) -> SectionId {
        T::id()
    }
}

impl SectionItem for FuncType {
    ghost use Rattle.wasm_sections.specs.declared.section.SectionId.TheVariants as ids;

    ghost id = { ids.Type_ };

    fn id() -> SectionId {
        SectionId::Type_
    }
}

impl<'a> SectionItem for Import<'a> {
    ghost use Rattle.wasm_sections.specs.declared.section.SectionId.TheVariants as ids;

    ghost id = { ids.Import };

    fn id() -> SectionId
        ensures { result ≡ ids.Import }
    {
        SectionId::Import
    }
}

impl SectionItem for TypeIndex {
    ghost use Rattle.wasm_sections.specs.declared.section.SectionId.TheVariants as ids;

    ghost id = { ids.Function };

    fn id() -> SectionId {
        SectionId::Function
    }
}

impl SectionItem for TableType {
    ghost use Rattle.wasm_sections.specs.declared.section.SectionId.TheVariants as ids;

    ghost id = { ids.Table };

    fn id() -> SectionId {
        SectionId::Table
    }
}

impl SectionItem for Limits {
    ghost use Rattle.wasm_sections.specs.declared.section.SectionId.TheVariants as ids;

    ghost id = { ids.Memory };

    fn id() -> SectionId {
        SectionId::Memory
    }
}

impl<'a> SectionItem for Export<'a> {
    ghost use Rattle.wasm_sections.specs.declared.section.SectionId.TheVariants as ids;

    ghost id = { ids.Export };

    fn id() -> SectionId
        ensures { result ≡ ids.Export }
    {
        SectionId::Export
    }
}

impl<'a> SectionWriter<'a> for Globals<'a> {
    ghost use Rattle.wasm_sections.specs.declared.section.SectionId.TheVariants as ids;

    ghost id = { ids.Global };

    fn id(&self) -> SectionId {
        SectionId::Global
    }
}

impl<'a> SectionWriter<'a> for Start {
    ghost use Rattle.wasm_sections.specs.declared.section.SectionId.TheVariants as ids;

    ghost id = { ids.Start };

    fn id(&self) -> SectionId {
        SectionId::Start
    }
}

/// The types of functions.
pub type TypeSection = Items<FuncType>;

/// Imports.
pub type ImportSection<'a> = Items<Import<'a>>;

/// The types of the module's own functions.
pub type FunctionSection = Items<TypeIndex>;

/// Tables.
pub type TableSection = Items<TableType>;

/// Memories.
pub type MemorySection = Items<Limits>;

/// Exports.
pub type ExportSection<'a> = Items<Export<'a>>;

/// Globals.
pub type GlobalSection<'a> = Globals<'a>;

/// The function that is called first.
pub type StartSection = Start;
