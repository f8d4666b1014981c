//! Core modules.

ghost use Rattle.std.specs.Prelude.{◌≡◌, option_map};
ghost use Rattle.wasm_types.specs.Types.{func_type_value};
ghost use Rattle.wasm_format.specs.Module.{module_value, function_type_at, imported_type, exported_type};

use wasm_sections::SectionId;
use wasm_types::{
    EntityType, Export, ExportKind, FuncType, Global, Import, Limits, TableType, TypeIndex,
};

/// A section as it stands in the bytes (WebAssembly Core, Binary Format, Sections).
#[derive(Clone, Copy, Debug, PartialEq, Eq)]
pub struct Section<'a> {
    /// Its sort.
    pub id: SectionId,
    /// Its bytes, without the sort and the size.
    pub content: &'a [u8],
}

/// A core module (WebAssembly Core, Structure, Modules): its names, the bytes of its constants and the contents of its
/// sections are slices of the bytes that were read.
#[derive(Drop)]
pub struct CoreModule<'a> {
    /// The types of functions.
    pub types: Vec<FuncType>,
    /// The imports, of each sort.
    pub imports: Vec<Import<'a>>,
    /// The place of the type of each function of its own.
    pub functions: Vec<TypeIndex>,
    /// The tables of its own.
    pub tables: Vec<TableType>,
    /// The memories of its own.
    pub memories: Vec<Limits>,
    /// The globals of its own.
    pub globals: Vec<Global<'a>>,
    /// The exports, of each sort.
    pub exports: Vec<Export<'a>>,
    /// All sections, custom ones too, in the order of the bytes.
    pub sections: Vec<Section<'a>>,
    /// The place of the type of each function by its index: imported ones first, then those of its own.
    pub function_space: Vec<u32>,
}

impl CoreModule<'_> {
    /// The type of the function at an index; none where no function has it.
    pub fn function_type(&self, index: u32) -> Option<&FuncType>
        ensures { option_map (λ t. func_type_value t.now) result ≡ function_type_at (module_value self.now) index }
    {
        let ty = self.function_space.get(index as usize)?;
        self.types.get(*ty as usize)
    }

    /// The type of an imported function; none for what else is imported.
    pub fn imported_type(&self, import: &Import) -> Option<&FuncType>
        ensures { option_map (λ t. func_type_value t.now) result ≡ imported_type (module_value self.now) import.now.ty }
    {
        match import.ty {
            EntityType::Function(ty) => self.types.get(ty as usize),
            EntityType::Table(_) | EntityType::Memory(_) | EntityType::Global(_) => None,
        }
    }

    /// The type of an exported function; none for what else is exported.
    pub fn exported_type(&self, export: &Export) -> Option<&FuncType>
        ensures { option_map (λ t. func_type_value t.now) result ≡ exported_type (module_value self.now) export.now.kind export.now.index }
    {
        match export.kind {
            ExportKind::Func => self.function_type(export.index),
            ExportKind::Table | ExportKind::Memory | ExportKind::Global => None,
        }
    }
}
