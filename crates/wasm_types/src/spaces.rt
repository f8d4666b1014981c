//! What a module has of each sort.

ghost use Rattle.std.specs.Prelude.{◌≡◌};
ghost use Rattle.wasm_types.specs.Spaces as spec;

use crate::types::ExportKind;

/// How many of each sort there are so far, imported ones first (WebAssembly Core, Structure, Modules, Indices).
#[derive(Clone, Copy, Debug, PartialEq, Eq)]
pub struct Spaces {
    /// Types.
    pub types: usize,
    /// Functions.
    pub functions: usize,
    /// Tables.
    pub tables: usize,
    /// Memories.
    pub memories: usize,
    /// Globals.
    pub globals: usize,
}

impl Spaces {
    /// How many there are of a sort.
    pub fn count(self, kind: ExportKind) -> usize
        ensures { result ≡ spec.count self kind }
    {
        match kind {
            ExportKind::Func => self.functions,
            ExportKind::Table => self.tables,
            ExportKind::Memory => self.memories,
            ExportKind::Global => self.globals,
        }
    }
}
