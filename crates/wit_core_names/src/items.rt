//! What core modules import and export.

use wit_names::{Function, TypeId, WorldKey};

/// What a core module imports of a world.
#[derive(Clone, Copy)]
pub enum WasmImport<'a> {
    /// A function.
    Func {
        /// The key of the interface that has it; none for a function of the world itself.
        interface: Option<&'a WorldKey>,
        /// The function.
        func: &'a Function,
    },
    /// Something done with handles of a resource.
    ResourceIntrinsic {
        /// The key of the interface that has the resource; none for one of the world itself.
        interface: Option<&'a WorldKey>,
        /// The resource.
        resource: TypeId,
        /// What is done.
        intrinsic: ResourceIntrinsic,
    },
}

/// What can be done with handles of a resource (Canonical ABI, `resource.new`, `resource.drop`, `resource.rep`).
#[derive(Clone, Copy, Debug, PartialEq, Eq)]
pub enum ResourceIntrinsic {
    /// A handle of an imported resource is dropped.
    ImportedDrop,
    /// A handle of an exported resource is dropped.
    ExportedDrop,
    /// A handle of an exported resource is made.
    ExportedNew,
    /// What an exported resource stands for is read.
    ExportedRep,
}

/// What a core module exports for a world.
#[derive(Clone, Copy)]
pub enum WasmExport<'a> {
    /// A function.
    Func {
        /// The key of the interface that has it; none for a function of the world itself.
        interface: Option<&'a WorldKey>,
        /// The function.
        func: &'a Function,
        /// Which of its functions.
        kind: WasmExportKind,
    },
    /// The destructor of a resource.
    ResourceDtor {
        /// The key of the interface that has the resource.
        interface: &'a WorldKey,
        /// The resource.
        resource: TypeId,
    },
    /// The memory.
    Memory,
    /// The function that is called first.
    Initialize,
    /// The function that gives memory.
    Realloc,
}

/// Which function of an exported one.
#[derive(Clone, Copy, Debug, PartialEq, Eq)]
pub enum WasmExportKind {
    /// The function.
    Normal,
    /// The one that is called when its results are read.
    PostReturn,
}
