//! What a library is instantiated with.

use wasm_types::ExportKind;

/// The instance of the main module, or of the adapter or library of a name.
#[derive(Debug, Drop)]
pub enum MainOrAdapter {
    /// The main module's.
    Main,
    /// That of the adapter or library of this name.
    Adapter(String),
}

/// What an instance that is made of single exports has under a name: the export of an instance.
#[derive(Debug, Drop)]
pub struct Item {
    /// The name that it has for the library.
    pub alias: String,
    /// Of what sort that export is (WebAssembly Core, Modules, Exports).
    pub kind: ExportKind,
    /// Whose export it is.
    pub which: MainOrAdapter,
    /// The name of that export.
    pub name: String,
}

/// An instance that a library is given: that of another module, or one that is made of single exports.
#[derive(Debug, Drop)]
pub enum Instance {
    /// That of another module.
    MainOrAdapter(MainOrAdapter),
    /// One that is made of these exports.
    Items(Vec<Item>),
}

/// What a library is handed in with.
#[derive(Drop)]
pub struct LibraryInfo {
    /// What it is instantiated with, under the texts by which its core imports name that.
    pub arguments: Vec<(String, Instance)>,
}
