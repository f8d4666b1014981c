//! The names by which core modules import and export what a world has (Component Model, Build Targets).
#![tactic(auto)]

mod exports;
mod imports;
mod items;
mod texts;

pub use exports::wasm_export_name;
pub use imports::wasm_import_name;
pub use items::{ResourceIntrinsic, WasmExport, WasmExportKind, WasmImport};
pub use texts::Tables;
