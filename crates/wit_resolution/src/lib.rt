//! Packages of WIT that are resolved together: texts are pushed, each with what it needs behind those that are there, worlds are chosen
//! and named (WIT, Packages).
#![tactic(auto)]

mod groups;
mod names;
mod resolve;
mod sources;
mod texts;

pub use resolve::Resolve;
pub use sources::PackageSources;
pub use wit_core_items::{CoreExports, CoreImports};
pub use wit_core_names::{ResourceIntrinsic, Tables, WasmExport, WasmExportKind, WasmImport};
pub use wit_core_tables::Meaning;
pub use wit_features::Features;
pub use wit_resolve_errors::{Graph, ResolveError, ResolveErrorKind, ResolveResult};
pub use wit_well_formed::{UnresolvedPackageGroup, law_parsed_packages_are_well_formed};
pub use wit_words::{SourceMap, SourceNames, Span};
