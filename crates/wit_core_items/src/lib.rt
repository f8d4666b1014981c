//! What core modules import and export of a world, by their names (Component Model, Build Targets).
#![tactic(auto)]

mod export_names;
mod export_places;
mod exports;
mod import_names;
mod import_places;
mod imports;
mod known;
mod named;
mod resources;
mod sides;

pub use exports::CoreExports;
pub use import_places::ImportPlace;
pub use imports::CoreImports;
