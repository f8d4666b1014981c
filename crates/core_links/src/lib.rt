//! What the core imports and exports of a module stand for in a world, by their names.
#![tactic(auto)]

mod exports;
mod fault;
mod imports;
mod names;
mod needed;
mod pairs;

pub use exports::ExportNames;
pub use fault::LinkFault;
pub use imports::ImportLinks;
pub use names::CoreNames;
pub use needed::NeededFunctions;
