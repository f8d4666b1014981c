//! The core modules that are handed to a linker: the main module, adapters and libraries, each under its name.
#![tactic(auto)]

mod fault;
mod law;
mod library;
mod modules;

pub use fault::HandFault;
pub use law::law_modules_are_kept;
pub use library::{Instance, Item, LibraryInfo, MainOrAdapter};
pub use modules::{HandedModule, HandedModules, ModuleKind};
