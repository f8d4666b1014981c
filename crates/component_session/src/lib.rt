//! Links core modules into a component for a world of WIT texts, and judges components against that.
#![tactic(auto)]

mod fault;
mod law;
mod linking;
mod options;
mod session;

pub use component_audit::Verdict;
pub use fault::{Fault, ModuleCause};
pub use handed_modules::{
    HandedModule, HandedModules, Instance, Item, LibraryInfo, MainOrAdapter, ModuleKind,
};
pub use law::{
    law_audit_of_what_was_built, law_built_has_no_cause, law_ready_has_no_cause,
    law_right_is_judged_yes, law_switches_change_nothing, law_wide_ready_has_no_cause,
    law_written_is_right,
};
pub use linked_types::TypeFault;
pub use linking::audit;
pub use options::Options;
pub use session::Session;
pub use text_graphs::{Resolve, ResolveError, ResolveErrorKind};
pub use wasm_types::ExportKind;
pub use wit_component::{
    Fault as LinkFault, FindingKind, Link, LinkKind, LinkSide, Owner, StringEncoding,
};
pub use wit_types::{Id, PackageId, WorldId};
