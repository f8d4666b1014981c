//! Links core modules into a component for a world of WIT texts, and judges components against that.
#![tactic(auto)]

mod program;

pub use command_line::{Action, Encoding, Input, Line, LineFault, read_line};
pub use component_builder::{EmitFault, emit};
pub use component_session::{
    ExportKind, Fault, FindingKind, HandedModule, HandedModules, Id, Instance, Item, LibraryInfo,
    Link, LinkFault, LinkKind, LinkSide, MainOrAdapter, ModuleCause, ModuleKind, Options, Owner,
    PackageId, Resolve, ResolveError, ResolveErrorKind, Session, StringEncoding, Verdict, WorldId,
    audit, law_audit_of_what_was_built, law_built_has_no_cause, law_ready_has_no_cause,
    law_right_is_judged_yes, law_written_is_right,
};
pub use program::run;
