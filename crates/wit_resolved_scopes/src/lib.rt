//! Scopes of a package, brought into an arena.
#![tactic(auto)]

mod checks;
mod functions;
mod law;
mod maps;
mod scope;

pub use law::{
    law_resolved_scopes_are_in_the_arena, law_resolved_scopes_list_their_types,
    law_resolved_scopes_stand_for_their_meaning,
};
pub use maps::keyed;
pub use scope::{ResolvedScope, resolve_scope};
pub use wit_functions::{Known, stability_in};
pub use wit_orders::{are_types, item_order, scope_types};
pub use wit_resources::Natures;
