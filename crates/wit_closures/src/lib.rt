//! What interfaces depend on, kept for all of them (Component Model, WIT, Worlds).
#![tactic(auto)]

mod closures;
mod laws;
mod lists;

pub use closures::Closures;
pub use laws::{law_next_is_reached, law_reached_stay};
