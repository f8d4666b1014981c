//! Which types are resources, which handles may name them, and which results functions may have.
#![tactic(auto)]

mod constructors;
mod handles;
mod law;
mod natures;

pub use constructors::check_constructor;
pub use handles::{check_handles, check_result};
pub use law::law_natures_tell_what_types_mean;
pub use natures::{Nature, Natures};
pub use wit_arena::{Table, Types};
