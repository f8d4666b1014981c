//! Types of which other packages decide whether they may stand where they do.
#![tactic(auto)]

mod shapes;

pub use shapes::{check_functions, check_side, check_types};
pub use wit_resources::Natures;
