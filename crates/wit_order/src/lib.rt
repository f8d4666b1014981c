//! The order of names that need one another: what a name needs stands before it.
#![tactic(auto)]

mod backward;
mod fault;
mod law;
mod names;
mod places;
mod sorter;

pub use fault::OrderFault;
pub use law::{law_a_fault_denies_an_order, law_order_is_of_the_set};
pub use names::{Need, toposort};
pub use places::{PlaceFault, least_order};
pub use sorter::Circle;
pub use wit_words::Span;
