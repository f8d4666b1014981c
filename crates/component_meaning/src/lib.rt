//! What the indices of a component stand for: definitions and laws.
#![tactic(auto)]

mod law;

pub use law::law_earlier_indices_stay;
