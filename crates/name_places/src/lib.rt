//! Names, each with the first place at which it stands.
#![tactic(auto)]

mod first_places;

pub use first_places::FirstPlaces;
