//! The worlds of a package, each made of what it imports, exports and includes.
#![tactic(auto)]

mod law;
mod lists;
mod own;
mod paths;
mod world;

pub use law::{
    law_entries_have_keys_of_their_own, law_listed_worlds_stand_for_their_texts,
    law_made_worlds_stand_for_their_texts,
};
pub use lists::{Left, Lists, lists_of};
pub use own::own_members;
pub use paths::Paths;
pub use world::world_of;
