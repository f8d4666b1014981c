//! What a package asks of other packages: its interfaces and worlds name interfaces, worlds and types of others, of which
//! nothing is known but their names.
#![tactic(auto)]

mod deps;
mod groups;
mod items;
mod law;
mod needs;
mod unknown;

pub use deps::{ForeignDeps, foreign_deps, package_name};
pub use items::{ForeignItems, ItemPath, foreign_items};
pub use law::law_unknown_types_stand_for_what_is_given;
pub use needs::{Need, foreign_needs};
pub use unknown::{Unknown, add_unknown_types};
pub use wit_lookups::Asked;
pub use wit_package_types::{Known, stability_in};
