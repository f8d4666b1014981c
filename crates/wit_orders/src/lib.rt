//! The orders in which a package is resolved: types of a scope behind those that they name, interfaces behind those from
//! which they use types, worlds behind those that they include.
#![tactic(auto)]

mod items;
mod law;
mod order;
mod types;

pub use items::item_order;
pub use law::law_orders_are_toposorts;
pub use order::{Entry, order_of};
pub use types::{are_sorted, are_types, scope_types, sorted_types, type_order, world_types};
