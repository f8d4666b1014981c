//! The order of packages that come together: each behind all on which it depends (WIT, Packages).
#![tactic(auto)]

mod fault;
mod names;
mod order;
mod sorted;

pub use fault::PackageOrderFault;
pub use order::package_order;
pub use sorted::sorted_packages;
