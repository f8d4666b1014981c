//! Lines of links: what core imports, core exports and exported functions end at, their texts and their order.
#![tactic(auto)]

mod encoding;
mod line;
mod order;
mod text;

pub use encoding::StringEncoding;
pub use line::{Link, LinkKind, LinkSide, Owner};
pub use order::sort_lines;
pub use text::lines_of;
