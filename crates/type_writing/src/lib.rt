//! Types of a graph written where a component has types, each at an index that stands for its tree.
#![tactic(auto)]

mod encoder;
mod fault;
mod functions;
mod law;
mod parts;
mod types;

pub use encoder::ValtypeEncoder;
pub use fault::Fault;
pub use functions::{function_of, write_function};
pub use law::law_written_types_are_the_texts;
pub use types::{write_type, write_types};
