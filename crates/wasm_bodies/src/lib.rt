//! Functions, segments and names of modules that are generated, read and written.
#![tactic(auto)]

mod bodies;
mod decoding;
mod generated;
mod instructions;
mod names;
mod segments;

pub use bodies::{Body, Bounded, CodeSection};
pub use decoding::start_steps;
pub use generated::{GeneratedBody, HookCall, StartStep};
pub use instructions::BodyInstruction;
pub use names::{FunctionName, NameSection};
pub use segments::{DataSection, DataSegment, ElementSection, ElementSegment, FunctionIndex};
