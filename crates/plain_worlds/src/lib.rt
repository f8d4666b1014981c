//! The plain functions of worlds: those over `bool` and integers, which are linked so far (WIT, Worlds).
#![tactic(auto)]

mod world;

pub use world::{Function, Param, PrimitiveType, World, plain_world, world_fits};
