//! Instances and the types of instances, read and written.
#![tactic(auto)]

mod declarators;
mod instances;
mod type_definitions;

pub use declarators::{Declarator, InstanceType};
pub use instances::{CoreArgument, CoreInstance, CoreItem, InlineExport, Instance, Item};
pub use type_definitions::{CoreFunctionIndex, ResourceType, TypeDefinition};
