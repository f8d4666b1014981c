//! The items of WIT texts but worlds: trees of types, functions, `use` and interfaces, and how they are read off tokens.
#![tactic(auto)]

mod items;
mod parse;
mod parse_items;

pub use items::{
    Attribute, Case, EnumCase, Field, Flag, Func, Gate, Gated, Interface, InterfaceItem, NamedFunc,
    Param, ResourceFunc, ToplevelUse, TypeDef, TypeDefKind, Use, UseName,
};
pub use parse::{attribute, attributes, func_behind, toplevel_use_behind, use_behind};
pub use parse_items::{interface_behind, interface_items, type_def_behind};
