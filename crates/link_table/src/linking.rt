//! What is linked.

use core_links::CoreNames;
use link_lines::StringEncoding;
use wasm_format::CoreModule;

/// A core module, and the world with which it is linked (Component Model, Build Targets).
#[derive(Clone, Copy)]
pub struct Linking<'l, 'm, 'b> {
    /// The world, and the names that core modules have for what it has.
    pub names: CoreNames<'l>,
    /// The module.
    pub main: &'m CoreModule<'b>,
    /// How the module lays out its strings.
    pub encoding: StringEncoding,
}
