//! The interfaces and worlds of a package.

use crate::members::{Front, Member};
use crate::worlds::WorldMember;
use wit_syntax::{Docs, Id, Span, ToplevelUse};

/// An interface of a package, with all that it declares (WIT, Item: `interface`).
pub struct InterfaceScope<'a> {
    /// Its name.
    pub name: Id<'a>,
    /// What it declares, in the order of the text.
    pub members: Vec<Member<'a>>,
    /// What stands in front of it.
    pub front: Front<'a>,
    /// Where it stands.
    pub span: Span,
    /// The number of the file that it stands in.
    pub file: usize,
}

// By hand, so that what lets syntax trees go is proved here alone.
impl Drop for InterfaceScope<'_> {
    fn drop(self) {
        let InterfaceScope {
            name: _,
            members: _,
            front: _,
            span: _,
            file: _,
        } = self;
    }
}

/// A world of a package, with all that it declares (WIT, Item: `world`).
pub struct WorldScope<'a> {
    /// Its name.
    pub name: Id<'a>,
    /// What it declares, in the order of the text.
    pub members: Vec<WorldMember<'a>>,
    /// What stands in front of it.
    pub front: Front<'a>,
    /// Where it stands.
    pub span: Span,
    /// The number of the file that it stands in.
    pub file: usize,
}

// By hand, so that what lets syntax trees go is proved here alone.
impl Drop for WorldScope<'_> {
    fn drop(self) {
        let WorldScope {
            name: _,
            members: _,
            front: _,
            span: _,
            file: _,
        } = self;
    }
}

/// An interface or a world of a package.
#[derive(Drop)]
pub enum ItemScope<'a> {
    /// An interface.
    Interface(InterfaceScope<'a>),
    /// A world.
    World(WorldScope<'a>),
}

/// What the files of a package declare.
#[derive(Drop)]
pub struct PackageScopes<'a> {
    /// The docs of the first header that has some.
    pub docs: Docs<'a>,
    /// The `use` statements at the top of each file.
    pub uses: Vec<Vec<ToplevelUse<'a>>>,
    /// The interfaces and worlds, in the order of the files and of their texts.
    pub items: Vec<ItemScope<'a>>,
}
