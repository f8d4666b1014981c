//! What worlds declare.

use crate::members::{Front, Member};
use crate::paths::Target;
use std::rc::Rc;
use wit_syntax::{Func, Id, IncludeName, Span};

/// Whether a world asks for something or offers it (WIT, Item: `world`).
#[derive(Clone, Copy, Debug, PartialEq, Eq)]
pub enum Side {
    /// `import`
    Import,
    /// `export`
    Export,
}

/// What a world imports or exports.
#[derive(Drop)]
pub enum ExternKind<'a> {
    /// A function.
    Function(Rc<Func<'a>>),
    /// An interface that stands in the world, with all that it declares.
    Interface(Vec<Member<'a>>),
    /// An interface of a package.
    Item(Target<'a>),
}

/// An import or export of a world.
pub struct Listed<'a> {
    /// Which of the two it is.
    pub side: Side,
    /// Its label, or the last name of its path.
    pub name: Id<'a>,
    /// What it is.
    pub kind: ExternKind<'a>,
    /// What stands in front of it.
    pub front: Rc<Front<'a>>,
    /// Where it stands.
    pub span: Span,
}

// By hand, so that what lets syntax trees go is proved here alone.
impl Drop for Listed<'_> {
    fn drop(self) {
        let Listed {
            side: _,
            name: _,
            kind: _,
            front: _,
            span: _,
        } = self;
    }
}

/// A world that another includes.
#[derive(Drop)]
pub struct Included<'a> {
    /// The world.
    pub world: Target<'a>,
    /// The names that change.
    pub names: Vec<IncludeName<'a>>,
    /// What stands in front of it.
    pub front: Rc<Front<'a>>,
    /// Where it stands.
    pub span: Span,
}

/// What a world declares.
#[derive(Drop)]
pub enum WorldMember<'a> {
    /// A type or a function of a resource.
    Member(Member<'a>),
    /// An import or export.
    Listed(Listed<'a>),
    /// A world that is included.
    Included(Included<'a>),
}
