//! A line: what one core import, one core export or one exported function stands for.

use crate::encoding::StringEncoding;

/// Which list of the link table an entry stands in.
#[derive(Clone, Copy, Debug, PartialEq, Eq, PartialOrd, Ord)]
pub enum LinkSide {
    Import,
    Export,
    Dtor,
    Start,
}

/// What a core function ends at.
#[derive(Clone, Copy, Debug, PartialEq, Eq)]
pub enum LinkKind {
    /// The lowering of an imported function.
    Lower,
    /// A core export of an instantiated module.
    Core,
}

/// An instantiated module.
#[derive(Debug, Drop)]
pub enum Owner {
    Main,
    /// An adapter or library, by its name.
    Adapter(String),
}

/// One entry of the link table; what is absent is `None`, and no text is escaped.
#[derive(Debug, Drop)]
pub struct Link {
    pub side: LinkSide,
    pub owner: Owner,
    /// Of an import the module text; of an export the world key, `$root` for the world's own.
    pub module: Option<String>,
    /// Of an import the name; of an export the function.
    pub name: Option<String>,
    pub kind: LinkKind,
    /// Of a lowering the world key; of a core export its owner.
    pub place: Option<String>,
    /// Of a lowering the function; of a core export its name.
    pub item: Option<String>,
    pub memory: Option<String>,
    pub realloc: Option<String>,
    pub encoding: Option<StringEncoding>,
    pub post_return: Option<String>,
    pub hook: Option<String>,
}
