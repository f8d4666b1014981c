//! What is asked for of other packages.

/// As what something of another package is asked for.
#[derive(Clone, Copy, Debug, PartialEq, Eq, Hash)]
pub enum Asked {
    /// As an interface.
    Interface,
    /// As a world.
    World,
}
