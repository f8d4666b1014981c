//! What is found under a name.

/// What is found under a name where something is asked for.
#[derive(Clone, Copy, Debug, PartialEq, Eq)]
pub enum Found {
    /// What is asked for.
    There,
    /// Something of another kind.
    OfAnotherKind,
    /// Nothing.
    Missing,
}
