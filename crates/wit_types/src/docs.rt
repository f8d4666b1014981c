//! Docs.

ghost use Rattle.std.specs.Prelude.{◌≡◌, ◌↔◌, None, IsTrue};

/// What is said of something in front of it (WIT, Comments).
#[derive(Clone, Drop)]
pub struct Docs {
    /// The text, if there is one.
    pub contents: Option<String>,
}

impl Docs {
    /// Whether there is no text.
    pub fn is_empty(&self) -> bool
        ensures { IsTrue result ↔ (self.now.contents ≡ None) }
    {
        self.contents.is_none()
    }
}
