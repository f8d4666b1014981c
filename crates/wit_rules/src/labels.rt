//! The names of each scope.

ghost use Rattle.std.specs.Prelude.{◌≡◌};
ghost use Rattle.wit_scopes.specs.Passed.wit_syntax-AstView as view;
ghost use Rattle.wit_rules.specs.View as seen;

use smallvec::SmallVec;
use std::borrow::CowStr;
use wit_scopes::{Id, Span};

/// A name of a scope, and where it stands.
#[derive(Drop)]
pub struct Label<'a> {
    /// The name, or a path in full.
    pub text: CowStr<'a>,
    /// Where it stands.
    pub span: Span,
}

// `SmallVec` fills the places that hold no name yet.
impl Default for Label<'_> {
    fn default() -> Self {
        Label {
            text: CowStr::Borrowed(""),
            span: Span { start: 0, end: 0 },
        }
    }
}

/// Names of a scope. Most scopes have few, which take no memory of their own.
pub type Labels<'a> = SmallVec<Label<'a>, 4>;

/// A name as it is written.
pub fn written<'a>(name: Id<'a>) -> Label<'a>
    ensures { seen.label result ≡ view.id name.entry }
{
    Label {
        text: CowStr::Borrowed(name.name),
        span: name.span,
    }
}
