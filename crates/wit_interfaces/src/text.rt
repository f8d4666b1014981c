//! Interfaces as the text has them.

ghost use Rattle.std.specs.Prelude.{◌≡◌};
ghost use Rattle.wit_arena.specs.Tree.{in_interface};
ghost use Rattle.wit_scopes.specs.View as scope_view;
ghost use Rattle.wit_resolved_scopes.specs.Texts.{interface_text};
ghost use Rattle.wit_interfaces.specs.View as seen;

use wit_scopes::{Front, InterfaceScope, Member};
use wit_syntax::Span;

/// An interface as the text has it (WIT, Item: `interface`): one of a package, or one that stands in a world.
#[derive(Clone, Copy)]
pub struct InterfaceText<'s, 'a> {
    /// Its name in the package; one that stands in a world has none.
    pub name: Option<&'a str>,
    /// What it declares, in the order of the text.
    pub members: &'s [Member<'a>],
    /// What stands in front of it.
    pub front: &'s Front<'a>,
    /// Where its name or its label stands.
    pub span: Span,
}

/// An interface of a package.
pub fn text_of<'s, 'a>(interface: &'s InterfaceScope<'a>) -> InterfaceText<'s, 'a>
    ensures { seen.text (in_interface interface.entry.now.name.name.now) result ≡ interface_text (scope_view.interface_scope interface.entry.now) }
{
    InterfaceText {
        name: Some(interface.name.name),
        members: interface.members.as_slice(),
        front: &interface.front,
        span: interface.name.span,
    }
}
