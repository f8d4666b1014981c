//! What the files of a package declare.

ghost use Rattle.std.specs.Prelude.{◌≡◌};
ghost use Rattle.wit_scopes.specs.Passed.wit_syntax-AstView as view;
ghost use Rattle.wit_rules.specs.Facts as spec;

use wit_scopes::{Docs, ItemScope, PackageName, Span, ToplevelUse};

/// Where a package's name stands, with its version.
pub fn name_span<'a>(name: &PackageName<'a>) -> Span
    ensures { result ≡ spec.name_span (view.package_name name.now) }
{
    let end = match name.version {
        None => name.name.span.end,
        Some(version) => version.span.end,
    };
    Span {
        start: name.namespace.span.start,
        end,
    }
}

/// What the files of a package declare.
#[derive(Drop)]
pub struct Declared<'a> {
    /// The package's name, which the first header gives.
    pub name: PackageName<'a>,
    /// The docs of the first header that has some.
    pub docs: Docs<'a>,
    /// The `use` statements at the top of each of its files.
    pub uses: Vec<Vec<ToplevelUse<'a>>>,
    /// Its interfaces and worlds, in the order of its files and of their texts.
    pub scopes: Vec<ItemScope<'a>>,
}
