//! A package made of what is brought together.

ghost use Rattle.std.specs.Prelude.{◌≡◌, IfOk};
ghost use Rattle.wit_syntax.specs.AstView as view;
ghost use Rattle.wit_placeholders.specs.Passed.wit_package_types-Stability.{IsReadWhere};
ghost use Rattle.wit_placeholders.specs.Passed.wit_foreign-Deps.{HaveItems, HaveGates, HaveVersions};
ghost use Rattle.wit_placeholders.specs.Passed.wit_foreign-View as asked;
ghost use Rattle.wit_package.specs.Resolved as spec;

use std::alloc::{AllocError, Global};
use wit_arena::docs_of;
use wit_built_worlds::Building;
use wit_placeholders::{ForeignItems, Need, foreign_deps, package_name};
use wit_rules::name_span;
use wit_syntax::{Docs, PackageName, Span};
use wit_types::{Arena, UnresolvedPackage, World};

/// The package of that name, with these docs, that is made of what was brought together, and of what it asks of others.
pub fn package_of<'a>(
    alloc: Global,
    me: &PackageName<'_>,
    docs: &Docs<'_>,
    items: &ForeignItems<'a>,
    needs: &[Need<'a>],
    building: Building<'a>,
    worlds: Arena<World>,
    spans: Vec<Span>,
) -> Result<UnresolvedPackage, AllocError>
    requires version { IsReadWhere (view.package_name me.now).version }
    requires there { HaveItems items.now (asked.needs needs.now) }
    requires gates { HaveGates (asked.needs needs.now) }
    requires versions { HaveVersions (asked.needs needs.now) }
    ensures { IfOk result (spec.IsMade (view.package_name me.now) (view.docs docs.now) items.now (asked.needs needs.now) building.entry.types building.entry.interfaces worlds spans.items) }
{
    let name_span = name_span(me);
    let name = package_name(alloc, me)?;
    let docs = docs_of(alloc, docs)?;
    let deps = foreign_deps(alloc, items, needs)?;
    Ok(UnresolvedPackage {
        name,
        name_span,
        docs,
        worlds,
        interfaces: building.interfaces,
        types: building.types.into_arena(),
        foreign_deps: deps.deps,
        foreign_dep_spans: deps.spans,
        unknown_type_spans: spans,
    })
}
