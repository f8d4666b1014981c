//! Worlds.

use crate::definitions::definition;
use crate::functions::function;
use crate::names;
use crate::page::Page;
use crate::stability::{docs, gates};
use crate::view::View;
use indexmap::IndexMap;
use wit_types::{
    AstItem, Id, InterfaceId, Stability, TypeOwner, World, WorldId, WorldInclude, WorldItem,
    WorldKey,
};
use wit_words::Span;

/// An interface that a world imports or exports, by its name or by a label.
fn interface(page: &mut Page, view: &View<'_>, key: &WorldKey, id: InterfaceId) {
    match key {
        WorldKey::Interface(known) => {
            names::interface(page, view, *known);
            if *known != id {
                page.words(" ! is ");
                names::interface(page, view, id);
            }
        }
        WorldKey::Name(label) => {
            page.words(label);
            page.words(": interface ");
            names::interface(page, view, id);
        }
    }
}

/// The line of an interface that a world imports or exports.
fn interface_line(
    page: &mut Page,
    view: &View<'_>,
    side: &str,
    key: &WorldKey,
    of: (InterfaceId, &Stability, Span),
) {
    let (id, stability, span) = of;
    page.begin(side);
    interface(page, view, key, id);
    gates(page, stability);
    names::place(page, view, span);
    page.end();
}

/// The name that a function or a type goes by.
fn name_of(key: &WorldKey) -> &str {
    match key {
        WorldKey::Name(name) => name,
        WorldKey::Interface(_) => "! an interface",
    }
}

/// What a world imports or exports.
fn item(page: &mut Page, view: &View<'_>, side: &str, key: &WorldKey, of: &WorldItem) {
    match of {
        WorldItem::Interface {
            id,
            stability,
            span,
        } => interface_line(page, view, side, key, (*id, stability, *span)),
        WorldItem::Function(of) => function(page, view, side, name_of(key), of),
        WorldItem::TypeItem { id, .. } => definition(page, view, side, name_of(key), *id),
    }
}

/// All that a world imports or exports.
fn items(page: &mut Page, view: &View<'_>, side: &str, of: &IndexMap<WorldKey, WorldItem>) {
    for (key, one) in of.iter() {
        item(page, view, side, key, one);
    }
}

/// A world that is included.
fn included(page: &mut Page, view: &View<'_>, of: &WorldInclude) {
    page.begin("include ");
    names::world(page, view, of.id);
    for name in &of.names {
        page.words(" with ");
        page.words(&name.name);
        page.words(" as ");
        page.words(&name.as_);
    }
    gates(page, &of.stability);
    names::place(page, view, of.span);
    page.end();
}

/// What stands in a world.
fn members(page: &mut Page, view: &View<'_>, of: &World) {
    items(page, view, "import ", &of.imports);
    items(page, view, "export ", &of.exports);
    for one in &of.includes {
        included(page, view, one);
    }
}

/// A world; one of another package stands for that.
pub fn world(page: &mut Page, view: &View<'_>, id: WorldId, of: &World) {
    docs(page, &of.docs);
    page.begin("world ");
    names::world(page, view, id);
    if names::package_of(view, AstItem::World(id)).is_some() {
        page.words(" of another package");
    }
    gates(page, &of.stability);
    names::place(page, view, of.span);
    page.end();
    page.go_in();
    let inner = view.within(TypeOwner::World(id));
    members(page, &inner, of);
    page.go_out();
}

/// All worlds, in their order.
pub fn worlds(page: &mut Page, view: &View<'_>) {
    for (index, of) in view.worlds.iter().enumerate() {
        world(page, view, Id::from_index(index), of);
    }
}
