//! What packages hold.

use crate::places::{known, view_of};
use indexmap::IndexMap;
use wit_pages::scopes::interface;
use wit_pages::worlds::world;
use wit_pages::{Page, View, docs, names, under};
use wit_resolution::Resolve;
use wit_types::{Id, InterfaceId, Package, PackageId, World, WorldId, WorldItem, WorldKey};
use wit_words::SourceMap;

/// Interfaces by their names, but for one of them.
fn list(page: &mut Page, view: &View<'_>, word: &str, ids: &[InterfaceId], but: InterfaceId) {
    page.begin(word);
    let mut is_first = true;
    for id in ids {
        if *id != but {
            page.words(if is_first { " " } else { ", " });
            names::interface(page, view, *id);
            is_first = false;
        }
    }
    page.end();
}

/// The interfaces of which an interface uses types, and all on which it depends, where those are more.
fn dependencies(page: &mut Page, view: &View<'_>, resolve: &Resolve, id: InterfaceId) {
    if id.index() >= resolve.interfaces().len() {
        return;
    }
    let uses = resolve.interface_direct_deps(id);
    let reached = resolve.interface_closure(id);
    if !uses.is_empty() {
        list(page, view, "uses", uses, id);
    }
    if reached.len() > uses.len().saturating_add(1) {
        list(page, view, "reaches", reached, id);
    }
}

/// An interface.
fn whole_interface(page: &mut Page, view: &View<'_>, resolve: &Resolve, id: InterfaceId) {
    let Some(of) = under(view.interfaces, id) else {
        return page.words("! no interface\n");
    };
    interface(page, view, id, of);
    page.go_in();
    dependencies(page, view, resolve, id);
    page.go_out();
}

/// Whether two worlds import the same, in the same order.
fn are_same(one: &IndexMap<WorldKey, WorldItem>, other: &IndexMap<WorldKey, WorldItem>) -> bool {
    if one.len() != other.len() {
        return false;
    }
    for ((key, _), (known, _)) in one.iter().zip(other.iter()) {
        if *key != *known {
            return false;
        }
    }
    true
}

/// What a world lists as imports, by the keys.
fn listed(page: &mut Page, view: &View<'_>, of: &IndexMap<WorldKey, WorldItem>) {
    page.begin("lists");
    if of.is_empty() {
        page.words(" no imports");
    }
    for (index, (key, _)) in of.iter().enumerate() {
        page.words(if index == 0 { " " } else { ", " });
        match key {
            WorldKey::Name(name) => page.words(name),
            WorldKey::Interface(id) => names::interface(page, view, *id),
        }
    }
    page.end();
}

/// A world as it is in the end, and what it lists as imports, where that is something else.
fn whole_world(page: &mut Page, view: &View<'_>, lists: Option<&World>, id: WorldId) {
    let Some(of) = under(view.worlds, id) else {
        return page.words("! no world\n");
    };
    world(page, view, id, of);
    page.go_in();
    match lists {
        Some(lists) => {
            if !are_same(&lists.imports, &of.imports) {
                listed(page, view, &lists.imports);
            }
        }
        None => page.words("! it lists nothing\n"),
    }
    page.go_out();
}

/// The interfaces of a package that stand in its worlds.
fn nameless(page: &mut Page, view: &View<'_>, resolve: &Resolve, owner: PackageId) {
    for (index, of) in view.interfaces.iter().enumerate() {
        if of.name.is_none() && of.package == Some(owner) {
            whole_interface(page, view, resolve, Id::from_index(index));
        }
    }
}

/// What stands in a package.
fn members(page: &mut Page, resolve: &Resolve, map: &SourceMap, owner: PackageId, of: &Package) {
    let packages = known(resolve, Some(owner));
    let view = &view_of(resolve, map, &packages);
    for (_, id) in of.interfaces.iter() {
        whole_interface(page, view, resolve, *id);
    }
    nameless(page, view, resolve, owner);
    for (_, id) in of.worlds.iter() {
        whole_world(page, view, under(resolve.graph().listed_worlds(), *id), *id);
    }
}

/// A package.
fn package(page: &mut Page, resolve: &Resolve, owner: PackageId, of: &Package) {
    docs(page, &of.docs);
    page.begin("package ");
    page.shown(&of.name);
    page.end();
    page.go_in();
    members(page, resolve, &SourceMap::new(page.alloc), owner, of);
    page.go_out();
}

/// How many things there are of each sort.
fn counts(page: &mut Page, of: &Resolve) {
    page.begin("types: ");
    page.shown(&of.types().len());
    page.words(", interfaces: ");
    page.shown(&of.interfaces().len());
    page.words(", worlds: ");
    page.shown(&of.worlds().len());
    page.words(", packages: ");
    page.shown(&of.packages().len());
    page.end();
}

/// All packages, and how much there is.
pub fn all(page: &mut Page, of: &Resolve) {
    for (index, one) in of.packages().iter().enumerate() {
        package(page, of, Id::from_index(index), one);
    }
    counts(page, of);
}
