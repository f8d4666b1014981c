//! Names of interfaces, worlds and types.

use crate::page::Page;
use crate::view::{Packages, View, under};
use indexmap::IndexMap;
use wit_types::{
    AstItem, ForeignItems, InterfaceId, PackageId, PackageName, TypeId, TypeOwner, WorldId,
};
use wit_words::Span;

/// The package of which an item is asked, if it is asked for.
fn asked_of(asked: &IndexMap<PackageName, ForeignItems>, item: AstItem) -> Option<&PackageName> {
    for (name, items) in asked.iter() {
        for (_, (found, _)) in items.iter() {
            if *found == item {
                return Some(name);
            }
        }
    }
    None
}

/// The package of a graph that an item is said to be of.
fn owner_of(view: &View<'_>, item: AstItem) -> Option<PackageId> {
    match item {
        AstItem::Interface(id) => under(view.interfaces, id)?.package,
        AstItem::World(id) => under(view.worlds, id)?.package,
    }
}

/// The other package in which an interface or a world stands, if it stands in one.
pub fn package_of<'p>(view: &View<'p>, item: AstItem) -> Option<&'p PackageName> {
    match view.packages {
        Packages::Asked(asked) => asked_of(asked, item),
        Packages::Known { packages, own } => {
            let owner = owner_of(view, item)?;
            if *own == Some(owner) {
                return None;
            }
            Some(&under(packages, owner)?.name)
        }
    }
}

/// The name of an item, behind that of its package where that is another.
fn item(page: &mut Page, package: Option<&PackageName>, name: &str) {
    match package {
        Some(package) => page.made(&package.interface_id(page.alloc, name)),
        None => page.words(name),
    }
}

/// The name of an interface; one without a name goes by its place.
pub fn interface(page: &mut Page, view: &View<'_>, id: InterfaceId) {
    match under(view.interfaces, id).map(|found| &found.name) {
        Some(Some(name)) => {
            item(page, package_of(view, AstItem::Interface(id)), name);
        }
        Some(None) => {
            page.words("#");
            page.shown(&id.index());
        }
        None => page.words("! no interface"),
    }
}

/// The name of a world.
pub fn world(page: &mut Page, view: &View<'_>, id: WorldId) {
    match under(view.worlds, id) {
        Some(found) => item(page, package_of(view, AstItem::World(id)), &found.name),
        None => page.words("! no world"),
    }
}

/// The interface or world of a type, in front of its name.
fn owner(page: &mut Page, view: &View<'_>, owner: TypeOwner) {
    match owner {
        TypeOwner::World(id) => world(page, view, id),
        TypeOwner::Interface(id) => interface(page, view, id),
        TypeOwner::None => page.words("! nowhere"),
    }
    page.words(".");
}

/// The name of a type that has one, behind that of its scope where that is another than the view's.
pub fn named_type(page: &mut Page, view: &View<'_>, id: TypeId) {
    let Some(found) = under(view.types, id) else {
        return page.words("! no type");
    };
    if found.owner != view.scope {
        owner(page, view, found.owner);
    }
    match &found.name {
        Some(name) => page.words(name),
        None => page.words("! no name"),
    }
}

/// What something goes by in a table, where that isn't its name.
pub fn key(page: &mut Page, key: &str, name: &str) {
    if key != name {
        page.words(" ! under ");
        page.words(key);
    }
}

/// Where something stands, if places are written.
pub fn place(page: &mut Page, view: &View<'_>, span: Span) {
    if view.places {
        at(page, view, span);
    }
}

/// Where something stands.
pub fn at(page: &mut Page, view: &View<'_>, span: Span) {
    page.words(" at ");
    page.made(&view.map.render_location(span));
}
