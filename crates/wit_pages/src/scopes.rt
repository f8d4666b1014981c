//! Interfaces.

use crate::definitions::definition;
use crate::functions::function;
use crate::names;
use crate::page::Page;
use crate::stability::{docs, gates};
use crate::view::View;
use wit_types::{AstItem, Id, Interface, InterfaceId, TypeOwner};

/// The types and functions of an interface.
fn members(page: &mut Page, view: &View<'_>, of: &Interface) {
    for (key, id) in of.types.iter() {
        definition(page, view, "", key, *id);
    }
    for (key, one) in of.functions.iter() {
        function(page, view, "", key, one);
    }
}

/// An interface; one of another package stands for that.
pub fn interface(page: &mut Page, view: &View<'_>, id: InterfaceId, of: &Interface) {
    docs(page, &of.docs);
    page.begin("interface ");
    names::interface(page, view, id);
    if names::package_of(view, AstItem::Interface(id)).is_some() {
        page.words(" of another package");
    }
    gates(page, &of.stability);
    names::place(page, view, of.span);
    page.end();
    page.go_in();
    let inner = view.within(TypeOwner::Interface(id));
    members(page, &inner, of);
    page.go_out();
}

/// All interfaces, in their order.
pub fn interfaces(page: &mut Page, view: &View<'_>) {
    for (index, of) in view.interfaces.iter().enumerate() {
        interface(page, view, Id::from_index(index), of);
    }
}
