//! How much a package holds.

use crate::page::Page;
use crate::view::View;
use indexmap::IndexMap;
use wit_types::{WorldItem, WorldKey};

/// How many types have a name.
fn named(view: &View<'_>) -> usize {
    let mut count: usize = 0;
    for of in view.types.iter() {
        if of.name.is_some() {
            count = count.saturating_add(1);
        }
    }
    count
}

/// How many functions there are among what a world imports or exports.
fn functions_among(of: &IndexMap<WorldKey, WorldItem>) -> usize {
    let mut count: usize = 0;
    for (_, item) in of.iter() {
        if let WorldItem::Function(_) = item {
            count = count.saturating_add(1);
        }
    }
    count
}

/// How many functions there are in interfaces and worlds.
fn functions(view: &View<'_>) -> usize {
    let mut count: usize = 0;
    for of in view.interfaces.iter() {
        count = count.saturating_add(of.functions.len());
    }
    for of in view.worlds.iter() {
        count = count.saturating_add(functions_among(&of.imports));
        count = count.saturating_add(functions_among(&of.exports));
    }
    count
}

/// How many interfaces, worlds, types and functions there are, those that stand for others of other packages too.
pub fn totals(page: &mut Page, view: &View<'_>) {
    let named = named(view);
    page.begin("in all: interfaces ");
    page.shown(&view.interfaces.len());
    page.words(", worlds ");
    page.shown(&view.worlds.len());
    page.words(", types with names ");
    page.shown(&named);
    page.words(", types without ");
    page.shown(&view.types.len().saturating_sub(named));
    page.words(", functions ");
    page.shown(&functions(view));
    page.end();
}
