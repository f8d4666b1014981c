//! Packages.

use wit_package::UnresolvedPackageGroup;
use wit_pages::scopes::interfaces;
use wit_pages::worlds::worlds;
use wit_pages::{Packages, Page, View, docs, gates, names, totals, type_trees, unnamed_types};
use wit_syntax::SourceMap;
use wit_types::{AstItem, ForeignItems, Id, Stability, TypeOwner, UnresolvedPackage};

/// How packages are resolved, and what is written of them besides what they hold.
#[derive(Clone, Copy)]
pub enum Manner {
    /// All files are parsed at once.
    Parsed,
    /// The same, and places are written too.
    Placed,
    /// All files are parsed at once, and the whole trees of the types and how much there is are written too.
    Unfolded,
    /// The files are given to a resolver one by one.
    Pushed,
}

/// The gates of what asks for something, one behind the other.
fn asked_under(page: &mut Page, of: &[Stability]) {
    for (index, stability) in of.iter().enumerate() {
        page.words(if index == 0 { "" } else { "," });
        match stability {
            Stability::Unknown => page.words(" always"),
            _ => gates(page, stability),
        }
    }
}

/// What is asked of another package.
fn asked(page: &mut Page, view: &View<'_>, of: &ForeignItems) {
    for (name, (item, stabilities)) in of.iter() {
        page.begin(match item {
            AstItem::Interface(_) => "interface ",
            AstItem::World(_) => "world ",
        });
        match item {
            AstItem::Interface(id) => names::interface(page, view, *id),
            AstItem::World(id) => names::world(page, view, *id),
        }
        page.words(" under ");
        page.words(name);
        page.words(":");
        asked_under(page, stabilities.as_slice());
        page.end();
    }
}

/// What is asked of other packages, each with the first place of that.
fn others(page: &mut Page, view: &View<'_>, of: &UnresolvedPackage) {
    let spans = of.foreign_dep_spans.as_slice();
    for ((name, items), span) in of.foreign_deps.iter().zip(spans.iter()) {
        page.begin("asks ");
        page.shown(name);
        names::at(page, view, *span);
        page.end();
        page.go_in();
        asked(page, view, items);
        page.go_out();
    }
}

/// The types of other packages, each with its first place.
fn unknown(page: &mut Page, view: &View<'_>, of: &UnresolvedPackage) {
    let spans = of.unknown_type_spans.as_slice();
    for (index, span) in spans.iter().enumerate() {
        page.begin("unknown ");
        names::named_type(page, view, Id::from_index(index));
        names::at(page, view, *span);
        page.end();
    }
}

/// How many things there are of each sort.
fn counts(page: &mut Page, of: &UnresolvedPackage) {
    page.begin("interfaces: ");
    page.shown(&of.interfaces.len());
    page.words(", worlds: ");
    page.shown(&of.worlds.len());
    page.words(", types: ");
    page.shown(&of.types.len());
    page.words(", other packages: ");
    page.shown(&of.foreign_deps.len());
    page.end();
}

/// A package.
fn package<'p>(page: &mut Page, of: &'p UnresolvedPackage, map: &'p SourceMap, manner: Manner) {
    let places = matches!(manner, Manner::Placed);
    let view = &View {
        types: &of.types,
        interfaces: &of.interfaces,
        worlds: &of.worlds,
        packages: &Packages::Asked(&of.foreign_deps),
        map,
        scope: TypeOwner::None,
        places,
    };
    docs(page, &of.docs);
    page.begin("package ");
    page.shown(&of.name);
    page.end();
    page.go_in();
    others(page, view, of);
    unknown(page, view, of);
    interfaces(page, view);
    worlds(page, view);
    unnamed_types(page, view);
    counts(page, of);
    if let Manner::Unfolded = manner {
        type_trees(page, view);
        totals(page, view);
    }
    page.go_out();
}

/// The packages of some files.
pub fn group(page: &mut Page, of: &UnresolvedPackageGroup, manner: Manner) {
    package(page, &of.main, &of.source_map, manner);
    for one in &of.nested {
        package(page, one, &of.source_map, manner);
    }
}

/// How many things there are of each sort in the packages of some files, and how many packages are nested in them.
pub fn group_counts(page: &mut Page, of: &UnresolvedPackageGroup) {
    counts(page, &of.main);
    if !of.nested.is_empty() {
        page.begin("nested packages: ");
        page.shown(&of.nested.len());
        page.end();
    }
}
