//! The names by which core modules import and export what a world has, the older one and that of the standard, and what is read by each.

use crate::{core_exports, core_imports};
use wit_pages::{Page, under};
use wit_resolution::{Meaning, Resolve};
use wit_types::{TypeDefKind, TypeId, WorldId};

/// What is written for names that something doesn't have.
pub const NO_NAMES: &str = "-, -";

/// What is read by the name of the thing at a place.
pub fn meaning(page: &mut Page, read: Option<Meaning>, place: usize) {
    page.words(match read {
        Some(Meaning::One(found)) if found == place => " = one",
        Some(Meaning::One(_)) => " = another",
        Some(Meaning::Ambiguous) => " = several",
        None => " = none",
    });
}

/// Whether a type defines a resource.
pub fn is_resource(resolve: &Resolve, id: TypeId) -> bool {
    match under(resolve.types(), id) {
        Some(def) => matches!(&def.kind, TypeDefKind::Resource),
        None => false,
    }
}

/// All that core modules may import of a world, and then all that they may export for it, read with the older names or without.
pub fn all(page: &mut Page, resolve: &Resolve, id: WorldId, legacy: bool) {
    let Some(world) = under(resolve.worlds(), id) else {
        return page.words("! no world\n");
    };
    page.go_in();
    match &resolve.core_imports(world, legacy) {
        Ok(names) => core_imports::all(page, resolve, names, world),
        Err(_) => page.refuse(),
    }
    match &resolve.core_exports(world, legacy) {
        Ok(names) => core_exports::all(page, resolve, names, world),
        Err(_) => page.refuse(),
    }
    page.go_out();
}
