//! From where packages are looked at.

use indexmap::IndexMap;
use wit_types::{
    Arena, ForeignItems, Id, Interface, Package, PackageId, PackageName, Stored, TypeDef,
    TypeOwner, World,
};
use wit_words::SourceMap;

/// By what an interface or a world of another package is known as one.
#[derive(Clone, Copy)]
pub enum Packages<'p> {
    /// By what a package asks of others that isn't looked up yet.
    Asked(&'p IndexMap<PackageName, ForeignItems>),
    /// By the packages of a graph.
    Known {
        /// The packages.
        packages: &'p Arena<Package>,
        /// The one of which names go alone, if there is one.
        own: Option<PackageId>,
    },
}

/// From where packages are looked at.
#[derive(Clone, Copy)]
pub struct View<'p> {
    /// The types.
    pub types: &'p Arena<TypeDef>,
    /// The interfaces.
    pub interfaces: &'p Arena<Interface>,
    /// The worlds.
    pub worlds: &'p Arena<World>,
    /// By what those of other packages are known.
    pub packages: &'p Packages<'p>,
    /// The texts.
    pub map: &'p SourceMap,
    /// The interface or world whose types go by their names alone.
    pub scope: TypeOwner,
    /// Whether places are written.
    pub places: bool,
}

impl<'p> View<'p> {
    /// The same from within an interface or a world.
    pub fn within(&self, scope: TypeOwner) -> View<'p> {
        let types = self.types;
        let interfaces = self.interfaces;
        let worlds = self.worlds;
        let packages = self.packages;
        let map = self.map;
        let places = self.places;
        View {
            types,
            interfaces,
            worlds,
            packages,
            map,
            scope,
            places,
        }
    }
}

/// What stands under an id, if something does.
pub fn under<T: Stored>(arena: &Arena<T>, id: Id<T::Tag>) -> Option<&T> {
    let place = id.index();
    let count = arena.len();
    if count <= place {
        return None;
    }
    Some(arena.get(Id::from_index(place)))
}
