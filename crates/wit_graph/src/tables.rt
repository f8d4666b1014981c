//! What the packages of a graph hold.

ghost use Rattle.std.specs.Prelude.{◌≡◌, [], length};
ghost use Rattle.wit_graph.specs.Graph as spec;
ghost use Rattle.wit_graph.specs.Push as push;

use std::alloc::Global;
use wit_closures::Closures;
use wit_graph_parts::{Interfaces, Natures, Worlds};
use wit_plans::Sizes;
use wit_types::{Arena, Package, TypeDef};

/// What the packages of a graph hold, by ids.
#[derive(Drop)]
pub struct Tables {
    /// Types.
    pub types: Arena<TypeDef>,
    /// What is known of them.
    pub natures: Natures,
    /// Interfaces.
    pub interfaces: Interfaces,
    /// What each of them depends on.
    pub closures: Closures,
    /// Worlds.
    pub worlds: Worlds,
    /// Packages.
    pub packages: Arena<Package>,
}

/// Of no packages.
pub fn no_tables(alloc: Global) -> Tables
    ensures { result ≡ spec.nothing }
{
    Tables {
        types: Arena::new(alloc),
        natures: Natures::new(alloc),
        interfaces: Interfaces::new(alloc),
        closures: Closures::new(alloc),
        worlds: Worlds::new(alloc),
        packages: Arena::new(alloc),
    }
}

/// How many types, interfaces and worlds there are.
pub fn sizes(tables: &Tables) -> Sizes
    ensures { result ≡ spec.sizes (spec.items_of tables.now) }
{
    Sizes {
        types: tables.types.len(),
        interfaces: tables.interfaces.all().len(),
        worlds: tables.worlds.listed().len(),
    }
}

/// Takes back the last types, interfaces and worlds, so that so many are left at most; packages stay.
pub fn cut(tables: &mut Tables, so_many: Sizes)
    ensures { tables.new ≡ push.cut so_many tables.old }
{
    tables.types.truncate(so_many.types);
    tables.natures.truncate(so_many.types);
    tables.interfaces.truncate(so_many.interfaces);
    tables.closures.truncate(so_many.interfaces);
    tables.worlds.truncate(so_many.worlds);
}

/// How much a graph holds.
#[derive(Clone, Copy)]
pub struct Mark {
    /// Types, interfaces and worlds.
    pub sizes: Sizes,
    /// Packages.
    pub packages: usize,
    /// Their names.
    pub names: usize,
}
