//! Where paths lead.

ghost use Rattle.std.specs.Prelude.{◌≡◌, ℕ, ◌+◌, ◌<◌, ◌^◌, length};
ghost use Rattle.wit_scopes.specs.View as scope_view;
ghost use Rattle.wit_types.specs.declared.«package».AstItem.TheVariants as ids;
ghost use Rattle.wit_worlds.specs.Paths as spec;

use name_places::FirstPlaces;
use wit_foreign::{Asked, ForeignItems, Known};
use wit_scopes::Target;
use wit_types::{AstItem, InterfaceId, WorldId};

/// Where the paths of a world lead: to interfaces and worlds of the package by their names, and to those of other packages.
#[derive(Clone, Copy)]
pub struct Paths<'s, 'a> {
    /// The interfaces of the package.
    pub interfaces: &'s Known<'a>,
    /// The id of the first of them.
    pub first_interface: usize,
    /// The worlds of the package so far.
    pub worlds: &'s FirstPlaces<'a>,
    /// The id of the first of them.
    pub first_world: usize,
    /// What is asked of other packages.
    pub items: &'s ForeignItems<'a>,
}

/// The id of an interface.
fn interface_id(item: AstItem) -> InterfaceId
    requires { (k : ℕ) × (item ≡ ids.Interface k) }
    ensures { item ≡ ids.Interface result }
{
    match item {
        AstItem::Interface(id) => id,
        AstItem::World(_) => unreachable!(),
    }
}

/// The id of a world.
fn world_id(item: AstItem) -> WorldId
    requires { (k : ℕ) × (item ≡ ids.World k) }
    ensures { item ≡ ids.World result }
{
    match item {
        AstItem::World(id) => id,
        AstItem::Interface(_) => unreachable!(),
    }
}

impl<'s, 'a> Paths<'s, 'a> {
    ghost use Rattle.wit_worlds.specs.PathView as seen;

    /// The interface that a path names.
    pub fn interface(&self, path: &Target<'a>) -> InterfaceId
        requires there { spec.IsInterfaceThere (seen.paths self.now) (scope_view.target path.now) }
        requires sorts { spec.AreSorts (seen.paths self.now).items }
        requires room { (seen.paths self.now).first_interface + length (seen.paths self.now).interfaces < 2 ^ 64 }
        ensures { spec.IsInterfaceId (seen.paths self.now) (scope_view.target path.now) result }
    {
        match path {
            Target::Own(name) => match self.interfaces.place(name.name) {
                Some(place) => InterfaceId::from_index(self.first_interface + place),
                None => unreachable!(),
            },
            Target::Foreign { package, name } => {
                match self.items.get(package, name, Asked::Interface) {
                    Some(item) => interface_id(item),
                    None => unreachable!(),
                }
            }
        }
    }

    /// The world that a path names.
    pub fn world(&self, path: &Target<'a>) -> WorldId
        requires there { spec.IsWorldThere (seen.paths self.now) (scope_view.target path.now) }
        requires sorts { spec.AreSorts (seen.paths self.now).items }
        requires room { (seen.paths self.now).first_world + length (seen.paths self.now).worlds < 2 ^ 64 }
        ensures { spec.IsWorldId (seen.paths self.now) (scope_view.target path.now) result }
    {
        match path {
            Target::Own(name) => match self.worlds.first(name.name) {
                Some(place) => WorldId::from_index(self.first_world + place),
                None => unreachable!(),
            },
            Target::Foreign { package, name } => {
                match self.items.get(package, name, Asked::World) {
                    Some(item) => world_id(item),
                    None => unreachable!(),
                }
            }
        }
    }
}
