//! Ids.

ghost use Rattle.std.specs.Prelude.{◌≡◌};

use std::marker::{Model, PhantomData};

/// A place in a list of one sort, counted from 0. What the sort is says a tag.
#[derive_where(Clone, Copy, PartialEq, Eq, PartialOrd, Ord, Hash, Debug)]
pub struct Id<T> {
    index: usize,
    of: PhantomData<T>,
}

impl<T> Model for Id<T> {
    ghost use Rattle.std.specs.Prelude.{ℕ};

    ghost Value = { ℕ };

    ghost view = { λ i. i.index };

    ghost inverse = { λ n. record { index = n; of = record {} } };
}

impl<T> Id<T> {
    /// The id of a place.
    pub fn from_index(index: usize) -> Id<T>
        ensures { result ≡ index }
    {
        Id {
            index,
            of: PhantomData,
        }
    }

    /// The place.
    pub fn index(self) -> usize
        ensures { result ≡ self }
    {
        self.index
    }
}

/// Says that an id is a package's.
pub enum PackageTag {}

/// Says that an id is a world's.
pub enum WorldTag {}

/// Says that an id is an interface's.
pub enum InterfaceTag {}

/// Says that an id is a type's.
pub enum TypeTag {}

/// Names a package.
pub type PackageId = Id<PackageTag>;

/// Names a world.
pub type WorldId = Id<WorldTag>;

/// Names an interface.
pub type InterfaceId = Id<InterfaceTag>;

/// Names a type.
pub type TypeId = Id<TypeTag>;
