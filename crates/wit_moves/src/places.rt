//! Where the values of an arena stand in another.

ghost use Rattle.std.specs.Prelude.{◌≡◌, ◌++◌, ◌∷◌, [], None, Some, OnErr, OnOk, length};
ghost use Rattle.wit_moves.specs.Moved as spec;

use std::alloc::{AllocError, Global};
use std::marker::{Model, PhantomData};
use wit_features::{Id, InterfaceTag, Type, TypeTag, WorldTag};

/// Where the values of an arena stand in another, by their ids; one that is left out stands nowhere.
#[derive(Drop)]
pub struct Places<T> {
    places: Vec<Option<usize>>,
    of: PhantomData<T>,
}

/// Where types stand.
pub type TypePlaces = Places<TypeTag>;

/// Where interfaces stand.
pub type InterfacePlaces = Places<InterfaceTag>;

/// Where worlds stand.
pub type WorldPlaces = Places<WorldTag>;

impl<T> Model for Places<T> {
    ghost use Rattle.wit_moves.specs.Moved.{Places};

    ghost Value = { Places };

    ghost view = { λ p. p.places.items };
}

impl<T> Places<T> {
    /// No values.
    pub fn new(alloc: Global) -> Places<T>
        ensures { result ≡ [] }
    {
        Places {
            places: Vec::new(alloc),
            of: PhantomData,
        }
    }

    /// Says where the next one stands. Where memory is wanting nothing changes.
    pub fn push(&mut self, place: Id<T>) -> Result<(), AllocError>
        ensures ok { OnOk result (self.new ≡ self.old ++ Some place ∷ []) }
        ensures err { OnErr result (self.new ≡ self.old) }
    {
        self.places.push(Some(place.index()))?;
        Ok(())
    }

    /// Leaves the next one out. Where memory is wanting nothing changes.
    pub fn leave_out(&mut self) -> Result<(), AllocError>
        ensures ok { OnOk result (self.new ≡ self.old ++ None ∷ []) }
        ensures err { OnErr result (self.new ≡ self.old) }
    {
        self.places.push(None)?;
        Ok(())
    }

    /// How many are known.
    pub fn len(&self) -> usize
        ensures { result ≡ length self.now }
    {
        self.places.len()
    }

    /// Where the one of a number stands.
    fn place(&self, index: usize) -> Option<usize>
        ensures { result ≡ spec.place_of self.now index }
    {
        self.places.get(index).copied().flatten()
    }

    /// Where one stands.
    pub fn get(&self, id: Id<T>) -> Option<Id<T>>
        ensures { result ≡ spec.place_of self.now id }
    {
        match self.place(id.index()) {
            Some(place) => Some(Id::from_index(place)),
            None => None,
        }
    }

    /// Where one stands, or its id as it is where it is left out.
    pub fn to(&self, id: Id<T>) -> Id<T>
        ensures { result ≡ spec.to self.now id }
    {
        let index = id.index();
        Id::from_index(self.place(index).unwrap_or(index))
    }

    /// Whether one stands somewhere.
    pub fn has_id(&self, id: Id<T>) -> bool
        ensures { result ≡ spec.is_placed self.now id }
    {
        self.place(id.index()).is_some()
    }
}

impl Places<TypeTag> {
    /// Whether a type that is used stands somewhere; those without an id do.
    pub fn has(&self, ty: &Type) -> bool
        ensures { result ≡ spec.is_ref_placed self.now ty.now }
    {
        match ty {
            Type::Id(id) => self.has_id(*id),
            _ => true,
        }
    }

    /// The same of one that may be left out.
    pub fn has_part(&self, part: &Option<Type>) -> bool
        ensures { result ≡ spec.is_part_placed self.now part.now }
    {
        match part {
            None => true,
            Some(ty) => self.has(ty),
        }
    }
}
