//! Where types go.

ghost use Rattle.std.specs.Prelude.{◌≡◌, option_map};
ghost use Rattle.wit_moves.specs.Moved as spec;

use crate::places::TypePlaces;
use wit_features::{Type, TypeId};

/// Says where types go.
pub trait TypeMap {
    ghost use Rattle.std.specs.Prelude.{ℕ};

    ghost goes: { Self → ℕ → ℕ };

    /// Where a type goes; one of which nothing is said stays where it is.
    fn moved_id(&self, id: TypeId) -> TypeId
        ensures { result ≡ goes self.now id };
}

impl TypeMap for TypePlaces {
    ghost use Rattle.wit_moves.specs.Moved.{to};

    ghost goes = { to };

    fn moved_id(&self, id: TypeId) -> TypeId {
        self.to(id)
    }
}

/// A type where it goes.
pub fn moved_type<M: TypeMap>(ids: &M, ty: Type) -> Type
    ensures { result ≡ spec.moved_ref (M.goes ids.now) ty }
{
    match ty {
        Type::Id(id) => Type::Id(ids.moved_id(id)),
        other => other,
    }
}

/// The same of one that may be left out.
pub fn moved_part<M: TypeMap>(ids: &M, part: Option<Type>) -> Option<Type>
    ensures { result ≡ option_map (spec.moved_ref (M.goes ids.now)) part }
{
    match part {
        None => None,
        Some(ty) => Some(moved_type(ids, ty)),
    }
}
