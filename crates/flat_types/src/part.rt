//! What has a type, or may have one.

ghost use Rattle.std.specs.Prelude.{◌≡◌, Option, Some};
ghost use Rattle.wit_types.specs.declared.kind.«Type».{«Type» as Ref};

use wit_types::{Case, Field, Param, Type};

/// What has a type, or may have one: a field, a part of a tuple, a case, a parameter.
pub trait Part {
    ghost part: { Self → Option Ref };

    /// The type, if it has one.
    fn ty(&self) -> Option<Type>
        ensures { result ≡ part self.now };
}

impl Part for Field {
    ghost part = { λ f. Some f.ty };

    fn ty(&self) -> Option<Type> {
        Some(self.ty)
    }
}

impl Part for Param {
    ghost part = { λ p. Some p.ty };

    fn ty(&self) -> Option<Type> {
        Some(self.ty)
    }
}

impl Part for Case {
    ghost part = { λ c. c.ty };

    fn ty(&self) -> Option<Type> {
        self.ty
    }
}

impl Part for Type {
    ghost part = { λ t. Some t };

    fn ty(&self) -> Option<Type> {
        Some(*self)
    }
}

impl Part for Option<Type> {
    ghost part = { λ p. p };

    fn ty(&self) -> Option<Type> {
        *self
    }
}
