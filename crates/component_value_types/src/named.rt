//! What has a name in front of it, and names alone.

ghost use Rattle.std.specs.Prelude.{◌≡◌, map};
ghost use Rattle.binary_grammar.specs.Fault.{Gives};
ghost use Rattle.binary_grammar.specs.Syntax.{meaning};
ghost use Rattle.component_value_types.specs.Combinators.{labels};
ghost use Rattle.component_value_types.specs.Names.{label_value};

use crate::distinct::{HasName, distinct_vec_of};
use crate::scope::Scope;
use binary_grammar::{Part, ReadError, Reader, WriteFault, put_name};

/// What has a name in front of it.
#[derive(Clone, Copy, Debug, PartialEq, Eq, Drop)]
pub struct Named<'a, T> {
    /// The name.
    pub name: &'a str,
    /// What stands behind it.
    pub item: T,
}

/// A name alone.
#[derive(Clone, Copy, Debug, PartialEq, Eq)]
pub struct Label<'a> {
    /// The name.
    pub name: &'a str,
}

impl<'a, T> HasName<'a> for Named<'a, T> {
    ghost name = { λ x. x.name.now };

    fn name(&self) -> &'a str {
        self.name
    }
}

impl<'a> HasName<'a> for Label<'a> {
    ghost name = { λ x. x.name.now };

    fn name(&self) -> &'a str {
        self.name
    }
}

impl<'a, T: Part<'a>> Part<'a> for Named<'a, T> {
    type Context = T::Context;

    ghost use Rattle.component_value_types.specs.Combinators as spec;
    ghost use Rattle.component_value_types.specs.Names.{named_value};

    ghost Value = { spec.NamedValue T.Value };

    ghost Known = { T.Known };

    ghost syntax = { spec.named T.syntax };

    ghost known = { T.known };

    ghost value = { named_value T.value };

    fn read(there: T::Context, from: &mut Reader<'a>) -> Result<Named<'a, T>, ReadError> {
        let name = from.name()?;
        let item = T::read(there, from)?;
        Ok(Named { name, item })
    }

    fn put(&self, out: &mut Vec<u8>) -> Result<(), WriteFault> {
        put_name(out, self.name)?;
        self.item.put(out)?;
        Ok(())
    }
}

impl<'a> Part<'a> for Label<'a> {
    type Context = Scope;

    ghost use Rattle.std.specs.Prelude.{ℕ, List};
    ghost use Rattle.binary_grammar.specs.Syntax.{some_name};
    ghost use Rattle.component_value_types.specs.declared.scope.Scope.{Scope};
    ghost use Rattle.component_value_types.specs.Names.{label_value};

    ghost Value = { List ℕ };

    ghost Known = { Scope };

    ghost syntax = { some_name };

    ghost known = { λ s. s };

    ghost value = { label_value };

    fn read(_there: Scope, from: &mut Reader<'a>) -> Result<Label<'a>, ReadError> {
        let name = from.name()?;
        Ok(Label { name })
    }

    fn put(&self, out: &mut Vec<u8>) -> Result<(), WriteFault> {
        put_name(out, self.name)
    }
}

/// A vector of names, all distinct; else `Duplicate` is broken where it begins.
pub fn labels_of<'a>(there: Scope, from: &mut Reader<'a>) -> Result<Vec<Label<'a>>, ReadError>
    ensures gives { Gives (λ x. (map label_value x.items, from.new.left)) result ((meaning labels there).read from.old.left) }
    ensures end { from.new.end ≡ from.old.end }
{
    distinct_vec_of(there, from)
}
