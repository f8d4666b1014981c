//! Lists, of what can stand in one.

ghost use Rattle.std.specs.Prelude.{◌≡◌, map};
ghost use Rattle.wit_productions.specs.Production.{Production, Reads, Takes, commas, until, all};

use crate::cursor::Cursor;
use crate::fault::ReadError;
use std::alloc::Global;
use wit_tokens::Kind;

/// What can stand in a list.
pub trait Part<'a>: Sized + Drop {
    ghost use Rattle.wit_productions.specs.Production.{Production, Reads};

    /// Its tree.
    ghost Tree: { Type 0 };

    ghost production: { Production Tree };

    ghost tree: { Self → Tree };

    /// Takes one.
    fn parse(alloc: Global, tokens: &mut Cursor<'_, 'a>) -> Result<Self, ReadError>
        ensures { Reads tree result tokens.new (production.read tokens.old) };
}

/// As many as stand up to a closing sign, with commas between them and perhaps one more.
pub fn commas<'a, T: Part<'a>>(
    alloc: Global,
    shut: Kind,
    tokens: &mut Cursor<'_, 'a>,
) -> Result<Vec<T>, ReadError>
    requires { Takes T.production }
    ensures { Reads (λ v. map T.tree v.items) result tokens.new ((commas T.production shut).read tokens.old) }
{
    let mut found = Vec::new(alloc);
    while !tokens.eat(shut) {
        found.push(T::parse(alloc, tokens)?)?;
        if !tokens.eat(Kind::Comma) {
            return tokens.expect(shut).and(Ok(found));
        }
    }
    Ok(found)
}

/// As many as stand up to a closing sign.
pub fn until<'a, T: Part<'a>>(
    alloc: Global,
    shut: Kind,
    tokens: &mut Cursor<'_, 'a>,
) -> Result<Vec<T>, ReadError>
    requires { Takes T.production }
    ensures { Reads (λ v. map T.tree v.items) result tokens.new ((until T.production shut).read tokens.old) }
{
    let mut found = Vec::new(alloc);
    while !tokens.eat(shut) {
        found.push(T::parse(alloc, tokens)?)?;
    }
    Ok(found)
}

/// As many as stand up to the end.
pub fn all<'a, T: Part<'a>>(alloc: Global, tokens: &mut Cursor<'_, 'a>) -> Result<Vec<T>, ReadError>
    requires { Takes T.production }
    ensures { Reads (λ v. map T.tree v.items) result tokens.new ((all T.production).read tokens.old) }
{
    let mut found = Vec::new(alloc);
    while tokens.left() > 0 {
        found.push(T::parse(alloc, tokens)?)?;
    }
    Ok(found)
}
