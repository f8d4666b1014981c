//! From tokens to names of packages, and paths.

ghost use Rattle.std.specs.Prelude.{◌≡◌, option_map};
ghost use Rattle.wit_tokens.specs.Passed.wit_words-declared-token-Kind-TheVariants as kind;
ghost use Rattle.wit_productions.specs.NameGrammar as spec;
ghost use Rattle.wit_productions.specs.NameView as view;
ghost use Rattle.wit_productions.specs.Production.{Reads, optional};
ghost use Rattle.wit_productions.specs.Terminal.{version};

use crate::cursor::Cursor;
use crate::fault::ReadError;
use crate::names::{Id, PackageName, UsePath, Version};
use wit_tokens::Kind;

/// A version behind an `@`, if there is one.
#[tactic(auto, unfolding(crate::specs::Production::branch))]
fn at_version<'a>(tokens: &mut Cursor<'_, 'a>) -> Result<Option<Version<'a>>, ReadError>
    ensures { Reads (option_map view.version) result tokens.new ((optional kind.At version).read tokens.old) }
{
    if tokens.eat(Kind::At) {
        return Ok(Some(tokens.version()?));
    }
    Ok(None)
}

/// The name of a package.
#[tactic(auto, unfolding(crate::specs::NameGrammar::package_name, crate::specs::NameGrammar::package_behind))]
pub fn package_name<'a>(tokens: &mut Cursor<'_, 'a>) -> Result<PackageName<'a>, ReadError>
    ensures { Reads view.package_name result tokens.new (spec.package_name.read tokens.old) }
{
    let namespace = tokens.id()?;
    tokens.expect(Kind::Colon)?;
    let name = tokens.id()?;
    let version = at_version(tokens)?;
    Ok(PackageName {
        namespace,
        name,
        version,
    })
}

/// What stands behind the namespace of a path and a colon.
#[tactic(auto, unfolding(crate::specs::NameGrammar::path_behind))]
pub fn path_behind<'a>(
    namespace: Id<'a>,
    tokens: &mut Cursor<'_, 'a>,
) -> Result<UsePath<'a>, ReadError>
    ensures { Reads view.use_path result tokens.new ((spec.path_behind (view.id namespace.entry)).read tokens.old) }
{
    let package = tokens.id()?;
    tokens.expect(Kind::Slash)?;
    let name = tokens.id()?;
    let version = at_version(tokens)?;
    let id = PackageName {
        namespace,
        name: package,
        version,
    };
    Ok(UsePath::Package { id, name })
}

/// A path.
#[tactic(auto, unfolding(crate::specs::NameGrammar::use_path, crate::specs::Production::branch))]
pub fn use_path<'a>(tokens: &mut Cursor<'_, 'a>) -> Result<UsePath<'a>, ReadError>
    ensures { Reads view.use_path result tokens.new (spec.use_path.read tokens.old) }
{
    let name = tokens.id()?;
    if tokens.eat(Kind::Colon) {
        return path_behind(name, tokens);
    }
    Ok(UsePath::Id(name))
}

/// A path, and nothing behind it.
#[tactic(auto, unfolding(crate::specs::NameGrammar::whole_use_path))]
pub fn whole_use_path<'a>(tokens: &mut Cursor<'_, 'a>) -> Result<UsePath<'a>, ReadError>
    ensures { Reads view.use_path result tokens.new (spec.whole_use_path.read tokens.old) }
{
    let path = use_path(tokens)?;
    tokens.end()?;
    Ok(path)
}
