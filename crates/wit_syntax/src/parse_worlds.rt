//! From tokens to worlds.

ghost use Rattle.std.specs.Prelude.{◌≡◌, map, List, length};
ghost use Rattle.wit_syntax.specs.AstView as view;
ghost use Rattle.wit_syntax.specs.FileGrammar as spec;
ghost use Rattle.wit_productions.specs.Production.{Reads, next_at};
ghost use Rattle.wit_productions.specs.Passed.wit_words-Token.{Tok, plain};

use crate::ast::{ExternKind, Include, IncludeName, World, WorldItem};
use std::alloc::Global;
use wit_items::{
    Gated, Interface, NamedFunc, func_behind, interface_items, type_def_behind, use_behind,
};
use wit_productions::{
    Cursor, Id, Kind, Part, ReadError, Rule, Token, UsePath, commas, fault_at, path_behind, until,
    use_path,
};

/// A function that is imported or exported, behind its name and `func`.
#[tactic(auto, unfolding(crate::specs::FileGrammar::extern_func))]
fn extern_func<'a>(
    alloc: Global,
    name: Id<'a>,
    async_: bool,
    tokens: &mut Cursor<'_, 'a>,
) -> Result<ExternKind<'a>, ReadError>
    ensures { Reads view.extern_kind result tokens.new ((spec.extern_func (view.id name.entry) async_).read tokens.old) }
{
    let func = func_behind(alloc, async_, tokens)?;
    tokens
        .expect(Kind::Semicolon)
        .and(Ok(ExternKind::Func(NamedFunc { name, func })))
}

/// What is imported or exported, behind a name and a colon.
#[tactic(auto, unfolding(crate::specs::FileGrammar::extern_behind, wit_productions::specs::Production::branch))]
fn extern_behind<'a>(
    alloc: Global,
    name: Id<'a>,
    tokens: &mut Cursor<'_, 'a>,
) -> Result<ExternKind<'a>, ReadError>
    ensures { Reads view.extern_kind result tokens.new ((spec.extern_behind (view.id name.entry)).read tokens.old) }
{
    if tokens.eat(Kind::Interface) {
        let items = interface_items(alloc, tokens)?;
        return Ok(ExternKind::Interface(Interface { name, items }));
    }
    if tokens.eat(Kind::Async) {
        tokens.expect(Kind::Func)?;
        return extern_func(alloc, name, true, tokens);
    }
    if tokens.eat(Kind::Func) {
        return extern_func(alloc, name, false, tokens);
    }
    let path = path_behind(name, tokens)?;
    tokens
        .expect(Kind::Semicolon)
        .and(Ok(ExternKind::Path(path)))
}

/// What stands behind `import` or `export`.
#[tactic(auto, unfolding(crate::specs::FileGrammar::extern_item, wit_productions::specs::Production::branch))]
fn extern_item<'a>(alloc: Global, tokens: &mut Cursor<'_, 'a>) -> Result<ExternKind<'a>, ReadError>
    ensures { Reads view.extern_kind result tokens.new (spec.extern_item.read tokens.old) }
{
    let name = tokens.id()?;
    if tokens.eat(Kind::Colon) {
        return extern_behind(alloc, name, tokens);
    }
    tokens
        .expect(Kind::Semicolon)
        .and(Ok(ExternKind::Path(UsePath::Id(name))))
}

/// An item of a world behind its keyword, before which `left` tokens were left.
fn world_item_behind<'a>(
    alloc: Global,
    keyword: Kind,
    left: usize,
    tokens: &mut Cursor<'_, 'a>,
) -> Result<WorldItem<'a>, ReadError>
    ensures { (whole : List Tok) → length whole ≡ left → Reads view.world_item result tokens.new (next_at whole (spec.world_item_at (plain keyword)) tokens.old) }
{
    match keyword {
        Kind::Import => Ok(WorldItem::Import(extern_item(alloc, tokens)?)),
        Kind::Export => Ok(WorldItem::Export(extern_item(alloc, tokens)?)),
        Kind::Use => Ok(WorldItem::Use(use_behind(alloc, tokens)?)),
        Kind::Include => Ok(WorldItem::Include(include_behind(alloc, tokens)?)),
        _ => Ok(WorldItem::TypeDef(type_def_behind(alloc, keyword, left, tokens)?)),
    }
}

impl<'a> Part<'a> for WorldItem<'a> {
    ghost use Rattle.wit_syntax.specs.Ast.{WorldItemTree};
    ghost use Rattle.wit_syntax.specs.AstView as view;
    ghost use Rattle.wit_syntax.specs.FileGrammar as spec;

    ghost Tree = { WorldItemTree };

    ghost production = { spec.world_item };

    ghost tree = { view.world_item };

    #[tactic(auto, unfolding(crate::specs::FileGrammar::world_item))]
    fn parse(alloc: Global, tokens: &mut Cursor<'_, 'a>) -> Result<WorldItem<'a>, ReadError> {
        let left = tokens.left();
        let Some((Token::Plain(keyword), _)) = tokens.next() else {
            return Err(fault_at(Rule::Unexpected, left));
        };
        world_item_behind(alloc, keyword, left, tokens)
    }
}

/// What stands behind `world`.
#[tactic(auto, unfolding(crate::specs::FileGrammar::world_behind), using(crate::proofs::FileLaws::world_item_takes))]
pub fn world_behind<'a>(alloc: Global, tokens: &mut Cursor<'_, 'a>) -> Result<World<'a>, ReadError>
    ensures { Reads view.world result tokens.new (spec.world_behind.read tokens.old) }
{
    let name = tokens.id()?;
    tokens.expect(Kind::LeftBrace)?;
    let items = until::<Gated<'a, WorldItem<'a>>>(alloc, Kind::RightBrace, tokens)?;
    Ok(World { name, items })
}

impl<'a> Part<'a> for IncludeName<'a> {
    ghost use Rattle.wit_syntax.specs.Ast.{IncludeNameTree};
    ghost use Rattle.wit_syntax.specs.AstView as view;
    ghost use Rattle.wit_syntax.specs.FileGrammar as spec;

    ghost Tree = { IncludeNameTree };

    ghost production = { spec.include_name };

    ghost tree = { view.include_name };

    #[tactic(auto, unfolding(crate::specs::FileGrammar::include_name))]
    fn parse(_alloc: Global, tokens: &mut Cursor<'_, 'a>) -> Result<IncludeName<'a>, ReadError> {
        let name = tokens.id()?;
        tokens.expect(Kind::As)?;
        let as_ = tokens.id()?;
        Ok(IncludeName { name, as_ })
    }
}

/// The names that an `include` replaces, up to its end.
#[tactic(auto, unfolding(crate::specs::FileGrammar::include_names, wit_productions::specs::Production::branch), using(crate::proofs::FileLaws::include_name_takes))]
fn include_names<'a>(
    alloc: Global,
    tokens: &mut Cursor<'_, 'a>,
) -> Result<Vec<IncludeName<'a>>, ReadError>
    ensures { Reads (λ v. map view.include_name v.items) result tokens.new (spec.include_names.read tokens.old) }
{
    if tokens.eat(Kind::With) {
        tokens.expect(Kind::LeftBrace)?;
        let names = commas::<IncludeName<'a>>(alloc, Kind::RightBrace, tokens)?;
        tokens.eat(Kind::Semicolon);
        return Ok(names);
    }
    tokens.expect(Kind::Semicolon).and(Ok(Vec::new(alloc)))
}

/// What stands behind `include`.
#[tactic(auto, using(crate::proofs::FileParts::include_reads))]
pub fn include_behind<'a>(
    alloc: Global,
    tokens: &mut Cursor<'_, 'a>,
) -> Result<Include<'a>, ReadError>
    ensures { Reads view.include result tokens.new (spec.include_behind.read tokens.old) }
{
    let from = use_path(tokens)?;
    let names = include_names(alloc, tokens)?;
    Ok(Include { from, names })
}
