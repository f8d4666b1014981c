//! From tokens to the parts of a tree that stand in a list or in an item.

ghost use Rattle.std.specs.Prelude.{◌≡◌, option_map, map, List, length, true, false};
ghost use Rattle.wit_items.specs.ItemView as view;
ghost use Rattle.wit_items.specs.ItemGrammar as spec;
ghost use Rattle.wit_productions.specs.Production.{Reads, many, optional, some_commas, next_at};
ghost use Rattle.wit_productions.specs.Terminal.{id, version};
ghost use Rattle.wit_productions.specs.Passed.wit_words-Token.{Tok, plain};
ghost use Rattle.wit_productions.specs.TypeGrammar.{any_type};
ghost use Rattle.wit_productions.specs.TypeView.{type_tree};
ghost use Rattle.wit_productions.specs.Passed.wit_words-declared-token-Kind-TheVariants as kind;

use crate::items::{Attribute, Func, Gate, Gated, NamedFunc, Param, ToplevelUse, Use, UseName};
use std::alloc::Global;
use wit_productions::{
    Cursor, Id, Kind, Part, ReadError, Rule, Token, Type, Version, any_type, commas, fault_at,
    use_path,
};

// ---- attributes

/// What stands in front of the value of a gate's argument, up to the `=`.
#[tactic(auto, unfolding(crate::specs::ItemGrammar::argument))]
fn argument(name: &str, tokens: &mut Cursor<'_, '_>) -> Result<(), ReadError>
    ensures { Reads (λ x. x) result tokens.new ((spec.argument name.now).read tokens.old) }
{
    tokens.expect(Kind::LeftParenthesis)?;
    tokens.word(name)?;
    tokens.expect(Kind::Equals)
}

#[tactic(auto, using(crate::proofs::ItemParts::version_argument_reads))]
fn version_argument<'a>(tokens: &mut Cursor<'_, 'a>) -> Result<Version<'a>, ReadError>
    ensures { Reads view.version result tokens.new (spec.version_argument.read tokens.old) }
{
    argument("version", tokens)?;
    let version = tokens.version()?;
    tokens.expect(Kind::RightParenthesis).and(Ok(version))
}

#[tactic(auto, using(crate::proofs::ItemParts::feature_argument_reads))]
fn feature_argument<'a>(tokens: &mut Cursor<'_, 'a>) -> Result<Id<'a>, ReadError>
    ensures { Reads view.id result tokens.new (spec.feature_argument.read tokens.old) }
{
    argument("feature", tokens)?;
    let feature = tokens.id()?;
    tokens.expect(Kind::RightParenthesis).and(Ok(feature))
}

/// What stands behind the `@` of an attribute.
#[tactic(auto, unfolding(crate::specs::ItemGrammar::gate))]
fn gate<'a>(tokens: &mut Cursor<'_, 'a>) -> Result<Gate<'a>, ReadError>
    ensures { Reads view.gate result tokens.new (spec.gate.read tokens.old) }
{
    let left = tokens.left();
    let Some((Token::Id(name), _)) = tokens.next() else {
        return Err(fault_at(Rule::Unexpected, left));
    };
    match name {
        "since" => Ok(Gate::Since(version_argument(tokens)?)),
        "unstable" => Ok(Gate::Unstable(feature_argument(tokens)?)),
        "deprecated" => Ok(Gate::Deprecated(version_argument(tokens)?)),
        _ => Err(fault_at(Rule::Unexpected, left)),
    }
}

/// An attribute behind its `@`.
#[tactic(auto, unfolding(crate::specs::ItemGrammar::attribute, wit_productions::specs::Production::located))]
pub fn attribute<'a>(tokens: &mut Cursor<'_, 'a>) -> Result<Attribute<'a>, ReadError>
    ensures { Reads view.attribute result tokens.new (spec.attribute.read tokens.old) }
{
    let start = tokens.here();
    let gate = gate(tokens)?;
    let span = tokens.span_from(start);
    Ok(Attribute { gate, span })
}

/// As many attributes as stand there.
pub fn attributes<'a>(
    alloc: Global,
    tokens: &mut Cursor<'_, 'a>,
) -> Result<Vec<Attribute<'a>>, ReadError>
    ensures { Reads (λ v. map view.attribute v.items) result tokens.new ((many kind.At spec.attribute).read tokens.old) }
{
    let mut found = Vec::new(alloc);
    while tokens.eat(Kind::At) {
        found.push(attribute(tokens)?)?;
    }
    Ok(found)
}

impl<'a, T: Part<'a>> Part<'a> for Gated<'a, T> {
    ghost use Rattle.wit_items.specs.ItemTree.{GatedTree};
    ghost use Rattle.wit_items.specs.ItemView as view;
    ghost use Rattle.wit_items.specs.ItemGrammar as spec;

    ghost Tree = { GatedTree T.Tree };

    ghost production = { spec.gated T.production };

    ghost tree = { view.gated T.tree };

    #[tactic(auto, unfolding(crate::specs::ItemGrammar::gated, wit_productions::specs::Production::documented, wit_productions::specs::Production::located))]
    fn parse(alloc: Global, tokens: &mut Cursor<'_, 'a>) -> Result<Gated<'a, T>, ReadError> {
        let docs = tokens.docs(alloc)?;
        let attributes = attributes(alloc, tokens)?;
        let start = tokens.here();
        let item = T::parse(alloc, tokens)?;
        let span = tokens.span_from(start);
        Ok(Gated {
            docs,
            attributes,
            item,
            span,
        })
    }
}

// ---- use

/// Another name behind `as`, if there is one.
#[tactic(auto, unfolding(wit_productions::specs::Production::branch))]
fn as_id<'a>(tokens: &mut Cursor<'_, 'a>) -> Result<Option<Id<'a>>, ReadError>
    ensures { Reads (option_map view.id) result tokens.new ((optional kind.As id).read tokens.old) }
{
    if tokens.eat(Kind::As) {
        return Ok(Some(tokens.id()?));
    }
    Ok(None)
}

impl<'a> Part<'a> for UseName<'a> {
    ghost use Rattle.wit_items.specs.ItemTree.{UseNameTree};
    ghost use Rattle.wit_items.specs.ItemView as view;
    ghost use Rattle.wit_items.specs.ItemGrammar as spec;

    ghost Tree = { UseNameTree };

    ghost production = { spec.use_name };

    ghost tree = { view.use_name };

    #[tactic(auto, unfolding(crate::specs::ItemGrammar::use_name))]
    fn parse(_alloc: Global, tokens: &mut Cursor<'_, 'a>) -> Result<UseName<'a>, ReadError> {
        let name = tokens.id()?;
        let as_ = as_id(tokens)?;
        Ok(UseName { name, as_ })
    }
}

/// At least one name that is used, with commas between them, up to a closing brace.
#[tactic(auto, unfolding(wit_productions::specs::Production::branch), using(crate::proofs::ItemLaws::use_name_takes))]
fn use_names<'a>(alloc: Global, tokens: &mut Cursor<'_, 'a>) -> Result<Vec<UseName<'a>>, ReadError>
    ensures { Reads (λ v. map view.use_name v.items) result tokens.new ((some_commas spec.use_name kind.RightBrace).read tokens.old) }
{
    let first = UseName::parse(alloc, tokens)?;
    let mut names = Vec::new(alloc);
    names.push(first)?;
    if !tokens.eat(Kind::Comma) {
        return tokens.expect(Kind::RightBrace).and(Ok(names));
    }
    let mut more = commas::<UseName<'a>>(alloc, Kind::RightBrace, tokens)?;
    names.append(&mut more)?;
    Ok(names)
}

/// What stands behind `use` in an interface or a world.
#[tactic(auto, unfolding(crate::specs::ItemGrammar::use_behind))]
pub fn use_behind<'a>(alloc: Global, tokens: &mut Cursor<'_, 'a>) -> Result<Use<'a>, ReadError>
    ensures { Reads view.uses result tokens.new (spec.use_behind.read tokens.old) }
{
    let from = use_path(tokens)?;
    tokens.expect(Kind::Dot)?;
    tokens.expect(Kind::LeftBrace)?;
    let names = use_names(alloc, tokens)?;
    tokens.expect(Kind::Semicolon).and(Ok(Use { from, names }))
}

/// What stands behind `use` at the top of a file or package.
#[tactic(auto, unfolding(crate::specs::ItemGrammar::toplevel_use_behind))]
pub fn toplevel_use_behind<'a>(tokens: &mut Cursor<'_, 'a>) -> Result<ToplevelUse<'a>, ReadError>
    ensures { Reads view.toplevel_use result tokens.new (spec.toplevel_use_behind.read tokens.old) }
{
    let item = use_path(tokens)?;
    let as_ = as_id(tokens)?;
    tokens
        .expect(Kind::Semicolon)
        .and(Ok(ToplevelUse { item, as_ }))
}

// ---- functions

impl<'a> Part<'a> for Param<'a> {
    ghost use Rattle.wit_items.specs.ItemTree.{ParamTree};
    ghost use Rattle.wit_items.specs.ItemView as view;
    ghost use Rattle.wit_items.specs.ItemGrammar as spec;

    ghost Tree = { ParamTree };

    ghost production = { spec.param };

    ghost tree = { view.param };

    #[tactic(auto, unfolding(crate::specs::ItemGrammar::param))]
    fn parse(alloc: Global, tokens: &mut Cursor<'_, 'a>) -> Result<Param<'a>, ReadError> {
        let name = tokens.id()?;
        tokens.expect(Kind::Colon)?;
        let ty = any_type(alloc, tokens)?;
        Ok(Param { name, ty })
    }
}

/// Parameters in parentheses.
#[tactic(auto, unfolding(crate::specs::ItemGrammar::params), using(crate::proofs::ItemLaws::param_takes))]
pub fn params<'a>(alloc: Global, tokens: &mut Cursor<'_, 'a>) -> Result<Vec<Param<'a>>, ReadError>
    ensures { Reads (λ v. map view.param v.items) result tokens.new (spec.params.read tokens.old) }
{
    tokens.expect(Kind::LeftParenthesis)?;
    commas::<Param<'a>>(alloc, Kind::RightParenthesis, tokens)
}

/// A type behind an arrow, if there is one.
#[tactic(auto, unfolding(wit_productions::specs::Production::branch))]
pub fn arrow<'a>(alloc: Global, tokens: &mut Cursor<'_, 'a>) -> Result<Option<Type<'a>>, ReadError>
    ensures { Reads (option_map type_tree) result tokens.new ((optional kind.RightArrow any_type).read tokens.old) }
{
    if tokens.eat(Kind::RightArrow) {
        return Ok(Some(any_type(alloc, tokens)?));
    }
    Ok(None)
}

/// What stands behind `func`.
#[tactic(auto, unfolding(crate::specs::ItemGrammar::func_behind))]
pub fn func_behind<'a>(
    alloc: Global,
    async_: bool,
    tokens: &mut Cursor<'_, 'a>,
) -> Result<Func<'a>, ReadError>
    ensures { Reads view.func result tokens.new ((spec.func_behind async_).read tokens.old) }
{
    let params = params(alloc, tokens)?;
    let result = arrow(alloc, tokens)?;
    Ok(Func {
        async_,
        params,
        result,
    })
}

#[tactic(auto, unfolding(crate::specs::ItemGrammar::func, wit_productions::specs::Production::branch))]
fn func<'a>(alloc: Global, tokens: &mut Cursor<'_, 'a>) -> Result<Func<'a>, ReadError>
    ensures { Reads view.func result tokens.new (spec.func.read tokens.old) }
{
    let async_ = tokens.eat(Kind::Async);
    tokens.expect(Kind::Func)?;
    func_behind(alloc, async_, tokens)
}

/// What stands behind a function's name and a colon.
#[tactic(auto, unfolding(crate::specs::ItemGrammar::named_func_behind))]
pub fn named_func_behind<'a>(
    alloc: Global,
    name: Id<'a>,
    tokens: &mut Cursor<'_, 'a>,
) -> Result<NamedFunc<'a>, ReadError>
    ensures { Reads view.named_func result tokens.new ((spec.named_func_behind (view.id name.entry)).read tokens.old) }
{
    let func = func(alloc, tokens)?;
    tokens
        .expect(Kind::Semicolon)
        .and(Ok(NamedFunc { name, func }))
}
