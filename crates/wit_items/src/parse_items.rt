//! From tokens to definitions of types and interfaces.

ghost use Rattle.std.specs.Prelude.{◌≡◌, option_map, map, List, length};
ghost use Rattle.wit_items.specs.ItemView as view;
ghost use Rattle.wit_items.specs.ItemGrammar as spec;
ghost use Rattle.wit_productions.specs.Production.{Reads, Takes, next_at, optional};
ghost use Rattle.wit_productions.specs.Passed.wit_words-Token.{Tok, plain};
ghost use Rattle.wit_productions.specs.TypeView.{type_tree};
ghost use Rattle.wit_productions.specs.Passed.wit_words-declared-token-Kind-TheVariants as kind;

use crate::items::{
    Case, EnumCase, Field, Flag, Gated, Interface, InterfaceItem, Param, ResourceFunc, TypeDef,
    TypeDefKind,
};
use crate::parse::{arrow, named_func_behind, params, use_behind};
use std::alloc::Global;
use wit_productions::{
    Cursor, Id, Kind, Part, ReadError, Rule, Token, Type, any_type, commas, fault_at, until,
};

// ---- definitions of types

#[tactic(auto, unfolding(crate::specs::ItemGrammar::alias_behind))]
fn alias_behind<'a>(alloc: Global, tokens: &mut Cursor<'_, 'a>) -> Result<TypeDef<'a>, ReadError>
    ensures { Reads view.type_def result tokens.new (spec.alias_behind.read tokens.old) }
{
    let name = tokens.id()?;
    tokens.expect(Kind::Equals)?;
    let ty = any_type(alloc, tokens)?;
    let kind = TypeDefKind::Alias(ty);
    tokens
        .expect(Kind::Semicolon)
        .and(Ok(TypeDef { name, kind }))
}

impl<'a> Part<'a> for Field<'a> {
    ghost use Rattle.wit_items.specs.ItemTree.{FieldTree};
    ghost use Rattle.wit_items.specs.ItemView as view;
    ghost use Rattle.wit_items.specs.ItemGrammar as spec;

    ghost Tree = { FieldTree };

    ghost production = { spec.field };

    ghost tree = { view.field };

    #[tactic(auto, unfolding(crate::specs::ItemGrammar::field, wit_productions::specs::Production::documented))]
    fn parse(alloc: Global, tokens: &mut Cursor<'_, 'a>) -> Result<Field<'a>, ReadError> {
        let docs = tokens.docs(alloc)?;
        let Param { name, ty } = Param::parse(alloc, tokens)?;
        Ok(Field { docs, name, ty })
    }
}

impl<'a> Part<'a> for Flag<'a> {
    ghost use Rattle.wit_items.specs.ItemTree.{LabelTree};
    ghost use Rattle.wit_items.specs.ItemView as view;
    ghost use Rattle.wit_items.specs.ItemGrammar as spec;

    ghost Tree = { LabelTree };

    ghost production = { spec.label };

    ghost tree = { view.flag };

    #[tactic(auto, unfolding(crate::specs::ItemGrammar::label, wit_productions::specs::Production::documented))]
    fn parse(alloc: Global, tokens: &mut Cursor<'_, 'a>) -> Result<Flag<'a>, ReadError> {
        let docs = tokens.docs(alloc)?;
        let name = tokens.id()?;
        Ok(Flag { docs, name })
    }
}

impl<'a> Part<'a> for EnumCase<'a> {
    ghost use Rattle.wit_items.specs.ItemTree.{LabelTree};
    ghost use Rattle.wit_items.specs.ItemView as view;
    ghost use Rattle.wit_items.specs.ItemGrammar as spec;

    ghost Tree = { LabelTree };

    ghost production = { spec.label };

    ghost tree = { view.enum_case };

    #[tactic(auto, unfolding(crate::specs::ItemGrammar::label, wit_productions::specs::Production::documented))]
    fn parse(alloc: Global, tokens: &mut Cursor<'_, 'a>) -> Result<EnumCase<'a>, ReadError> {
        let docs = tokens.docs(alloc)?;
        let name = tokens.id()?;
        Ok(EnumCase { docs, name })
    }
}

/// The type of what a case carries, in parentheses, if it carries something.
#[tactic(auto, unfolding(wit_productions::specs::Production::branch))]
fn carried<'a>(alloc: Global, tokens: &mut Cursor<'_, 'a>) -> Result<Option<Type<'a>>, ReadError>
    ensures { Reads (option_map type_tree) result tokens.new ((optional kind.LeftParenthesis spec.carried).read tokens.old) }
{
    if tokens.eat(Kind::LeftParenthesis) {
        let ty = any_type(alloc, tokens)?;
        return tokens.expect(Kind::RightParenthesis).and(Ok(Some(ty)));
    }
    Ok(None)
}

impl<'a> Part<'a> for Case<'a> {
    ghost use Rattle.wit_items.specs.ItemTree.{CaseTree};
    ghost use Rattle.wit_items.specs.ItemView as view;
    ghost use Rattle.wit_items.specs.ItemGrammar as spec;

    ghost Tree = { CaseTree };

    ghost production = { spec.case };

    ghost tree = { view.case };

    #[tactic(auto, unfolding(crate::specs::ItemGrammar::case, crate::specs::ItemGrammar::case_parts, wit_productions::specs::Production::documented))]
    fn parse(alloc: Global, tokens: &mut Cursor<'_, 'a>) -> Result<Case<'a>, ReadError> {
        let docs = tokens.docs(alloc)?;
        let name = tokens.id()?;
        let ty = carried(alloc, tokens)?;
        Ok(Case { docs, name, ty })
    }
}

/// What stands behind `constructor`.
#[tactic(auto, unfolding(crate::specs::ItemGrammar::constructor_behind))]
fn constructor_behind<'a>(
    alloc: Global,
    tokens: &mut Cursor<'_, 'a>,
) -> Result<ResourceFunc<'a>, ReadError>
    ensures { Reads view.resource_func result tokens.new (spec.constructor_behind.read tokens.old) }
{
    let params = params(alloc, tokens)?;
    let result = arrow(alloc, tokens)?;
    tokens
        .expect(Kind::Semicolon)
        .and(Ok(ResourceFunc::Constructor { params, result }))
}

/// A method or a static function.
#[tactic(auto, unfolding(crate::specs::ItemGrammar::method, crate::specs::ItemGrammar::method_behind, wit_productions::specs::Production::branch))]
fn method<'a>(alloc: Global, tokens: &mut Cursor<'_, 'a>) -> Result<ResourceFunc<'a>, ReadError>
    ensures { Reads view.resource_func result tokens.new (spec.method.read tokens.old) }
{
    let name = tokens.id()?;
    tokens.expect(Kind::Colon)?;
    let is_static = tokens.eat(Kind::Static);
    let func = named_func_behind(alloc, name, tokens)?;
    if is_static {
        Ok(ResourceFunc::Static(func))
    } else {
        Ok(ResourceFunc::Method(func))
    }
}

impl<'a> Part<'a> for ResourceFunc<'a> {
    ghost use Rattle.wit_items.specs.ItemTree.{ResourceFuncTree};
    ghost use Rattle.wit_items.specs.ItemView as view;
    ghost use Rattle.wit_items.specs.ItemGrammar as spec;

    ghost Tree = { ResourceFuncTree };

    ghost production = { spec.resource_func };

    ghost tree = { view.resource_func };

    #[tactic(auto, unfolding(crate::specs::ItemGrammar::resource_func, wit_productions::specs::Production::branch))]
    fn parse(alloc: Global, tokens: &mut Cursor<'_, 'a>) -> Result<ResourceFunc<'a>, ReadError> {
        if tokens.eat(Kind::Constructor) {
            return constructor_behind(alloc, tokens);
        }
        method(alloc, tokens)
    }
}

/// The functions of a resource, in braces, or none.
#[tactic(auto, unfolding(crate::specs::ItemGrammar::resource_funcs, wit_productions::specs::Production::branch), using(crate::proofs::ItemLaws::resource_func_takes))]
fn resource_funcs<'a>(
    alloc: Global,
    tokens: &mut Cursor<'_, 'a>,
) -> Result<Vec<Gated<'a, ResourceFunc<'a>>>, ReadError>
    ensures { Reads (λ v. map (view.gated view.resource_func) v.items) result tokens.new (spec.resource_funcs.read tokens.old) }
{
    if tokens.eat(Kind::Semicolon) {
        return Ok(Vec::new(alloc));
    }
    tokens.expect(Kind::LeftBrace)?;
    until::<Gated<'a, ResourceFunc<'a>>>(alloc, Kind::RightBrace, tokens)
}

/// What stands behind `resource`.
#[tactic(auto, using(crate::proofs::ItemParts::resource_reads))]
fn resource_behind<'a>(alloc: Global, tokens: &mut Cursor<'_, 'a>) -> Result<TypeDef<'a>, ReadError>
    ensures { Reads view.type_def result tokens.new (spec.resource_behind.read tokens.old) }
{
    let name = tokens.id()?;
    let kind = TypeDefKind::Resource(resource_funcs(alloc, tokens)?);
    Ok(TypeDef { name, kind })
}

/// A name, and parts in braces.
#[tactic(auto, unfolding(crate::specs::ItemGrammar::parts))]
fn parts<'a, T: Part<'a>>(
    alloc: Global,
    tokens: &mut Cursor<'_, 'a>,
) -> Result<(Id<'a>, Vec<T>), ReadError>
    requires { Takes T.production }
    ensures { Reads (λ x. (view.id x.0, map T.tree x.1.items)) result tokens.new ((spec.parts T.production).read tokens.old) }
{
    let name = tokens.id()?;
    tokens.expect(Kind::LeftBrace)?;
    let parts = commas::<T>(alloc, Kind::RightBrace, tokens)?;
    Ok((name, parts))
}

#[tactic(auto, using(crate::proofs::ItemLaws::field_takes))]
fn record_behind<'a>(alloc: Global, tokens: &mut Cursor<'_, 'a>) -> Result<TypeDef<'a>, ReadError>
    ensures { Reads view.type_def result tokens.new (spec.record_behind.read tokens.old) }
{
    let (name, fields) = parts::<Field<'a>>(alloc, tokens)?;
    let kind = TypeDefKind::Record(fields);
    Ok(TypeDef { name, kind })
}

#[tactic(auto, using(crate::proofs::ItemLaws::label_takes))]
fn flags_behind<'a>(alloc: Global, tokens: &mut Cursor<'_, 'a>) -> Result<TypeDef<'a>, ReadError>
    ensures { Reads view.type_def result tokens.new (spec.flags_behind.read tokens.old) }
{
    let (name, flags) = parts::<Flag<'a>>(alloc, tokens)?;
    let kind = TypeDefKind::Flags(flags);
    Ok(TypeDef { name, kind })
}

#[tactic(auto, using(crate::proofs::ItemLaws::label_takes))]
fn enum_behind<'a>(alloc: Global, tokens: &mut Cursor<'_, 'a>) -> Result<TypeDef<'a>, ReadError>
    ensures { Reads view.type_def result tokens.new (spec.enum_behind.read tokens.old) }
{
    let (name, cases) = parts::<EnumCase<'a>>(alloc, tokens)?;
    let kind = TypeDefKind::Enum(cases);
    Ok(TypeDef { name, kind })
}

#[tactic(auto, using(crate::proofs::ItemLaws::case_takes))]
fn variant_behind<'a>(alloc: Global, tokens: &mut Cursor<'_, 'a>) -> Result<TypeDef<'a>, ReadError>
    ensures { Reads view.type_def result tokens.new (spec.variant_behind.read tokens.old) }
{
    let (name, cases) = parts::<Case<'a>>(alloc, tokens)?;
    let kind = TypeDefKind::Variant(cases);
    Ok(TypeDef { name, kind })
}

/// A definition behind its keyword, before which `left` tokens were left.
pub fn type_def_behind<'a>(
    alloc: Global,
    keyword: Kind,
    left: usize,
    tokens: &mut Cursor<'_, 'a>,
) -> Result<TypeDef<'a>, ReadError>
    ensures { (whole : List Tok) → length whole ≡ left → Reads view.type_def result tokens.new (next_at whole (spec.type_def_at (plain keyword)) tokens.old) }
{
    match keyword {
        Kind::TypeKeyword => alias_behind(alloc, tokens),
        Kind::Record => record_behind(alloc, tokens),
        Kind::Flags => flags_behind(alloc, tokens),
        Kind::Enum => enum_behind(alloc, tokens),
        Kind::Variant => variant_behind(alloc, tokens),
        Kind::Resource => resource_behind(alloc, tokens),
        _ => Err(fault_at(Rule::Unexpected, left)),
    }
}

// ---- interfaces

/// A definition of a type, or a function.
#[tactic(auto, unfolding(crate::specs::ItemGrammar::definition, crate::specs::ItemGrammar::named_func, wit_productions::specs::Terminal::id, wit_productions::specs::Production::by_or), using(crate::proofs::ItemLaws::keyword_definition))]
fn definition<'a>(
    alloc: Global,
    tokens: &mut Cursor<'_, 'a>,
) -> Result<InterfaceItem<'a>, ReadError>
    ensures { Reads view.interface_item result tokens.new (spec.definition.read tokens.old) }
{
    let left = tokens.left();
    let Some((token, span)) = tokens.next() else {
        return Err(fault_at(Rule::Unexpected, left));
    };
    match token {
        Token::Plain(keyword) => {
            type_def_behind(alloc, keyword, left, tokens).map(InterfaceItem::TypeDef)
        }
        Token::Id(name) | Token::ExplicitId(name) => {
            tokens.expect(Kind::Colon)?;
            named_func_behind(alloc, Id { name, span }, tokens).map(InterfaceItem::Func)
        }
        _ => Err(fault_at(Rule::Unexpected, left)),
    }
}

impl<'a> Part<'a> for InterfaceItem<'a> {
    ghost use Rattle.wit_items.specs.ItemTree.{InterfaceItemTree};
    ghost use Rattle.wit_items.specs.ItemView as view;
    ghost use Rattle.wit_items.specs.ItemGrammar as spec;

    ghost Tree = { InterfaceItemTree };

    ghost production = { spec.interface_item };

    ghost tree = { view.interface_item };

    #[tactic(auto, unfolding(crate::specs::ItemGrammar::interface_item, wit_productions::specs::Production::branch))]
    fn parse(alloc: Global, tokens: &mut Cursor<'_, 'a>) -> Result<InterfaceItem<'a>, ReadError> {
        if tokens.eat(Kind::Use) {
            return Ok(InterfaceItem::Use(use_behind(alloc, tokens)?));
        }
        definition(alloc, tokens)
    }
}

/// The items of an interface, in braces.
#[tactic(auto, unfolding(crate::specs::ItemGrammar::interface_items), using(crate::proofs::ItemLaws::interface_item_takes))]
pub fn interface_items<'a>(
    alloc: Global,
    tokens: &mut Cursor<'_, 'a>,
) -> Result<Vec<Gated<'a, InterfaceItem<'a>>>, ReadError>
    ensures { Reads (λ v. map (view.gated view.interface_item) v.items) result tokens.new (spec.interface_items.read tokens.old) }
{
    tokens.expect(Kind::LeftBrace)?;
    until::<Gated<'a, InterfaceItem<'a>>>(alloc, Kind::RightBrace, tokens)
}

/// What stands behind `interface`.
#[tactic(auto, unfolding(crate::specs::ItemGrammar::interface_behind))]
pub fn interface_behind<'a>(
    alloc: Global,
    tokens: &mut Cursor<'_, 'a>,
) -> Result<Interface<'a>, ReadError>
    ensures { Reads view.interface result tokens.new (spec.interface_behind.read tokens.old) }
{
    let name = tokens.id()?;
    let items = interface_items(alloc, tokens)?;
    Ok(Interface { name, items })
}
