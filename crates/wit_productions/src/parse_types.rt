//! From tokens to a type.

ghost use Rattle.std.specs.Prelude.{◌≡◌, List, length, map, option_map, IfOk, IfErr};
ghost use Rattle.wit_productions.specs.Production.{Reads, commas, next_at, one};
ghost use Rattle.wit_tokens.specs.Passed.wit_words-Token.{Tok, plain, what};
ghost use Rattle.wit_productions.specs.TypeGrammar as spec;
ghost use Rattle.wit_productions.specs.TypeGrammar.{too_deep, type_in, type_after};
ghost use Rattle.wit_productions.specs.TypeView.{type_shape, type_tree, boxed_tree};
ghost use Rattle.wit_productions.specs.NameView.{id};
ghost use Rattle.wit_productions.specs.declared.fault.ReadError.TheVariants.{Memory};
ghost use Rattle.wit_tokens.specs.Passed.wit_words-declared-token-Kind-TheVariants as kind;

use crate::cursor::{Cursor, fault_at};
use crate::fault::ReadError;
use crate::names::Id;
use crate::types::{Type, TypeKind};
use std::alloc::Global;
use wit_tokens::{Kind, Rule, Token};

/// The number with one more digit, if 32 bits are enough.
fn longer(value: u32, digit: u8) -> Option<u32>
    ensures { result ≡ spec.longer value digit }
{
    let digit = u32::from(digit.saturating_sub(b'0'));
    value.checked_mul(10)?.checked_add(digit)
}

fn not_zero(length: u32) -> Result<u32, Rule>
    ensures { result ≡ spec.list_length length }
{
    if length == 0 {
        return Err(Rule::BadNumber);
    }
    Ok(length)
}

/// The length of a list that decimal digits write.
#[tactic(auto, using(crate::proofs::Decimals::from_start))]
fn list_length(digits: &str) -> Result<u32, Rule>
    ensures { result ≡ spec.list_length (spec.decimal digits.now) }
{
    let mut value = 0;
    for byte in digits.as_bytes() {
        let Some(longer) = longer(value, *byte) else {
            return Err(Rule::BadNumber);
        };
        value = longer;
    }
    not_zero(value)
}

/// Takes the length of a list, and refuses any other token.
#[tactic(auto, unfolding(crate::specs::TypeGrammar::list_len))]
fn list_len(tokens: &mut Cursor<'_, '_>) -> Result<u32, ReadError>
    ensures { Reads (λ n. n) result tokens.new (spec.list_len.read tokens.old) }
{
    let left = tokens.left();
    let Some((Token::Number(digits), _)) = tokens.next() else {
        return Err(fault_at(Rule::Unexpected, left));
    };
    match list_length(digits) {
        Ok(length) => Ok(length),
        Err(rule) => Err(fault_at(rule, left)),
    }
}

/// The length of a list if it has one, and the `>` behind it.
#[tactic(auto, unfolding(crate::specs::TypeGrammar::list_end, crate::specs::Production::branch))]
fn list_end(tokens: &mut Cursor<'_, '_>) -> Result<Option<u32>, ReadError>
    ensures { Reads (λ n. n) result tokens.new (spec.list_end.read tokens.old) }
{
    if tokens.eat(Kind::Comma) {
        let length = list_len(tokens)?;
        tokens.expect(Kind::GreaterThan)?;
        return Ok(Some(length));
    }
    tokens.expect(Kind::GreaterThan)?;
    Ok(None)
}

/// A value in a box.
fn in_box<T: Drop>(alloc: Global, value: T) -> Result<Box<T>, ReadError>
    ensures boxed { IfOk result (λ b. b.value ≡ value) }
    ensures refused { IfErr result (λ e. e ≡ Memory) }
{
    Ok(Box::new(alloc, value)?)
}

/// A type that is part of another.
#[cycle(types)]
fn part<'a>(
    alloc: Global,
    depth: usize,
    tokens: &mut Cursor<'_, 'a>,
) -> Result<Box<Type<'a>>, ReadError>
    ensures { Reads boxed_tree result tokens.new ((type_in depth).read tokens.old) }
{
    in_box(alloc, type_of(alloc, depth, tokens)?)
}

/// The last part of a type, and the `>` behind it.
#[cycle(types)]
#[tactic(auto, unfolding(crate::specs::TypeGrammar::last_part))]
fn last_part<'a>(
    alloc: Global,
    depth: usize,
    tokens: &mut Cursor<'_, 'a>,
) -> Result<Box<Type<'a>>, ReadError>
    ensures { Reads boxed_tree result tokens.new ((spec.last_part (type_in depth)).read tokens.old) }
{
    let last = part(alloc, depth, tokens)?;
    tokens.expect(Kind::GreaterThan).and(Ok(last))
}

#[cycle(types)]
#[tactic(auto, using(crate::proofs::TypeParts::list_reads, crate::proofs::TypeViews::list_of, crate::proofs::TypeViews::fixed_length_list_of))]
fn list<'a>(
    alloc: Global,
    depth: usize,
    tokens: &mut Cursor<'_, 'a>,
) -> Result<TypeKind<'a>, ReadError>
    ensures { Reads type_shape result tokens.new ((spec.list_after (type_in depth)).read tokens.old) }
{
    tokens.expect(Kind::LessThan)?;
    let item = part(alloc, depth, tokens)?;
    match list_end(tokens)? {
        Some(length) => Ok(TypeKind::FixedLengthList(item, length)),
        None => Ok(TypeKind::List(item)),
    }
}

#[cycle(types)]
#[tactic(auto, using(crate::proofs::TypeParts::option_reads, crate::proofs::TypeViews::option_of))]
fn option<'a>(
    alloc: Global,
    depth: usize,
    tokens: &mut Cursor<'_, 'a>,
) -> Result<TypeKind<'a>, ReadError>
    ensures { Reads type_shape result tokens.new ((spec.option_after (type_in depth)).read tokens.old) }
{
    tokens.expect(Kind::LessThan)?;
    Ok(TypeKind::Option(last_part(alloc, depth, tokens)?))
}

#[cycle(types)]
#[tactic(auto, unfolding(crate::specs::TypeGrammar::tuple_after))]
fn tuple<'a>(
    alloc: Global,
    depth: usize,
    tokens: &mut Cursor<'_, 'a>,
) -> Result<TypeKind<'a>, ReadError>
    ensures { Reads type_shape result tokens.new ((spec.tuple_after (type_in depth)).read tokens.old) }
{
    tokens.expect(Kind::LessThan)?;
    Ok(TypeKind::Tuple(types(alloc, depth, tokens)?))
}

#[cycle(types)]
fn types<'a>(
    alloc: Global,
    depth: usize,
    tokens: &mut Cursor<'_, 'a>,
) -> Result<Vec<Type<'a>>, ReadError>
    ensures { Reads (λ v. map type_tree v.items) result tokens.new ((commas (type_in depth) kind.GreaterThan).read tokens.old) }
{
    let mut found = Vec::new(alloc);
    while !tokens.eat(Kind::GreaterThan) {
        found.push(type_of(alloc, depth, tokens)?)?;
        if !tokens.eat(Kind::Comma) {
            return tokens.expect(Kind::GreaterThan).and(Ok(found));
        }
    }
    Ok(found)
}

/// Another part behind a comma if there is one, and the `>` behind it.
#[cycle(types)]
#[tactic(auto, unfolding(crate::specs::TypeGrammar::second_part, crate::specs::Production::branch))]
fn second_part<'a>(
    alloc: Global,
    depth: usize,
    tokens: &mut Cursor<'_, 'a>,
) -> Result<Option<Box<Type<'a>>>, ReadError>
    ensures { Reads (option_map boxed_tree) result tokens.new ((spec.second_part (type_in depth)).read tokens.old) }
{
    if tokens.eat(Kind::Comma) {
        return Ok(Some(last_part(alloc, depth, tokens)?));
    }
    tokens.expect(Kind::GreaterThan)?;
    Ok(None)
}

#[cycle(types)]
#[tactic(auto, unfolding(crate::specs::Production::branch), using(crate::proofs::TypeParts::result_parts_reads, crate::proofs::TypeViews::result_err, crate::proofs::TypeViews::result_ok))]
fn result_parts<'a>(
    alloc: Global,
    depth: usize,
    tokens: &mut Cursor<'_, 'a>,
) -> Result<TypeKind<'a>, ReadError>
    ensures { Reads type_shape result tokens.new ((spec.result_parts (type_in depth)).read tokens.old) }
{
    if tokens.eat(Kind::Underscore) {
        tokens.expect(Kind::Comma)?;
        let err = last_part(alloc, depth, tokens)?;
        return Ok(TypeKind::Result {
            ok: None,
            err: Some(err),
        });
    }
    let ok = part(alloc, depth, tokens)?;
    let err = second_part(alloc, depth, tokens)?;
    Ok(TypeKind::Result { ok: Some(ok), err })
}

#[cycle(types)]
#[tactic(auto, unfolding(crate::specs::TypeGrammar::result_after, crate::specs::Production::branch))]
fn result<'a>(
    alloc: Global,
    depth: usize,
    tokens: &mut Cursor<'_, 'a>,
) -> Result<TypeKind<'a>, ReadError>
    ensures { Reads type_shape result tokens.new ((spec.result_after (type_in depth)).read tokens.old) }
{
    if tokens.eat(Kind::LessThan) {
        return result_parts(alloc, depth, tokens);
    }
    Ok(TypeKind::Result {
        ok: None,
        err: None,
    })
}

/// The name of a handle's resource.
#[tactic(auto, unfolding(crate::specs::TypeGrammar::handle_of))]
fn handle_of<'a>(tokens: &mut Cursor<'_, 'a>) -> Result<Id<'a>, ReadError>
    ensures { Reads id result tokens.new (spec.handle_of.read tokens.old) }
{
    tokens.expect(Kind::LessThan)?;
    let name = tokens.id()?;
    tokens.expect(Kind::GreaterThan)?;
    Ok(name)
}

/// The type of what a future or a stream brings, if it has one.
#[cycle(types)]
#[tactic(auto, unfolding(crate::specs::Production::branch), using(crate::proofs::TypeParts::payload_reads))]
fn payload<'a>(
    alloc: Global,
    depth: usize,
    tokens: &mut Cursor<'_, 'a>,
) -> Result<Option<Box<Type<'a>>>, ReadError>
    ensures { Reads (option_map boxed_tree) result tokens.new ((spec.payload (type_in depth)).read tokens.old) }
{
    if tokens.eat(Kind::LessThan) {
        return Ok(Some(last_part(alloc, depth, tokens)?));
    }
    Ok(None)
}

/// A type that begins with a keyword, before which `left` tokens were left.
#[cycle(types)]
#[tactic(auto, using(crate::proofs::TypeViews::future_of, crate::proofs::TypeViews::stream_of))]
fn keyword_type<'a>(
    alloc: Global,
    depth: usize,
    keyword: Kind,
    left: usize,
    tokens: &mut Cursor<'_, 'a>,
) -> Result<TypeKind<'a>, ReadError>
    ensures { (whole : List Tok) → length whole ≡ left → Reads type_shape result tokens.new (next_at whole (type_after (type_in depth) (plain keyword)) tokens.old) }
{
    match keyword {
        Kind::Bool => Ok(TypeKind::Bool),
        Kind::U8 => Ok(TypeKind::U8),
        Kind::U16 => Ok(TypeKind::U16),
        Kind::U32 => Ok(TypeKind::U32),
        Kind::U64 => Ok(TypeKind::U64),
        Kind::S8 => Ok(TypeKind::S8),
        Kind::S16 => Ok(TypeKind::S16),
        Kind::S32 => Ok(TypeKind::S32),
        Kind::S64 => Ok(TypeKind::S64),
        Kind::F32 => Ok(TypeKind::F32),
        Kind::F64 => Ok(TypeKind::F64),
        Kind::Char => Ok(TypeKind::Char),
        Kind::StringKeyword => Ok(TypeKind::String),
        Kind::ListKeyword => list(alloc, depth, tokens),
        Kind::OptionKeyword => option(alloc, depth, tokens),
        Kind::Tuple => tuple(alloc, depth, tokens),
        Kind::ResultKeyword => result(alloc, depth, tokens),
        Kind::Own => Ok(TypeKind::Own(handle_of(tokens)?)),
        Kind::Borrow => Ok(TypeKind::Borrow(handle_of(tokens)?)),
        Kind::Future => Ok(TypeKind::Future(payload(alloc, depth, tokens)?)),
        Kind::Stream => Ok(TypeKind::Stream(payload(alloc, depth, tokens)?)),
        Kind::ErrorContext => Ok(TypeKind::ErrorContext),
        _ => Err(fault_at(Rule::Unexpected, left)),
    }
}

/// Whether a type begins with this keyword.
fn begins_type(keyword: Kind) -> bool
    ensures { result ≡ spec.begins_type (plain keyword) }
{
    matches!(
        keyword,
        Kind::Bool
            | Kind::U8
            | Kind::U16
            | Kind::U32
            | Kind::U64
            | Kind::S8
            | Kind::S16
            | Kind::S32
            | Kind::S64
            | Kind::F32
            | Kind::F64
            | Kind::Char
            | Kind::StringKeyword
            | Kind::ListKeyword
            | Kind::OptionKeyword
            | Kind::Tuple
            | Kind::ResultKeyword
            | Kind::Own
            | Kind::Borrow
            | Kind::Future
            | Kind::Stream
            | Kind::ErrorContext
    )
}

/// The rule that a token breaks where no type may stand.
fn too_deep(token: Token<'_>) -> Rule
    ensures { spec.too_deep (what token.entry) ≡ Err result }
{
    match token {
        Token::Id(_) | Token::ExplicitId(_) => Rule::TooDeep,
        Token::Plain(keyword) if begins_type(keyword) => Rule::TooDeep,
        _ => Rule::Unexpected,
    }
}

/// What a type is, in which at most `depth` angle brackets enclose another.
#[cycle(types)]
#[tactic(auto, unfolding(crate::specs::TypeGrammar::shape_of, crate::specs::TypeGrammar::named_type, crate::specs::Terminal::id, crate::specs::Production::by_or), using(crate::proofs::TypeLaws::keyword_read))]
fn kind_of<'a>(
    alloc: Global,
    depth: usize,
    tokens: &mut Cursor<'_, 'a>,
) -> Result<TypeKind<'a>, ReadError>
    ensures { Reads type_shape result tokens.new ((spec.shape_of (type_in depth)).read tokens.old) }
{
    let left = tokens.left();
    let Some((token, span)) = tokens.next() else {
        return Err(fault_at(Rule::Unexpected, left));
    };
    match token {
        Token::Plain(keyword) => keyword_type(alloc, depth, keyword, left, tokens),
        Token::Id(name) | Token::ExplicitId(name) => Ok(TypeKind::Name(Id { name, span })),
        _ => Err(fault_at(Rule::Unexpected, left)),
    }
}

/// Refuses any token: no type may stand here.
fn no_type<'a>(tokens: &mut Cursor<'_, 'a>) -> Result<Type<'a>, ReadError>
    ensures { Reads type_tree result tokens.new ((one too_deep).read tokens.old) }
{
    let left = tokens.left();
    match tokens.next() {
        Some((token, _)) => Err(fault_at(too_deep(token), left)),
        None => Err(fault_at(Rule::Unexpected, left)),
    }
}

/// A type in which fewer than `depth` angle brackets enclose another.
#[cycle(types)]
#[tactic(auto, unfolding(crate::specs::TypeGrammar::type_in, crate::specs::Production::located))]
fn type_of<'a>(
    alloc: Global,
    depth: usize,
    tokens: &mut Cursor<'_, 'a>,
) -> Result<Type<'a>, ReadError>
    ensures { Reads type_tree result tokens.new ((type_in depth).read tokens.old) }
{
    if depth == 0 {
        return no_type(tokens);
    }
    let start = tokens.here();
    let kind = kind_of(alloc, depth - 1, tokens)?;
    let span = tokens.span_from(start);
    Ok(Type { kind, span })
}

/// A type, which stands in at most 100 angle brackets.
#[tactic(auto, unfolding(crate::specs::TypeGrammar::any_type))]
pub fn any_type<'a>(alloc: Global, tokens: &mut Cursor<'_, 'a>) -> Result<Type<'a>, ReadError>
    ensures { Reads type_tree result tokens.new (spec.any_type.read tokens.old) }
{
    type_of(alloc, 101, tokens)
}

/// A type, and nothing behind it.
#[tactic(auto, unfolding(crate::specs::TypeGrammar::whole_type))]
pub fn whole_type<'a>(alloc: Global, tokens: &mut Cursor<'_, 'a>) -> Result<Type<'a>, ReadError>
    ensures { Reads type_tree result tokens.new (spec.whole_type.read tokens.old) }
{
    let ty = any_type(alloc, tokens)?;
    tokens.end().and(Ok(ty))
}
