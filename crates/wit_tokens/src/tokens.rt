//! The tokens of a text.

ghost use Rattle.std.specs.Prelude.{◌≡◌, ◌+◌, ◌^◌, ◌<◌, ◌≤◌, true, false, List, length, map, Err, IfOk, IfErr, OnOk};
ghost use Rattle.wit_tokens.specs.Lex as spec;
ghost use Rattle.wit_tokens.specs.Cause.{IsLexFault};
ghost use Rattle.wit_tokens.specs.Lexical.{LexesText};
ghost use Rattle.wit_words.specs.Outcome.{Agrees, AnswersText};
ghost use Rattle.wit_words.specs.Token.{Tok, toks, ident, explicit};

use crate::lex::{Lexeme, broken_span, front};
use std::alloc::{AllocError, Global};
use std::mem;
use wit_words::{Comment, DocumentedToken, Rule, Span, SyntaxFault, Token, is_identifier, keyword};

/// What stands at the front of a text.
#[derive(Clone, Copy)]
pub enum Found<'a> {
    /// A blank, or a comment that isn't docs.
    Nothing,
    /// A comment that is docs.
    Docs(&'a str),
    /// A token.
    Token(Token<'a>),
}

/// The text behind a `%`.
fn unmarked(word: &str) -> &str
    ensures { result.now ≡ spec.unmarked word.now }
{
    match word.strip_prefix('%') {
        Some(name) => name,
        None => word,
    }
}

/// The text behind a byte order mark, and where it begins.
pub fn without_mark(text: &str, at: u32) -> (&str, u32)
    requires { at + length text.now < 2 ^ 32 }
    ensures value { spec.without_mark at text.now ≡ (result.1, result.0.now) }
    ensures within { result.1 + length result.0.now ≡ at + length text.now }
    ensures behind { at ≤ result.1 }
{
    match text.strip_prefix('\u{feff}') {
        Some(rest) => (rest, at + 3),
        None => (text, at),
    }
}

/// A name, which is an identifier.
fn name_token(name: &str) -> Result<Found<'_>, Rule>
    ensures { Agrees spec.found_piece result (spec.name_token ident name.now) }
{
    if is_identifier(name) {
        Ok(Found::Token(Token::Id(name)))
    } else {
        Err(Rule::BadIdentifier)
    }
}

/// The same of a name behind a `%`.
fn explicit_token(name: &str) -> Result<Found<'_>, Rule>
    ensures { Agrees spec.found_piece result (spec.name_token explicit name.now) }
{
    if is_identifier(name) {
        Ok(Found::Token(Token::ExplicitId(name)))
    } else {
        Err(Rule::BadIdentifier)
    }
}

/// Whether a comment is docs.
fn is_doc(comment: &[u8]) -> bool
    ensures { result ≡ spec.is_doc comment.now }
{
    match comment {
        [b'/', b'/', b'/', ..] => true,
        [b'/', b'*', b'*', b'/'] => false,
        [b'/', b'*', b'*', ..] => true,
        _ => false,
    }
}

/// What a lexeme is.
fn piece_of(lexeme: Lexeme, spelling: &str) -> Result<Found<'_>, Rule>
    ensures { Agrees spec.found_piece result (spec.piece_of lexeme spelling.now) }
{
    match lexeme {
        Lexeme::Blank => Ok(Found::Nothing),
        Lexeme::Comment if is_doc(spelling.as_bytes()) => Ok(Found::Docs(spelling)),
        Lexeme::Comment => Ok(Found::Nothing),
        Lexeme::Plain(kind) => Ok(Found::Token(Token::Plain(kind))),
        Lexeme::Number => Ok(Found::Token(Token::Number(spelling))),
        Lexeme::Version => Ok(Found::Token(Token::Version(spelling))),
        Lexeme::Word => match keyword(spelling) {
            Some(kind) => Ok(Found::Token(Token::Plain(kind))),
            None => name_token(spelling),
        },
        Lexeme::Marked => explicit_token(unmarked(spelling)),
    }
}

/// Where a lexeme says what it says: behind its `%`, if it has one.
fn span_of(lexeme: Lexeme, at: u32, spelling: &str) -> Span
    requires some { 1 ≤ length spelling.now }
    requires fits { at + length spelling.now < 2 ^ 32 }
    ensures { result ≡ spec.span_of lexeme at spelling.now }
{
    let start = match lexeme {
        Lexeme::Marked => at + 1,
        _ => at,
    };
    Span {
        start,
        end: at + spelling.len() as u32,
    }
}

/// What stands at the front of a text that begins at `at`, where that is, and the text behind it.
#[tactic(auto, unfolding(crate::specs::Lex::piece))]
fn piece(text: &str, at: u32) -> Result<(Found<'_>, Span, &str), Rule>
    requires some { 0 < length text.now }
    requires fits { at + length text.now < 2 ^ 32 }
    ensures value { Agrees (λ x. (spec.found_piece x.0, x.1, x.2.now)) result (spec.piece at text.now) }
    ensures moves { IfOk result (λ x. length x.2.now < length text.now) }
    ensures within { IfOk result (λ x. x.1.end + length x.2.now ≡ at + length text.now) }
{
    let (lexeme, len) = front(text.as_bytes())?;
    let (spelling, rest) = text.split_at(len);
    let found = piece_of(lexeme, spelling)?;
    Ok((found, span_of(lexeme, at, spelling), rest))
}

/// The same with the place of a broken rule.
pub fn placed_piece(text: &str, at: u32) -> Result<(Found<'_>, Span, &str), SyntaxFault>
    requires some { 0 < length text.now }
    requires fits { at + length text.now < 2 ^ 32 }
    ensures value { Agrees (λ x. (spec.found_piece x.0, x.1, x.2.now)) result (spec.placed at text.now (spec.piece at text.now)) }
    ensures moves { IfOk result (λ x. length x.2.now < length text.now) }
    ensures within { IfOk result (λ x. x.1.end + length x.2.now ≡ at + length text.now) }
{
    match piece(text, at) {
        Ok(found) => Ok(found),
        Err(rule) => Err(SyntaxFault::Broken {
            rule,
            span: broken_span(rule, text, at),
        }),
    }
}

/// The tokens that were found, and the docs behind them.
#[derive(Drop)]
struct Kept<'a> {
    tokens: Vec<DocumentedToken<'a>>,
    docs: Vec<Comment<'a>>,
}

/// Adds what was found behind them.
fn add<'a>(
    alloc: Global,
    kept: &mut Kept<'a>,
    found: Found<'a>,
    span: Span,
) -> Result<(), AllocError>
    ensures { OnOk result (spec.kept kept.new ≡ spec.with_last (spec.kept kept.old) span (spec.found_piece found.entry)) }
{
    match found {
        Found::Nothing => {}
        Found::Docs(text) => kept.docs.push(Comment { text, span })?,
        Found::Token(token) => {
            let docs = mem::replace(&mut kept.docs, Vec::new(alloc));
            kept.tokens.push(DocumentedToken { docs, token, span })?;
        }
    }
    Ok(())
}

/// The tokens of a text with no byte order mark, which begins at `start`.
fn tokens_of(alloc: Global, text: &str, start: u32) -> Result<Vec<DocumentedToken<'_>>, SyntaxFault>
    requires { start + length text.now < 2 ^ 32 }
    ensures { spec.GivesReading (λ v. toks v.items) result (spec.read_bare start text.now) }
{
    let mut kept = Kept {
        tokens: Vec::new(alloc),
        docs: Vec::new(alloc),
    };
    let mut rest = text;
    let mut at = start;
    while !rest.is_empty() {
        let (found, span, after) = placed_piece(rest, at)?;
        add(alloc, &mut kept, found, span)?;
        rest = after;
        at = span.end;
    }
    let Kept { tokens, .. } = kept;
    Ok(tokens)
}

/// Whether a text that begins at `offset` would end too far behind it for a place of 32 bits.
pub fn is_too_large(text: &str, offset: u32) -> bool
    ensures large { result ≡ true → 2 ^ 32 ≤ offset + length text.now }
    ensures fits { result ≡ false → offset + length text.now < 2 ^ 32 }
{
    text.len() > (u32::MAX - offset) as usize
}

/// The tokens of a text that may have a byte order mark, and begins at `offset`.
#[tactic(auto, unfolding(crate::specs::Lex::read))]
fn read(alloc: Global, text: &str, offset: u32) -> Result<Vec<DocumentedToken<'_>>, SyntaxFault>
    requires { offset + length text.now < 2 ^ 32 }
    ensures { spec.GivesReading (λ v. toks v.items) result (spec.read offset text.now) }
{
    let (rest, start) = without_mark(text, offset);
    tokens_of(alloc, rest, start)
}

/// The tokens that `text` is, in the order in which they stand there, each with the docs in front of it. Places count
/// from `offset`, where the text begins.
#[tactic(auto, using(crate::proofs::Lexemes::answers_only, crate::proofs::Readings::answers_found, crate::proofs::Readings::answers_cause))]
pub fn read_tokens<'a>(
    alloc: Global,
    text: &'a str,
    offset: u32,
) -> Result<Vec<DocumentedToken<'a>>, SyntaxFault>
    ensures found { IfOk result (λ v. LexesText offset text.now (toks v.items)) }
    ensures within { IfOk result (λ v. offset + length text.now < 2 ^ 32) }
    ensures only { (ts : List Tok) → LexesText offset text.now ts → offset + length text.now < 2 ^ 32 → AnswersText (λ v. toks v.items) result ts }
    ensures large { 2 ^ 32 ≤ offset + length text.now → result ≡ Err SyntaxFault.TooLarge }
    ensures cause { IfErr result (IsLexFault offset text.now) }
{
    if is_too_large(text, offset) {
        return Err(SyntaxFault::TooLarge);
    }
    read(alloc, text, offset)
}
