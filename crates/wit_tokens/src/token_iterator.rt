//! The tokens of a text, one by one.

ghost use Rattle.std.specs.Prelude.{◌≡◌, ◌+◌, ◌^◌, ◌<◌, ◌≤◌, [], ◌∷◌, List, length, map, IfOk, IfErr, IfSome, IsOk, MatchOption};
ghost use Rattle.wit_tokens.specs.Items.{given, item, items_of, AreItems};
ghost use Rattle.wit_tokens.specs.Lex.{read_bare};
ghost use Rattle.wit_tokens.specs.Lexical.{LexesText};
ghost use Rattle.wit_words.specs.Token.{Tok};

use crate::tokens::{Found, is_too_large, placed_piece, without_mark};
use std::iter::FusedIterator;
use std::marker::Model;
use wit_words::{Span, SyntaxFault, Token};

/// A token, and where it stands.
#[derive(Clone, Copy, Debug)]
pub struct SpannedToken<'a> {
    /// The token.
    pub token: Token<'a>,
    /// Where it stands, without a `%` in front of it.
    pub span: Span,
}

/// The tokens of a text, in the order in which they stand there, and nothing of the blanks and comments between them. A
/// rule that the text breaks is given as a fault, behind which nothing comes.
#[derive(Clone, Debug, Drop)]
pub struct Tokens<'a> {
    rest: &'a str,
    /// Where what is left begins.
    at: u32,
}

impl<'a> Model for Tokens<'a> {
    ghost use Rattle.std.specs.Prelude.{◌+◌, ◌<◌, ◌^◌, List, length};
    ghost use Rattle.wit_tokens.specs.Items.{Item, items_of};
    ghost use Rattle.wit_tokens.specs.Lex.{read_bare};

    ghost Value = { List Item };

    ghost view = { λ t. items_of (read_bare t.at t.rest.now) };

    ghost invariant = { λ t. t.at + length t.rest.now < 2 ^ 32 };
}

impl<'a> Tokens<'a> {
    /// The tokens of a text that begins at `offset`, from which places count. Answers `TooLarge` exactly where it would end
    /// more than 4,294,967,295 bytes behind it.
    pub fn new(text: &'a str, offset: u32) -> Result<Tokens<'a>, SyntaxFault>
        ensures items { IfOk result (AreItems offset text.now) }
        ensures tokens { (ts : List Tok) → LexesText offset text.now ts → IfOk result (λ t. t ≡ map given ts) }
        ensures few { IfOk result (λ t. length t ≤ length text.now) }
        ensures within { IfOk result (λ _. offset + length text.now < 2 ^ 32) }
        ensures fits { offset + length text.now < 2 ^ 32 → IsOk result }
        ensures large { IfErr result (λ e. (e ≡ SyntaxFault.TooLarge) × (2 ^ 32 ≤ offset + length text.now)) }
    {
        if is_too_large(text, offset) {
            return Err(SyntaxFault::TooLarge);
        }
        let (rest, at) = without_mark(text, offset);
        Ok(Tokens { rest, at })
    }
}

impl<'a> Iterator for Tokens<'a> {
    type Item = Result<SpannedToken<'a>, SyntaxFault>;

    ghost use Rattle.std.specs.Iterator.{YieldsFirstBy, item_count};
    ghost use Rattle.wit_tokens.specs.Items.{item};

    ghost next_gives = { YieldsFirstBy item (λ left. left) };

    ghost remaining = { item_count (λ left. left) };

    fn next(&mut self) -> Option<Result<SpannedToken<'a>, SyntaxFault>> {
        let (item, rest, at) = next_item(self.rest, self.at)?;
        self.rest = rest;
        self.at = at;
        Some(item)
    }
}

impl<'a> FusedIterator for Tokens<'a> {}

/// The first token of a text that begins at `start`, or the rule that it breaks in front of one; and what is left behind
/// that, with its place.
fn next_item(text: &str, start: u32) -> Option<(Result<SpannedToken<'_>, SyntaxFault>, &str, u32)>
    requires { start + length text.now < 2 ^ 32 }
    ensures value { MatchOption result (items_of (read_bare start text.now) ≡ []) (λ x. items_of (read_bare start text.now) ≡ item x.0 ∷ items_of (read_bare x.2 x.1.now)) }
    ensures within { IfSome result (λ x. x.2 + length x.1.now < 2 ^ 32) }
{
    let mut rest = text;
    let mut at = start;
    while !rest.is_empty() {
        let (found, span, after) = match placed_piece(rest, at) {
            Ok(front) => front,
            Err(fault) => return Some((Err(fault), "", at)),
        };
        match found {
            Found::Token(token) => {
                return Some((Ok(SpannedToken { token, span }), after, span.end));
            }
            Found::Nothing | Found::Docs(_) => {
                rest = after;
                at = span.end;
            }
        }
    }
    None
}
