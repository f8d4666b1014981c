//! A cursor over tokens.

ghost use Rattle.std.specs.Prelude.{◌≡◌, ◌<◌, ◌∷◌, [], false, length, IfOk, IfErr, MatchOption};
ghost use Rattle.wit_tokens.specs.Passed.wit_words-Token.{Tok, what, toks};
ghost use Rattle.wit_productions.specs.Production as spec;
ghost use Rattle.wit_productions.specs.Production.{Reads};
ghost use Rattle.wit_productions.specs.NameView as view;
ghost use Rattle.wit_productions.specs.Terminal as terminal;

use crate::fault::{Fault, ReadError};
use crate::names::{Id, Version};
use std::alloc::{AllocError, Global};
use std::marker::Model;
use wit_tokens::{Docs, DocumentedToken, Kind, Rule, Span, Token, is_read_by_semver, same_kind};

/// The error of a broken rule where `left` tokens are left.
pub fn fault_at(rule: Rule, left: usize) -> ReadError
    ensures { result ≡ ReadError.Malformed (record { rule = rule; left = left }) }
{
    ReadError::Malformed(Fault { rule, left })
}

/// Whether a token is this sign or keyword.
fn is_kind(token: Token, kind: Kind) -> bool
    ensures { result ≡ spec.is_kind kind (what token.entry) }
{
    match token {
        Token::Plain(found) => same_kind(found, kind),
        _ => false,
    }
}

/// Where the first of some tokens begins, and the last of them ends.
fn extent(tokens: &[DocumentedToken<'_>]) -> Span
    ensures { result ≡ spec.extent (toks tokens.now) }
{
    match tokens {
        [] => Span { start: 0, end: 0 },
        [only] => only.span,
        [first, .., last] => Span {
            start: first.span.start,
            end: last.span.end,
        },
    }
}

/// The tokens that are still to be read.
#[derive(Drop)]
pub struct Cursor<'t, 'a> {
    rest: &'t [DocumentedToken<'a>],
}

impl<'t, 'a> Model for Cursor<'t, 'a> {
    ghost use Rattle.std.specs.Prelude.{List};
    ghost use Rattle.wit_tokens.specs.Passed.wit_words-Token.{Tok, toks};

    ghost Value = { List Tok };

    ghost view = { λ t. toks t.rest.now };
}

impl<'t, 'a> Cursor<'t, 'a> {
    /// A cursor in front of the first of `rest`.
    pub fn new(rest: &'t [DocumentedToken<'a>]) -> Cursor<'t, 'a>
        ensures { result ≡ toks rest.now }
    {
        Cursor { rest }
    }

    /// How many tokens are left.
    pub fn left(&self) -> usize
        ensures { result ≡ length self.now }
    {
        self.rest.len()
    }

    /// The error that another token had to stand here.
    pub fn unexpected(&self) -> ReadError
        ensures { result ≡ ReadError.Malformed (record { rule = Rule.Unexpected; left = length self.now }) }
    {
        fault_at(Rule::Unexpected, self.left())
    }

    /// Refuses any token.
    pub fn end(&self) -> Result<(), ReadError>
        ensures ended { IfOk result (λ _. self.now ≡ []) }
        ensures refused { IfErr result (λ e. (0 < length self.now) × (e ≡ ReadError.Malformed (record { rule = Rule.Unexpected; left = length self.now }))) }
    {
        if self.left() > 0 {
            return Err(self.unexpected());
        }
        Ok(())
    }

    /// Whether the next token is this sign or keyword, which is then taken.
    #[tactic(auto, unfolding(crate::specs::Production::sees, crate::specs::Production::after))]
    pub fn eat(&mut self, kind: Kind) -> bool
        ensures found { result ≡ spec.sees kind self.old }
        ensures after { self.new ≡ spec.after kind self.old }
        ensures kept { result ≡ false → self.new ≡ self.old }
    {
        match self.rest {
            [first, rest @ ..] if is_kind(first.token, kind) => {
                self.rest = rest;
                true
            }
            _ => false,
        }
    }

    /// Takes this sign or keyword, and refuses any other token.
    #[tactic(auto, unfolding(crate::specs::Production::sign))]
    pub fn expect(&mut self, kind: Kind) -> Result<(), ReadError>
        ensures { Reads (λ x. x) result self.new ((spec.sign kind).read self.old) }
    {
        if self.eat(kind) {
            Ok(())
        } else {
            Err(self.unexpected())
        }
    }

    /// Takes an identifier, and refuses any other token.
    #[tactic(auto, unfolding(crate::specs::Terminal::id))]
    pub fn id(&mut self) -> Result<Id<'a>, ReadError>
        ensures { Reads view.id result self.new (terminal.id.read self.old) }
    {
        let [first, rest @ ..] = self.rest else {
            return Err(self.unexpected());
        };
        let (Token::Id(name) | Token::ExplicitId(name)) = first.token else {
            return Err(self.unexpected());
        };
        self.rest = rest;
        Ok(Id {
            name,
            span: first.span,
        })
    }

    /// Takes a version that `semver` reads, and refuses any other token.
    #[tactic(auto, unfolding(crate::specs::Terminal::version))]
    pub fn version(&mut self) -> Result<Version<'a>, ReadError>
        ensures { Reads view.version result self.new (terminal.version.read self.old) }
    {
        let [first, rest @ ..] = self.rest else {
            return Err(self.unexpected());
        };
        let Token::Version(text) = first.token else {
            return Err(fault_at(Rule::BadVersion, self.left()));
        };
        if !is_read_by_semver(text) {
            return Err(fault_at(Rule::BadVersion, self.left()));
        }
        self.rest = rest;
        Ok(Version {
            text,
            span: first.span,
        })
    }

    /// Takes a word that is no keyword, and refuses any other token.
    #[tactic(auto, unfolding(crate::specs::Terminal::word))]
    pub fn word(&mut self, word: &str) -> Result<(), ReadError>
        ensures { Reads (λ x. x) result self.new ((terminal.word word.now).read self.old) }
    {
        match self.rest {
            [first, rest @ ..] if let Token::Id(name) = first.token && name == word => {
                self.rest = rest;
                Ok(())
            }
            _ => Err(self.unexpected()),
        }
    }

    /// The docs in front of the next token.
    pub fn docs(&self, alloc: Global) -> Result<Docs<'a>, AllocError>
        ensures { IfOk result (λ d. view.docs d ≡ spec.docs_at self.now) }
    {
        match self.rest {
            [first, ..] => Ok(Docs {
                comments: first.docs.to_vec(alloc)?,
            }),
            [] => Ok(Docs {
                comments: Vec::new(alloc),
            }),
        }
    }

    /// The tokens that are left, to tell later where what was read stands.
    pub fn here(&self) -> &'t [DocumentedToken<'a>]
        ensures { toks result.now ≡ self.now }
    {
        self.rest
    }

    /// Where what was read since `start` begins and ends.
    pub fn span_from(&self, start: &[DocumentedToken<'a>]) -> Span
        ensures { result ≡ spec.extent (spec.between (toks start.now) self.now) }
    {
        let count = start.len().saturating_sub(self.left());
        extent(start.split_at(count).0)
    }

    /// Takes the next token, if there is one.
    pub fn next(&mut self) -> Option<(Token<'a>, Span)>
        ensures { MatchOption result ((self.old ≡ []) × (self.new ≡ [])) (λ w. (t : Tok) × (self.old ≡ t ∷ self.new) × (t.what ≡ what w.0) × (t.span ≡ w.1)) }
    {
        match self.rest {
            [] => None,
            [first, rest @ ..] => {
                self.rest = rest;
                Some((first.token, first.span))
            }
        }
    }
}
