//! Whole texts.

ghost use Rattle.std.specs.Prelude.{◌≡◌, ◌-◌, ◌+◌, ◌<◌, ◌^◌, ◌≤◌, List, length, Err, IfOk, IfErr};
ghost use Rattle.wit_productions.specs.NameView as view;
ghost use Rattle.wit_productions.specs.NameTree.{UsePathTree};
ghost use Rattle.wit_productions.specs.Broken.{IsSyntaxFault};
ghost use Rattle.wit_productions.specs.NameGrammar.{whole_use_path};
ghost use Rattle.wit_tokens.specs.Lexical.{LexesText};
ghost use Rattle.wit_tokens.specs.Passed.wit_words-Outcome.{AnswersText};
ghost use Rattle.wit_tokens.specs.Passed.wit_words-Token.{toks};
ghost use Rattle.wit_productions.specs.TypeGrammar.{whole_type};
ghost use Rattle.wit_productions.specs.TypeTree.{TypeTree};
ghost use Rattle.wit_productions.specs.TypeView.{type_tree};
ghost use Rattle.wit_productions.specs.WholeText as spec;
ghost use Rattle.wit_productions.specs.WholeText.{IsUsePath, IsType};

use crate::cursor::Cursor;
use crate::fault::ReadError;
use crate::names::UsePath;
use crate::parse_names::whole_use_path;
use crate::parse_types::whole_type;
use crate::types::Type;
use std::alloc::Global;
use wit_tokens::{DocumentedToken, Span, SyntaxFault, read_tokens};

/// Where the token stands behind which `left - 1` more are left, or else the text's end.
fn place_of(tokens: &[DocumentedToken<'_>], left: usize, end: u32) -> Span
    ensures { result ≡ spec.place_at end left (toks tokens.now) }
{
    match tokens.get(tokens.len().saturating_sub(left)) {
        Some(token) => token.span,
        None => Span { start: end, end },
    }
}

/// The same error with the place of what breaks the rule.
pub fn placed(error: ReadError, tokens: &[DocumentedToken<'_>], end: u32) -> SyntaxFault
    ensures { result ≡ spec.placed end (toks tokens.now) error }
{
    match error {
        ReadError::Memory => SyntaxFault::OutOfMemory,
        ReadError::Malformed(fault) => SyntaxFault::Broken {
            rule: fault.rule,
            span: place_of(tokens, fault.left, end),
        },
    }
}

/// Where a text ends that begins at `offset`.
pub fn end_of(text: &str, offset: u32) -> u32
    requires { offset + length text.now < 2 ^ 32 }
    ensures { result ≡ offset + length text.now }
{
    offset + text.len() as u32
}

fn use_path_of<'a>(tokens: &[DocumentedToken<'a>], end: u32) -> Result<UsePath<'a>, SyntaxFault>
    ensures { spec.GivesTree view.use_path whole_use_path end (toks tokens.now) result }
{
    match whole_use_path(&mut Cursor::new(tokens)) {
        Ok(path) => Ok(path),
        Err(error) => Err(placed(error, tokens, end)),
    }
}

/// The path that the whole of `text` is: `name`, `namespace:package/name` or `namespace:package/name@version`. Places
/// count from the text's start; what isn't a path is refused as `parse_file` refuses a text.
pub fn parse_use_path(alloc: Global, text: &str) -> Result<UsePath<'_>, SyntaxFault>
    ensures found { IfOk result (λ p. IsUsePath text.now (view.use_path p)) }
    ensures only { (d : UsePathTree) → IsUsePath text.now d → AnswersText view.use_path result d }
    ensures cause { IfErr result (IsSyntaxFault whole_use_path 0 text.now) }
    ensures large { 2 ^ 32 ≤ length text.now → result ≡ Err SyntaxFault.TooLarge }
{
    let tokens = read_tokens(alloc, text, 0)?;
    use_path_of(&tokens, end_of(text, 0))
}

fn type_of<'a>(
    alloc: Global,
    tokens: &[DocumentedToken<'a>],
    end: u32,
) -> Result<Type<'a>, SyntaxFault>
    ensures { spec.GivesTree type_tree whole_type end (toks tokens.now) result }
{
    match whole_type(alloc, &mut Cursor::new(tokens)) {
        Ok(ty) => Ok(ty),
        Err(error) => Err(placed(error, tokens, end)),
    }
}

/// The type that the whole of `text` is. Places count from the text's start; what isn't a type is refused as
/// `parse_file` refuses a text.
pub fn parse_type(alloc: Global, text: &str) -> Result<Type<'_>, SyntaxFault>
    ensures found { IfOk result (λ t. IsType text.now (type_tree t)) }
    ensures only { (d : TypeTree) → IsType text.now d → AnswersText type_tree result d }
    ensures cause { IfErr result (IsSyntaxFault whole_type 0 text.now) }
    ensures large { 2 ^ 32 ≤ length text.now → result ≡ Err SyntaxFault.TooLarge }
{
    let tokens = read_tokens(alloc, text, 0)?;
    type_of(alloc, &tokens, end_of(text, 0))
}
