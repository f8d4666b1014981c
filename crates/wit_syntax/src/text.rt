//! Whole texts.

ghost use Rattle.std.specs.Prelude.{◌≡◌, ◌+◌, ◌^◌, ◌<◌, ◌≤◌, length, Err, IfOk, IfErr};
ghost use Rattle.wit_productions.specs.Passed.wit_words-Outcome.{AnswersText};
ghost use Rattle.wit_productions.specs.Passed.wit_words-Token.{toks};
ghost use Rattle.wit_productions.specs.Broken.{IsSyntaxFault};
ghost use Rattle.wit_productions.specs.WholeText as spec;
ghost use Rattle.wit_syntax.specs.Ast.{FileTree};
ghost use Rattle.wit_syntax.specs.AstView as view;
ghost use Rattle.wit_syntax.specs.FileGrammar.{file};
ghost use Rattle.wit_syntax.specs.WholeText.{IsText};

use crate::ast::File;
use crate::parse_files::file;
use std::alloc::Global;
use wit_productions::{Cursor, DocumentedToken, SyntaxFault, end_of, placed, read_tokens};

fn file_of<'a>(
    alloc: Global,
    tokens: &[DocumentedToken<'a>],
    end: u32,
) -> Result<File<'a>, SyntaxFault>
    ensures { spec.GivesTree view.file file end (toks tokens.now) result }
{
    match file(alloc, &mut Cursor::new(tokens)) {
        Ok(file) => Ok(file),
        Err(error) => Err(placed(error, tokens, end)),
    }
}

/// The tree of the whole of `text`, which begins at `offset`: spans count from there.
///
/// A text that isn't of the grammar is refused with `Broken`, the rule that it breaks, and where: a character, comment or
/// word there breaks it (S1, S2, S4), or the text is tokens, and none of the grammar begins with those before the place
/// and has the one there (S3, S5, S6, S7). `TooLarge`, S8, comes first, where the text would end more than 4,294,967,295
/// bytes behind the place that spans count from.
pub fn parse_file<'a>(alloc: Global, text: &'a str, offset: u32) -> Result<File<'a>, SyntaxFault>
    ensures found { IfOk result (λ f. IsText offset text.now (view.file f)) }
    ensures only { (d : FileTree) → IsText offset text.now d → AnswersText view.file result d }
    ensures cause { IfErr result (IsSyntaxFault file offset text.now) }
    ensures large { 2 ^ 32 ≤ offset + length text.now → result ≡ Err SyntaxFault.TooLarge }
{
    let tokens = read_tokens(alloc, text, offset)?;
    file_of(alloc, &tokens, end_of(text, offset))
}
