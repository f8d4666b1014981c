//! From tokens to whole trees.

ghost use Rattle.std.specs.Prelude.{◌≡◌, ◌∷◌, List, length, map, IfOk, IfErr};
ghost use Rattle.wit_syntax.specs.AstView as view;
ghost use Rattle.wit_syntax.specs.FileGrammar as spec;
ghost use Rattle.wit_productions.specs.Production.{Reads, next_at};
ghost use Rattle.wit_productions.specs.declared.fault.ReadError.TheVariants.{Memory};
ghost use Rattle.wit_productions.specs.Passed.wit_words-Token.{Tok, plain};

use crate::ast::{AstItem, File, FileItem, Package, PackageHeader};
use crate::parse_worlds::world_behind;
use std::alloc::Global;
use wit_items::{Attribute, Gated, attribute, attributes, interface_behind, toplevel_use_behind};
use wit_productions::{
    Cursor, Docs, Kind, PackageName, Part, ReadError, Rule, Span, Token, all, fault_at,
    package_name, until,
};

/// An item of a package behind its keyword, before which `left` tokens were left.
fn ast_item_behind<'a>(
    alloc: Global,
    keyword: Kind,
    left: usize,
    tokens: &mut Cursor<'_, 'a>,
) -> Result<AstItem<'a>, ReadError>
    ensures { (whole : List Tok) → length whole ≡ left → Reads view.ast_item result tokens.new (next_at whole (spec.ast_item_at (plain keyword)) tokens.old) }
{
    match keyword {
        Kind::Use => Ok(AstItem::Use(toplevel_use_behind(tokens)?)),
        Kind::Interface => Ok(AstItem::Interface(interface_behind(alloc, tokens)?)),
        Kind::World => Ok(AstItem::World(world_behind(alloc, tokens)?)),
        _ => Err(fault_at(Rule::Unexpected, left)),
    }
}

impl<'a> Part<'a> for AstItem<'a> {
    ghost use Rattle.wit_syntax.specs.Ast.{AstItemTree};
    ghost use Rattle.wit_syntax.specs.AstView as view;
    ghost use Rattle.wit_syntax.specs.FileGrammar as spec;

    ghost Tree = { AstItemTree };

    ghost production = { spec.ast_item };

    ghost tree = { view.ast_item };

    #[tactic(auto, unfolding(crate::specs::FileGrammar::ast_item))]
    fn parse(alloc: Global, tokens: &mut Cursor<'_, 'a>) -> Result<AstItem<'a>, ReadError> {
        let left = tokens.left();
        let Some((Token::Plain(keyword), _)) = tokens.next() else {
            return Err(fault_at(Rule::Unexpected, left));
        };
        ast_item_behind(alloc, keyword, left, tokens)
    }
}

/// The items of a package within a file, in braces.
#[tactic(auto, unfolding(crate::specs::FileGrammar::package_items), using(crate::proofs::FileLaws::ast_item_takes))]
fn package_items<'a>(
    alloc: Global,
    name: PackageName<'a>,
    tokens: &mut Cursor<'_, 'a>,
) -> Result<Package<'a>, ReadError>
    ensures { Reads view.nested_package result tokens.new ((spec.package_items (view.package_name name.entry)).read tokens.old) }
{
    tokens.expect(Kind::LeftBrace)?;
    let items = until::<Gated<'a, AstItem<'a>>>(alloc, Kind::RightBrace, tokens)?;
    Ok(Package { name, items })
}

/// An item of a file behind its keyword, before which `left` tokens were left.
fn file_item_behind<'a>(
    alloc: Global,
    keyword: Kind,
    left: usize,
    tokens: &mut Cursor<'_, 'a>,
) -> Result<FileItem<'a>, ReadError>
    ensures { (whole : List Tok) → length whole ≡ left → Reads view.file_item result tokens.new (next_at whole (spec.file_item_at (plain keyword)) tokens.old) }
{
    match keyword {
        Kind::Package => {
            let name = package_name(tokens)?;
            Ok(FileItem::Package(package_items(alloc, name, tokens)?))
        }
        _ => Ok(FileItem::Item(ast_item_behind(alloc, keyword, left, tokens)?)),
    }
}

impl<'a> Part<'a> for FileItem<'a> {
    ghost use Rattle.wit_syntax.specs.Ast.{FileItemTree};
    ghost use Rattle.wit_syntax.specs.AstView as view;
    ghost use Rattle.wit_syntax.specs.FileGrammar as spec;

    ghost Tree = { FileItemTree };

    ghost production = { spec.file_item };

    ghost tree = { view.file_item };

    #[tactic(auto, unfolding(crate::specs::FileGrammar::file_item))]
    fn parse(alloc: Global, tokens: &mut Cursor<'_, 'a>) -> Result<FileItem<'a>, ReadError> {
        let left = tokens.left();
        let Some((Token::Plain(keyword), _)) = tokens.next() else {
            return Err(fault_at(Rule::Unexpected, left));
        };
        file_item_behind(alloc, keyword, left, tokens)
    }
}

/// What stands first in a file where no attribute does.
#[derive(Drop)]
pub enum Opening<'a> {
    /// The name of the file's package.
    Header(PackageName<'a>),
    /// An item.
    Item(FileItem<'a>),
}

/// What stands first in a file.
#[derive(Drop)]
pub enum First<'a> {
    /// The name of the file's package.
    Header(PackageName<'a>),
    /// An item and where it stands, behind its attributes.
    Item(Vec<Attribute<'a>>, Span, FileItem<'a>),
}

/// What stands behind `package` at the front of a file.
#[tactic(auto, unfolding(crate::specs::FileGrammar::package_opening, wit_productions::specs::Production::branch))]
fn package_opening<'a>(alloc: Global, tokens: &mut Cursor<'_, 'a>) -> Result<Opening<'a>, ReadError>
    ensures { Reads view.opening result tokens.new (spec.package_opening.read tokens.old) }
{
    let name = package_name(tokens)?;
    if tokens.eat(Kind::Semicolon) {
        return Ok(Opening::Header(name));
    }
    let package = package_items(alloc, name, tokens)?;
    Ok(Opening::Item(FileItem::Package(package)))
}

#[tactic(auto, unfolding(crate::specs::FileGrammar::opening, wit_productions::specs::Production::branch))]
fn opening_of<'a>(alloc: Global, tokens: &mut Cursor<'_, 'a>) -> Result<Opening<'a>, ReadError>
    ensures { Reads view.opening result tokens.new (spec.opening.read tokens.old) }
{
    if tokens.eat(Kind::Package) {
        return package_opening(alloc, tokens);
    }
    let item = AstItem::parse(alloc, tokens)?;
    Ok(Opening::Item(FileItem::Item(item)))
}

/// All attributes of an item, behind the `@` of the first.
#[tactic(auto, unfolding(crate::specs::FileGrammar::gates))]
fn gates<'a>(alloc: Global, tokens: &mut Cursor<'_, 'a>) -> Result<Vec<Attribute<'a>>, ReadError>
    ensures { Reads (λ v. map view.attribute v.items) result tokens.new (spec.gates.read tokens.old) }
{
    let first = attribute(tokens)?;
    let mut attributes = attributes(alloc, tokens)?;
    attributes.insert(0, first)?;
    Ok(attributes)
}

/// An item behind the `@` of its first attribute.
#[tactic(auto, unfolding(wit_productions::specs::Production::located), using(crate::proofs::FileParts::gated_first_reads))]
fn gated_first<'a>(alloc: Global, tokens: &mut Cursor<'_, 'a>) -> Result<First<'a>, ReadError>
    ensures { Reads view.first result tokens.new (spec.gated_first.read tokens.old) }
{
    let attributes = gates(alloc, tokens)?;
    let start = tokens.here();
    let item = FileItem::parse(alloc, tokens)?;
    Ok(First::Item(attributes, tokens.span_from(start), item))
}

/// What stands first, where no attribute does, and where.
fn first_at<'a>(alloc: Global, opening: Opening<'a>, span: Span) -> First<'a>
    ensures { view.first result ≡ spec.without_gates (span, view.opening opening.entry) }
{
    match opening {
        Opening::Header(name) => First::Header(name),
        Opening::Item(item) => First::Item(Vec::new(alloc), span, item),
    }
}

#[tactic(auto, unfolding(crate::specs::FileGrammar::first, wit_productions::specs::Production::branch, wit_productions::specs::Production::located))]
fn first_of<'a>(alloc: Global, tokens: &mut Cursor<'_, 'a>) -> Result<First<'a>, ReadError>
    ensures { Reads view.first result tokens.new (spec.first.read tokens.old) }
{
    if tokens.eat(Kind::At) {
        return gated_first(alloc, tokens);
    }
    let start = tokens.here();
    let opening = opening_of(alloc, tokens)?;
    Ok(first_at(alloc, opening, tokens.span_from(start)))
}

/// A whole file.
#[tactic(auto, unfolding(crate::specs::FileGrammar::file))]
pub fn file<'a>(alloc: Global, tokens: &mut Cursor<'_, 'a>) -> Result<File<'a>, ReadError>
    ensures { Reads view.file result tokens.new (spec.file.read tokens.old) }
{
    if tokens.left() == 0 {
        return Ok(File {
            package: None,
            items: Vec::new(alloc),
        });
    }
    documented_file(alloc, tokens)
}

/// The same of one that isn't empty.
#[tactic(auto, unfolding(crate::specs::FileGrammar::some_file, wit_productions::specs::Production::documented), using(crate::proofs::FileLaws::file_item_takes))]
fn documented_file<'a>(alloc: Global, tokens: &mut Cursor<'_, 'a>) -> Result<File<'a>, ReadError>
    ensures { Reads view.file result tokens.new (spec.some_file.read tokens.old) }
{
    let docs = tokens.docs(alloc)?;
    let first = first_of(alloc, tokens)?;
    let items = all::<Gated<'a, FileItem<'a>>>(alloc, tokens)?;
    with_first(docs, first, items)
}

/// The same items behind another.
fn behind<T: Drop>(first: T, mut items: Vec<T>) -> Result<Vec<T>, ReadError>
    ensures all { IfOk result (λ v. v.items ≡ first ∷ items.items) }
    ensures refused { IfErr result (λ e. e ≡ Memory) }
{
    items.insert(0, first)?;
    Ok(items)
}

/// The file that begins so.
fn with_first<'a>(
    docs: Docs<'a>,
    first: First<'a>,
    items: Vec<Gated<'a, FileItem<'a>>>,
) -> Result<File<'a>, ReadError>
    ensures found { IfOk result (λ f. view.file f ≡ spec.file_of (view.docs docs.entry) (view.first first.entry) (map (view.gated view.file_item) items.entry.items)) }
    ensures refused { IfErr result (λ e. e ≡ Memory) }
{
    match first {
        First::Header(name) => Ok(File {
            package: Some(PackageHeader { docs, name }),
            items,
        }),
        First::Item(attributes, span, item) => {
            let first = Gated {
                docs,
                attributes,
                item,
                span,
            };
            Ok(File {
                package: None,
                items: behind(first, items)?,
            })
        }
    }
}
