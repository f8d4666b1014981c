//! The interfaces and worlds of a package.

ghost use Rattle.std.specs.Prelude.{◌≡◌, List, ◌++◌, ◌∷◌, [], map, option_map, IfOk, OnOk};
ghost use Rattle.wit_words.specs.Token.{comment};
ghost use Rattle.wit_syntax.specs.Ast.{ToplevelUseTree};
ghost use Rattle.wit_scopes.specs.Paths.{file_item_uses, item_uses};
ghost use Rattle.wit_syntax.specs.AstView as view;
ghost use Rattle.wit_scopes.specs.Scopes as spec;
ghost use Rattle.wit_scopes.specs.View as seen;

use crate::members::add_members;
use crate::worlds::world_members;
use std::alloc::{AllocError, Global};
use wit_scopes::{FileUses, Front, InterfaceScope, ItemScope, PackageScopes, WorldScope, push_to};
use wit_syntax::{
    AstItem, Comment, Docs, File, FileItem, Gated, Interface, PackageHeader, PackageName, Span,
    ToplevelUse, World,
};

/// An interface with all that it declares.
fn interface_scope<'a>(
    alloc: Global,
    uses: &FileUses<'a>,
    file: usize,
    front: Front<'a>,
    at: Span,
    interface: Interface<'a>,
) -> Result<InterfaceScope<'a>, AllocError>
    ensures { (us : List ToplevelUseTree) → seen.AreUses (view.package_name uses.now.me) us uses.now → IfOk result (λ s. seen.interface_scope s ≡ spec.interface_scope (view.package_name uses.now.me) us file (seen.front front.entry at) (view.interface interface.entry)) }
{
    let Interface { name, items } = interface;
    let mut members = Vec::new(alloc);
    // Most items declare one name.
    members.reserve_exact(items.len())?;
    add_members(alloc, &mut members, uses, items)?;
    Ok(InterfaceScope {
        name,
        members,
        front,
        span: at,
        file,
    })
}

/// A world with all that it declares.
fn world_scope<'a>(
    alloc: Global,
    uses: &FileUses<'a>,
    file: usize,
    front: Front<'a>,
    at: Span,
    world: World<'a>,
) -> Result<WorldScope<'a>, AllocError>
    ensures { (us : List ToplevelUseTree) → seen.AreUses (view.package_name uses.now.me) us uses.now → IfOk result (λ s. seen.world_scope s ≡ spec.world_scope (view.package_name uses.now.me) us file (seen.front front.entry at) (view.world world.entry)) }
{
    let World { name, items } = world;
    let members = world_members(alloc, uses, items)?;
    Ok(WorldScope {
        name,
        members,
        front,
        span: at,
        file,
    })
}

/// Adds the interface or world that an item of a file is.
fn add_item<'a>(
    alloc: Global,
    found: &mut Vec<ItemScope<'a>>,
    uses: &FileUses<'a>,
    file: usize,
    gated: Gated<'a, FileItem<'a>>,
) -> Result<(), AllocError>
    ensures { (us : List ToplevelUseTree) → seen.AreUses (view.package_name uses.now.me) us uses.now → OnOk result (map seen.item_scope found.new.items ≡ map seen.item_scope found.old.items ++ spec.file_item_scopes (view.package_name uses.now.me) us file (view.gated view.file_item gated.entry) (view.file_item gated.entry.item)) }
{
    let Gated {
        docs,
        attributes,
        item,
        span,
    } = gated;
    let front = Front { docs, attributes };
    match item {
        FileItem::Item(AstItem::Interface(interface)) => {
            let scope = interface_scope(alloc, uses, file, front, span, interface)?;
            push_to(found, ItemScope::Interface(scope))
        }
        FileItem::Item(AstItem::World(world)) => {
            let scope = world_scope(alloc, uses, file, front, span, world)?;
            push_to(found, ItemScope::World(scope))
        }
        FileItem::Item(AstItem::Use(_)) | FileItem::Package(_) => Ok(()),
    }
}

/// Adds the interfaces and worlds of a file.
fn add_items<'a>(
    alloc: Global,
    found: &mut Vec<ItemScope<'a>>,
    me: PackageName<'a>,
    number: usize,
    items: Vec<Gated<'a, FileItem<'a>>>,
) -> Result<(), AllocError>
    ensures { OnOk result (map seen.item_scope found.new.items ≡ map seen.item_scope found.old.items ++ spec.items_scopes (view.package_name me.entry) number (map (view.gated view.file_item) items.entry.items)) }
{
    // A local: what a parameter holds is proved less cheaply to be lent and then let go.
    let items = items;
    let uses = FileUses::new(alloc, me, items.as_slice())?;
    for gated in items {
        add_item(alloc, found, &uses, number, gated)?;
    }
    Ok(())
}

/// Adds an item of a file that is a `use`.
fn add_use<'a>(found: &mut Vec<ToplevelUse<'a>>, item: &FileItem<'a>) -> Result<(), AllocError>
    ensures { OnOk result (map view.toplevel_use found.new.items ≡ map view.toplevel_use found.old.items ++ file_item_uses (view.file_item item.now)) }
{
    if let FileItem::Item(AstItem::Use(item)) = item {
        found.push(*item)?;
    }
    Ok(())
}

/// The `use` statements at the top of a file.
fn top_uses<'a>(
    alloc: Global,
    items: &[Gated<'a, FileItem<'a>>],
) -> Result<Vec<ToplevelUse<'a>>, AllocError>
    ensures { IfOk result (λ v. map view.toplevel_use v.items ≡ item_uses (map (view.gated view.file_item) items.now)) }
{
    let mut found = Vec::new(alloc);
    for gated in items {
        add_use(&mut found, &gated.item)?;
    }
    Ok(found)
}

/// Takes the docs of a header, where nothing is said yet.
fn add_docs<'a>(
    found: &mut Vec<Comment<'a>>,
    header: &Option<PackageHeader<'a>>,
) -> Result<(), AllocError>
    ensures { OnOk result (map comment found.new.items ≡ spec.or_docs (map comment found.old.items) (spec.header_docs (option_map view.header header.now))) }
{
    match header {
        Some(header) if found.is_empty() => {
            found.extend_from_slice(header.docs.comments.as_slice())
        }
        _ => Ok(()),
    }
}

/// Adds what stands at the head of a file: docs of its package, and `use` statements.
fn add_head<'a>(
    alloc: Global,
    found: &mut PackageScopes<'a>,
    file: &File<'a>,
) -> Result<(), AllocError>
    ensures docs { OnOk result (view.docs found.new.docs ≡ spec.or_docs (view.docs found.old.docs) (spec.header_docs (view.file file.now).header)) }
    ensures uses { OnOk result (seen.uses found.new.uses.items ≡ seen.uses found.old.uses.items ++ item_uses (view.file file.now).items ∷ []) }
    ensures items { found.new.items ≡ found.old.items }
{
    add_docs(&mut found.docs.comments, &file.package)?;
    let statements = top_uses(alloc, file.items.as_slice())?;
    found.uses.push(statements)?;
    Ok(())
}

/// Adds what a file declares.
fn add_file<'a>(
    alloc: Global,
    found: &mut PackageScopes<'a>,
    me: PackageName<'a>,
    number: usize,
    file: File<'a>,
) -> Result<(), AllocError>
    ensures docs { OnOk result (view.docs found.new.docs ≡ spec.or_docs (view.docs found.old.docs) (spec.header_docs (view.file file.entry).header)) }
    ensures uses { OnOk result (seen.uses found.new.uses.items ≡ seen.uses found.old.uses.items ++ item_uses (view.file file.entry).items ∷ []) }
    ensures items { OnOk result (map seen.item_scope found.new.items.items ≡ map seen.item_scope found.old.items.items ++ spec.items_scopes (view.package_name me.entry) number (view.file file.entry).items) }
{
    add_head(alloc, found, &file)?;
    add_items(alloc, &mut found.items, me, number, file.items)
}

/// Adds what files declare.
fn add_files<'a>(
    alloc: Global,
    found: &mut PackageScopes<'a>,
    me: PackageName<'a>,
    files: Vec<File<'a>>,
) -> Result<(), AllocError>
    requires { seen.IsEmpty found.old }
    ensures { OnOk result (seen.ArePackageScopes (view.package_name me.entry) (map view.file files.entry.items) found.new) }
{
    let mut number = 0;
    for file in files {
        add_file(alloc, found, me, number, file)?;
        number += 1;
    }
    Ok(())
}

/// What the files of a package of that name declare: what is said of it, what is used at the top of each file, and its
/// interfaces and worlds in the order of its files and of their texts, each with all that it declares, one name at a time, and
/// with what the paths in it name. A package that is nested in a file is none of the file's own.
pub fn package_scopes<'a>(
    alloc: Global,
    me: PackageName<'a>,
    files: Vec<File<'a>>,
) -> Result<PackageScopes<'a>, AllocError>
    ensures { IfOk result (seen.ArePackageScopes (view.package_name me.entry) (map view.file files.entry.items)) }
{
    let docs = Docs {
        comments: Vec::new(alloc),
    };
    let mut found = PackageScopes {
        docs,
        uses: Vec::new(alloc),
        items: Vec::new(alloc),
    };
    add_files(alloc, &mut found, me, files).and(Ok(found))
}
