//! The paths that stand in a file.

ghost use Rattle.std.specs.Prelude.{◌≡◌, ◌++◌, map, IfOk, OnOk};
ghost use Rattle.wit_syntax.specs.AstView as view;
ghost use Rattle.wit_syntax.specs.Paths as spec;
ghost use Rattle.wit_syntax.specs.Paths.{paths};

use crate::ast::{AstItem, ExternKind, File, FileItem, WorldItem};
use std::alloc::{AllocError, Global};
use wit_items::{Gated, InterfaceItem, Use, UseName};
use wit_productions::UsePath;

/// What a path is for.
#[derive(Clone, Copy)]
pub enum PathRole<'t, 'a> {
    /// `use path;` at the top of a file or package: an interface or a world.
    TopLevel,
    /// `use path.{name, ..};`: an interface, of which these names are taken.
    Use(&'t [UseName<'a>]),
    /// `import path;` or `export path;`: an interface.
    Extern,
    /// `include path ..`: a world.
    Include,
}

/// A path of a file.
#[derive(Clone, Copy)]
pub struct FilePath<'t, 'a> {
    /// The path.
    pub path: &'t UsePath<'a>,
    /// What it is for.
    pub role: PathRole<'t, 'a>,
}

impl<'a> File<'a> {
    /// Each path of the file in the order in which they stand there, those of its nested packages too, and what each is
    /// for (WIT, Use, Top-Level Use, Item: `world`).
    pub fn paths<'t>(&'t self, alloc: Global) -> Result<Vec<FilePath<'t, 'a>>, AllocError>
        ensures { IfOk result (λ v. paths v.items ≡ spec.file_paths (view.file self.now)) }
    {
        let mut found = Vec::new(alloc);
        add_of_file(&mut found, &self.items)?;
        Ok(found)
    }
}

fn add<'t, 'a>(
    found: &mut Vec<FilePath<'t, 'a>>,
    path: &'t UsePath<'a>,
    role: PathRole<'t, 'a>,
) -> Result<(), AllocError>
    ensures { OnOk result (paths found.new.items ≡ paths found.old.items ++ spec.one (view.use_path path.now) (spec.role role.entry)) }
{
    found.push(FilePath { path, role })?;
    Ok(())
}

fn add_of_use<'t, 'a>(
    found: &mut Vec<FilePath<'t, 'a>>,
    item: &'t Use<'a>,
) -> Result<(), AllocError>
    ensures { OnOk result (paths found.new.items ≡ paths found.old.items ++ spec.use_paths (view.uses item.now)) }
{
    add(found, &item.from, PathRole::Use(&item.names))
}

fn add_of_interface<'t, 'a>(
    found: &mut Vec<FilePath<'t, 'a>>,
    items: &'t [Gated<'a, InterfaceItem<'a>>],
) -> Result<(), AllocError>
    ensures { OnOk result (paths found.new.items ≡ paths found.old.items ++ spec.interface_paths (map (view.gated view.interface_item) items.now)) }
{
    for gated in items {
        if let InterfaceItem::Use(item) = &gated.item {
            add_of_use(found, item)?;
        }
    }
    Ok(())
}

fn add_of_extern<'t, 'a>(
    found: &mut Vec<FilePath<'t, 'a>>,
    kind: &'t ExternKind<'a>,
) -> Result<(), AllocError>
    ensures { OnOk result (paths found.new.items ≡ paths found.old.items ++ spec.extern_paths (view.extern_kind kind.now)) }
{
    match kind {
        ExternKind::Func(_) => Ok(()),
        ExternKind::Interface(interface) => add_of_interface(found, &interface.items),
        ExternKind::Path(path) => add(found, path, PathRole::Extern),
    }
}

fn add_of_world_item<'t, 'a>(
    found: &mut Vec<FilePath<'t, 'a>>,
    item: &'t WorldItem<'a>,
) -> Result<(), AllocError>
    ensures { OnOk result (paths found.new.items ≡ paths found.old.items ++ spec.world_item_paths (view.world_item item.now)) }
{
    match item {
        WorldItem::Import(kind) | WorldItem::Export(kind) => add_of_extern(found, kind),
        WorldItem::Use(item) => add_of_use(found, item),
        WorldItem::TypeDef(_) => Ok(()),
        WorldItem::Include(include) => add(found, &include.from, PathRole::Include),
    }
}

fn add_of_world<'t, 'a>(
    found: &mut Vec<FilePath<'t, 'a>>,
    items: &'t [Gated<'a, WorldItem<'a>>],
) -> Result<(), AllocError>
    ensures { OnOk result (paths found.new.items ≡ paths found.old.items ++ spec.world_paths (map (view.gated view.world_item) items.now)) }
{
    for gated in items {
        add_of_world_item(found, &gated.item)?;
    }
    Ok(())
}

fn add_of_ast_item<'t, 'a>(
    found: &mut Vec<FilePath<'t, 'a>>,
    item: &'t AstItem<'a>,
) -> Result<(), AllocError>
    ensures { OnOk result (paths found.new.items ≡ paths found.old.items ++ spec.ast_item_paths (view.ast_item item.now)) }
{
    match item {
        AstItem::Use(item) => add(found, &item.item, PathRole::TopLevel),
        AstItem::Interface(interface) => add_of_interface(found, &interface.items),
        AstItem::World(world) => add_of_world(found, &world.items),
    }
}

fn add_of_package<'t, 'a>(
    found: &mut Vec<FilePath<'t, 'a>>,
    items: &'t [Gated<'a, AstItem<'a>>],
) -> Result<(), AllocError>
    ensures { OnOk result (paths found.new.items ≡ paths found.old.items ++ spec.package_paths (map (view.gated view.ast_item) items.now)) }
{
    for gated in items {
        add_of_ast_item(found, &gated.item)?;
    }
    Ok(())
}

fn add_of_file_item<'t, 'a>(
    found: &mut Vec<FilePath<'t, 'a>>,
    item: &'t FileItem<'a>,
) -> Result<(), AllocError>
    ensures { OnOk result (paths found.new.items ≡ paths found.old.items ++ spec.file_item_paths (view.file_item item.now)) }
{
    match item {
        FileItem::Item(item) => add_of_ast_item(found, item),
        FileItem::Package(package) => add_of_package(found, &package.items),
    }
}

fn add_of_file<'t, 'a>(
    found: &mut Vec<FilePath<'t, 'a>>,
    items: &'t [Gated<'a, FileItem<'a>>],
) -> Result<(), AllocError>
    ensures { OnOk result (paths found.new.items ≡ paths found.old.items ++ spec.of_each spec.file_item_paths (map (view.gated view.file_item) items.now)) }
{
    for gated in items {
        add_of_file_item(found, &gated.item)?;
    }
    Ok(())
}
