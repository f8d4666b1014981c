//! Files without the packages that are nested in them, and these as files of their own.

ghost use Rattle.std.specs.Prelude.{◌≡◌, List, ◌++◌, ◌∷◌, [], map, flat_map, IfOk, OnOk};
ghost use Rattle.wit_scopes.specs.Passed.wit_syntax-AstView as view;
ghost use Rattle.wit_nested.specs.Nested as spec;
ghost use Rattle.wit_nested.specs.View as seen;

use std::alloc::{AllocError, Global};
use wit_scopes::{AstItem, Docs, File, FileItem, Gated, Package, PackageHeader, push_to};

/// An item of a nested package as one of a file.
fn file_item<'a>(gated: Gated<'a, AstItem<'a>>) -> Gated<'a, FileItem<'a>>
    ensures { view.gated view.file_item result ≡ spec.file_item (view.gated view.ast_item gated.entry) }
{
    let Gated {
        docs,
        attributes,
        item,
        span,
    } = gated;
    Gated {
        docs,
        attributes,
        item: FileItem::Item(item),
        span,
    }
}

/// The items of a nested package as those of a file.
fn file_items<'a>(
    alloc: Global,
    items: Vec<Gated<'a, AstItem<'a>>>,
) -> Result<Vec<Gated<'a, FileItem<'a>>>, AllocError>
    ensures { IfOk result (λ v. map (view.gated view.file_item) v.items ≡ map spec.file_item (map (view.gated view.ast_item) items.entry.items)) }
{
    items.into_iter().map(file_item).collect(alloc)
}

/// A nested package as a file of its own, with the docs in front of it.
fn nested_file<'a>(
    alloc: Global,
    docs: Docs<'a>,
    package: Package<'a>,
) -> Result<File<'a>, AllocError>
    ensures { IfOk result (λ f. view.file f ≡ spec.nested_file (view.docs docs.entry) (view.nested_package «package».entry)) }
{
    let Package { name, items } = package;
    let items = file_items(alloc, items)?;
    Ok(File {
        package: Some(PackageHeader { docs, name }),
        items,
    })
}

/// Adds an item to those of its file, or to the nested packages where it is one.
fn add_item<'a>(
    alloc: Global,
    own: &mut Vec<Gated<'a, FileItem<'a>>>,
    nested: &mut Vec<File<'a>>,
    gated: Gated<'a, FileItem<'a>>,
) -> Result<(), AllocError>
    ensures own { OnOk result (map (view.gated view.file_item) own.new.items ≡ map (view.gated view.file_item) own.old.items ++ spec.own_item (view.gated view.file_item gated.entry)) }
    ensures nested { OnOk result (map view.file nested.new.items ≡ map view.file nested.old.items ++ spec.nested_item (view.gated view.file_item gated.entry)) }
{
    let Gated {
        docs,
        attributes,
        item,
        span,
    } = gated;
    match item {
        FileItem::Item(item) => push_to(
            own,
            Gated {
                docs,
                attributes,
                item: FileItem::Item(item),
                span,
            },
        ),
        FileItem::Package(package) => {
            let file = nested_file(alloc, docs, package)?;
            push_to(nested, file)
        }
    }
}

/// The items of a file that are its own; the packages that are nested in it go behind others.
fn own_items<'a>(
    alloc: Global,
    nested: &mut Vec<File<'a>>,
    items: Vec<Gated<'a, FileItem<'a>>>,
) -> Result<Vec<Gated<'a, FileItem<'a>>>, AllocError>
    ensures own { IfOk result (λ v. map (view.gated view.file_item) v.items ≡ flat_map spec.own_item (map (view.gated view.file_item) items.entry.items)) }
    ensures nested { OnOk result (map view.file nested.new.items ≡ map view.file nested.old.items ++ flat_map spec.nested_item (map (view.gated view.file_item) items.entry.items)) }
{
    let mut own = Vec::new(alloc);
    for gated in items {
        add_item(alloc, &mut own, nested, gated)?;
    }
    Ok(own)
}

/// Files, and apart from them the packages that are nested in them.
#[derive(Drop)]
pub struct PartedFiles<'a> {
    /// The files without the packages that are nested in them.
    pub own: Vec<File<'a>>,
    /// The nested packages, in the order of the files and of their texts, each as a file of its own.
    pub nested: Vec<File<'a>>,
}

/// Adds a file, and the packages that are nested in it.
fn add_file<'a>(
    alloc: Global,
    parted: &mut PartedFiles<'a>,
    file: File<'a>,
) -> Result<(), AllocError>
    ensures own { OnOk result (map view.file parted.new.own.items ≡ map view.file parted.old.own.items ++ spec.own_file (view.file file.entry) ∷ []) }
    ensures nested { OnOk result (map view.file parted.new.nested.items ≡ map view.file parted.old.nested.items ++ spec.nested_in (view.file file.entry)) }
{
    let File { package, items } = file;
    let items = own_items(alloc, &mut parted.nested, items)?;
    push_to(&mut parted.own, File { package, items })
}

/// Adds files, and the packages that are nested in them.
fn add_files<'a>(
    alloc: Global,
    parted: &mut PartedFiles<'a>,
    files: Vec<File<'a>>,
) -> Result<(), AllocError>
    requires { seen.AreParted [] parted.old }
    ensures { OnOk result (seen.AreParted (map view.file files.entry.items) parted.new) }
{
    for file in files {
        add_file(alloc, parted, file)?;
    }
    Ok(())
}

/// Files without the packages that are nested in them, and these apart, each as a file of its own with the docs in front of
/// it (WIT, Nested Packages).
pub fn parted_files<'a>(alloc: Global, files: Vec<File<'a>>) -> Result<PartedFiles<'a>, AllocError>
    ensures { IfOk result (seen.AreParted (map view.file files.entry.items)) }
{
    let mut parted = PartedFiles {
        own: Vec::new(alloc),
        nested: Vec::new(alloc),
    };
    add_files(alloc, &mut parted, files).and(Ok(parted))
}
