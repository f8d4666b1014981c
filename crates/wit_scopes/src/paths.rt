//! What paths name.

ghost use Rattle.std.specs.Prelude.{◌≡◌, ℕ, List, ◌++◌, ◌∷◌, [], map, option_map, unwrap_or, IfOk, OnOk};
ghost use Rattle.wit_syntax.specs.Ast.{ToplevelUseTree};
ghost use Rattle.wit_syntax.specs.AstView as view;
ghost use Rattle.wit_scopes.specs.Paths as spec;
ghost use Rattle.wit_scopes.specs.View as seen;

use indexmap::IndexMap;
use std::alloc::{AllocError, Global};
use wit_syntax::{AstItem, FileItem, Gated, Id, PackageName, ToplevelUse, UsePath};

/// What a path names (WIT, Use, Top-Level Use).
#[derive(Clone, Copy, Debug)]
pub enum Target<'a> {
    /// An interface or a world of the own package.
    Own(Id<'a>),
    /// An interface or a world of another package.
    Foreign {
        /// The package.
        package: PackageName<'a>,
        /// The name in it.
        name: Id<'a>,
    },
}

/// Whether two names are those of one package: by their texts.
pub fn is_same_package<'a>(a: &PackageName<'a>, b: &PackageName<'a>) -> bool
    ensures { result ≡ spec.same_package (view.package_name a.now) (view.package_name b.now) }
{
    a.namespace == b.namespace && a.name == b.name && a.version == b.version
}

/// What a path names by itself, in a package of that name.
pub fn path_by_itself<'a>(me: &PackageName<'a>, path: &UsePath<'a>) -> Target<'a>
    ensures { seen.target result ≡ spec.by_itself (view.package_name me.now) (view.use_path path.now) }
{
    match path {
        UsePath::Id(name) => Target::Own(*name),
        UsePath::Package { id, name } => {
            if is_same_package(me, id) {
                Target::Own(*name)
            } else {
                Target::Foreign {
                    package: *id,
                    name: *name,
                }
            }
        }
    }
}

/// The name of what a path names.
pub fn last_name<'a>(path: &UsePath<'a>) -> Id<'a>
    ensures { view.id result ≡ spec.last_name (view.use_path path.now) }
{
    match path {
        UsePath::Id(name) => *name,
        UsePath::Package { name, .. } => *name,
    }
}

/// The name by which a `use` at the top of a file makes something known in it.
pub fn known_name<'a>(item: &ToplevelUse<'a>) -> Id<'a>
    ensures { view.id result ≡ spec.known_name (view.toplevel_use item.now) }
{
    match item.as_ {
        Some(name) => name,
        None => last_name(&item.item),
    }
}

/// What the `use` statements at the top of a file make known in it, where its package has some name.
#[derive(Drop)]
pub struct FileUses<'a> {
    me: PackageName<'a>,
    known: IndexMap<&'a str, Target<'a>>,
}

impl<'a> FileUses<'a> {
    /// What the items of a file make known.
    pub fn new(
        alloc: Global,
        me: PackageName<'a>,
        items: &[Gated<'a, FileItem<'a>>],
    ) -> Result<FileUses<'a>, AllocError>
        ensures { IfOk result (seen.AreUses (view.package_name me.entry) (spec.item_uses (map (view.gated view.file_item) items.now))) }
    {
        let mut uses = FileUses {
            me,
            known: IndexMap::new(alloc),
        };
        for gated in items {
            uses.add_item(&gated.item)?;
        }
        Ok(uses)
    }

    /// Adds a statement behind the others: the first of a name counts.
    fn add(&mut self, item: &ToplevelUse<'a>) -> Result<(), AllocError>
        ensures me { self.new.me ≡ self.old.me }
        ensures known { OnOk result ((name : List ℕ) → seen.known_target self.new name ≡ spec.or_target (seen.known_target self.old name) (spec.used_target (view.package_name self.old.me) (view.toplevel_use item.now ∷ []) name)) }
    {
        let name = known_name(item).name;
        if !self.known.contains_key(name) {
            self.known
                .insert(name, path_by_itself(&self.me, &item.item))?;
        }
        Ok(())
    }

    /// Adds what an item of a file makes known.
    fn add_item(&mut self, item: &FileItem<'a>) -> Result<(), AllocError>
        ensures me { self.new.me ≡ self.old.me }
        ensures known { OnOk result ((name : List ℕ) → seen.known_target self.new name ≡ spec.or_target (seen.known_target self.old name) (spec.used_target (view.package_name self.old.me) (spec.file_item_uses (view.file_item item.now)) name)) }
    {
        match item {
            FileItem::Item(AstItem::Use(item)) => self.add(item),
            _ => Ok(()),
        }
    }

    /// What a path names in the file: its `use` names come before the names of the package.
    pub fn target(&self, path: &UsePath<'a>) -> Target<'a>
        ensures { (us : List ToplevelUseTree) → seen.AreUses (view.package_name self.now.me) us self.now → seen.target result ≡ spec.target (view.package_name self.now.me) us (view.use_path path.now) }
    {
        match path {
            UsePath::Id(name) => match self.known.get(name.name) {
                Some(target) => *target,
                None => Target::Own(*name),
            },
            UsePath::Package { .. } => path_by_itself(&self.me, path),
        }
    }
}
