//! Files of a package that come one by one.

ghost use Rattle.std.specs.Prelude.{◌≡◌, ◌++◌, ◌∷◌, [], map, IfOk, IfErr, OnOk, OnErr};
ghost use Rattle.wit_syntax.specs.AstView as view;
ghost use Rattle.wit_package.specs.Steps as spec;

use crate::resolve::resolved_files;
use std::alloc::{AllocError, Global};
use wit_rules::PackageFault;
use wit_scopes::push_to;
use wit_syntax::File;
use wit_types::UnresolvedPackage;

/// The files of a package, before they are resolved (WIT, Packages).
#[derive(Drop)]
pub struct Resolver<'a> {
    /// The files so far.
    pub files: Vec<File<'a>>,
}

impl<'a> Resolver<'a> {
    /// No file.
    pub fn new(alloc: Global) -> Resolver<'a>
        ensures { result.files.items ≡ [] }
    {
        Resolver {
            files: Vec::new(alloc),
        }
    }

    /// Adds a file behind the others. Where memory is wanting the file is let go, and the others stay.
    pub fn push(&mut self, file: File<'a>) -> Result<(), AllocError>
        ensures ok { OnOk result (self.new.files.items ≡ self.old.files.items ++ file.entry ∷ []) }
        ensures err { OnErr result (self.new.files.items ≡ self.old.files.items) }
    {
        push_to(&mut self.files, file)
    }

    /// What the files are resolved to, or why they are refused, as `resolved_files` answers.
    pub fn resolve(self, alloc: Global) -> Result<UnresolvedPackage, PackageFault>
        ensures ok { IfOk result (spec.Resolves (map view.file self.entry.files.items)) }
        ensures cause { IfErr result (spec.Refuses (map view.file self.entry.files.items)) }
    {
        resolved_files(alloc, self.files)
    }
}
