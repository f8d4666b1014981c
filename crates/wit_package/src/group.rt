//! Packages by their texts.

ghost use Rattle.std.specs.Prelude.{◌≡◌, ◌⊎◌, ◌++◌, ◌∷◌, [], ℕ, map, IfOk, IfErr, OnOk, OnErr};
ghost use Rattle.wit_words.specs.Sources.{total};
ghost use Rattle.wit_syntax.specs.Ast.{FileTree};
ghost use Rattle.wit_syntax.specs.AstView as view;
ghost use Rattle.wit_syntax.specs.WholeText.{IsText};
ghost use Rattle.wit_package.specs.Group as spec;
ghost use Rattle.wit_package.specs.GroupView as seen;
ghost use Rattle.wit_package.specs.Steps.{Resolves, Refuses};
ghost use Rattle.wit_rules.specs.declared.fault.PackageFault.TheVariants as faults;

use crate::resolve::resolved_files;
use std::alloc::Global;
use wit_nested::{PartedFiles, parted_files};
use wit_rules::PackageFault;
use wit_scopes::push_to;
use wit_syntax::{File, SourceFault, SourceMap, SyntaxFault, parse_file};
use wit_types::UnresolvedPackage;

/// A package by its texts, with the packages that are nested in them (WIT, Packages, Nested Packages).
#[derive(Drop)]
pub struct UnresolvedPackageGroup {
    /// The package of the texts.
    pub main: UnresolvedPackage,
    /// The packages that are nested in them, in the order of the texts.
    pub nested: Vec<UnresolvedPackage>,
    /// The texts.
    pub source_map: SourceMap,
}

/// The packages of files: their own, and those that are nested in them.
#[derive(Drop)]
struct Packages {
    main: UnresolvedPackage,
    nested: Vec<UnresolvedPackage>,
}

/// The same fault of a package.
fn source_fault(fault: SourceFault) -> PackageFault
    ensures { spec.IsSourceFault fault result }
{
    match fault {
        SourceFault::TooLarge => PackageFault::Syntax(SyntaxFault::TooLarge),
        SourceFault::OutOfMemory => PackageFault::OutOfMemory,
    }
}

/// The same fault of a package.
fn syntax_fault(fault: SyntaxFault) -> PackageFault
    ensures { (result ≡ faults.OutOfMemory) ⊎ (result ≡ faults.Syntax fault) }
{
    match fault {
        SyntaxFault::OutOfMemory => PackageFault::OutOfMemory,
        _ => PackageFault::Syntax(fault),
    }
}

/// Adds the tree of a text that begins at a place.
fn add_tree<'t>(
    alloc: Global,
    files: &mut Vec<File<'t>>,
    text: &'t str,
    offset: u32,
) -> Result<(), PackageFault>
    ensures read { OnOk result ((f : FileTree) × IsText offset text.entry.now f × (seen.trees files.new.items ≡ seen.trees files.old.items ++ f ∷ [])) }
    ensures cause { IfErr result (spec.IsTextFault offset text.entry.now) }
{
    match parse_file(alloc, text, offset) {
        Ok(file) => Ok(push_to(files, file)?),
        Err(fault) => Err(syntax_fault(fault)),
    }
}

/// Adds a text to the map, and its tree to the files.
fn add_text<'t>(
    alloc: Global,
    map: &mut SourceMap,
    files: &mut Vec<File<'t>>,
    path: &str,
    text: &'t str,
) -> Result<(), PackageFault>
    requires { spec.AreRead map.old (seen.trees files.old.items) }
    ensures read { OnOk result (spec.AreRead map.new (seen.trees files.new.items)) }
    ensures added { OnOk result (map.new ≡ map.old ++ record { path = path.now; contents = text.entry.now } ∷ []) }
    ensures left { IfErr result (λ fault. spec.IsTextLeft map.old (record { path = path.now; contents = text.entry.now }) fault map.new) }
    ensures cause { IfErr result (spec.IsTextFault (total map.old) text.entry.now) }
{
    match map.push(path, text) {
        Ok(offset) => add_tree(alloc, files, text, offset),
        Err(fault) => Err(source_fault(fault)),
    }
}

/// Adds texts to the map, and answers their trees.
fn read_texts<'t>(
    alloc: Global,
    map: &mut SourceMap,
    texts: &[(&str, &'t str)],
) -> Result<Vec<File<'t>>, PackageFault>
    requires { map.old ≡ [] }
    ensures read { IfOk result (λ v. spec.AreRead (seen.texts texts.now) (seen.trees v.items)) }
    ensures all { OnOk result (map.new ≡ seen.texts texts.now) }
    ensures beginning { spec.IsBeginning (seen.texts texts.now) map.new }
    ensures left { IfErr result (spec.AreLeft (seen.texts texts.now) map.new) }
    ensures cause { IfErr result (spec.IsReadFault (seen.texts texts.now)) }
{
    let mut files = Vec::new(alloc);
    for (path, text) in texts {
        add_text(alloc, map, &mut files, path, text)?;
    }
    Ok(files)
}

/// What a file is resolved to by itself.
fn resolved_alone(alloc: Global, file: File<'_>) -> Result<UnresolvedPackage, PackageFault>
    ensures ok { IfOk result (Resolves (view.file file.entry ∷ [])) }
    ensures cause { IfErr result (Refuses (view.file file.entry ∷ [])) }
{
    let mut files = Vec::new(alloc);
    push_to(&mut files, file)?;
    resolved_files(alloc, files)
}

/// What each file is resolved to, by itself.
fn resolved_each(
    alloc: Global,
    files: Vec<File<'_>>,
) -> Result<Vec<UnresolvedPackage>, PackageFault>
    ensures ok { IfOk result (λ v. spec.AreResolved (seen.trees files.entry.items) v.items) }
    ensures cause { IfErr result (spec.OneIsRefused (seen.trees files.entry.items)) }
{
    let mut found = Vec::new(alloc);
    for file in files {
        let package = resolved_alone(alloc, file)?;
        found.push(package)?;
    }
    Ok(found)
}

/// What files are resolved to, and the packages that are nested in them.
fn packages_of(alloc: Global, files: Vec<File<'_>>) -> Result<Packages, PackageFault>
    ensures ok { IfOk result (λ p. spec.AreResolvedTo (seen.trees files.entry.items) p.main p.nested.items) }
    ensures cause { IfErr result (spec.AreRefused (seen.trees files.entry.items)) }
{
    let PartedFiles { own, nested } = parted_files(alloc, files)?;
    let main = resolved_files(alloc, own)?;
    let nested = resolved_each(alloc, nested)?;
    Ok(Packages { main, nested })
}

/// The packages of texts, which go to the map.
fn packages_in(
    alloc: Global,
    map: &mut SourceMap,
    texts: &[(&str, &str)],
) -> Result<Packages, PackageFault>
    requires { map.old ≡ [] }
    ensures ok { IfOk result (λ p. spec.AreParsed (seen.texts texts.now) p.main p.nested.items) }
    ensures all { OnOk result (map.new ≡ seen.texts texts.now) }
    ensures beginning { spec.IsBeginning (seen.texts texts.now) map.new }
    ensures left { IfErr result (spec.AreLeft (seen.texts texts.now) map.new) }
    ensures cause { IfErr result (spec.IsTextsFault (seen.texts texts.now)) }
{
    match read_texts(alloc, map, texts) {
        Ok(files) => packages_of(alloc, files),
        Err(fault) => Err(fault),
    }
}

impl UnresolvedPackageGroup {
    /// The packages of a text: as `parse_all` of this text alone.
    pub fn parse(
        alloc: Global,
        path: &str,
        contents: &str,
    ) -> Result<UnresolvedPackageGroup, (SourceMap, PackageFault)>
        ensures ok { IfOk result (λ g. spec.AreParsed (record { path = path.now; contents = contents.now } ∷ []) g.main g.nested.items) }
        ensures all { IfOk result (λ g. g.source_map ≡ record { path = path.now; contents = contents.now } ∷ []) }
        ensures beginning { IfErr result (λ e. spec.IsBeginning (record { path = path.now; contents = contents.now } ∷ []) e.0) }
        ensures left { IfErr result (λ e. spec.AreLeft (record { path = path.now; contents = contents.now } ∷ []) e.0 e.1) }
        ensures cause { IfErr result (λ e. spec.IsTextsFault (record { path = path.now; contents = contents.now } ∷ []) e.1) }
    {
        UnresolvedPackageGroup::parse_all(alloc, [(path, contents)].as_slice())
    }

    /// The packages of texts that are files of one package, by their paths and contents.
    ///
    /// Where they are refused it answers why, a text that isn't read (S1 to S8) or a package that breaks a rule (P1 to P11), and the texts up
    /// to the one that isn't read, or all: the place of the fault lies in them.
    pub fn parse_all(
        alloc: Global,
        texts: &[(&str, &str)],
    ) -> Result<UnresolvedPackageGroup, (SourceMap, PackageFault)>
        ensures ok { IfOk result (λ g. spec.AreParsed (seen.texts texts.now) g.main g.nested.items) }
        ensures all { IfOk result (λ g. g.source_map ≡ seen.texts texts.now) }
        ensures beginning { IfErr result (λ e. spec.IsBeginning (seen.texts texts.now) e.0) }
        ensures left { IfErr result (λ e. spec.AreLeft (seen.texts texts.now) e.0 e.1) }
        ensures cause { IfErr result (λ e. spec.IsTextsFault (seen.texts texts.now) e.1) }
    {
        let mut source_map = SourceMap::new(alloc);
        match packages_in(alloc, &mut source_map, texts) {
            Ok(Packages { main, nested }) => Ok(UnresolvedPackageGroup {
                main,
                nested,
                source_map,
            }),
            Err(fault) => Err((source_map, fault)),
        }
    }
}
