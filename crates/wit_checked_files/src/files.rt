//! What the files of a package declare, and what they break.

ghost use Rattle.std.specs.Prelude.{◌≡◌, map, option_map, IfOk, OnOk, IfErr};
ghost use Rattle.wit_scopes.specs.Scopes.{package_scopes};
ghost use Rattle.wit_scopes.specs.View as scope_view;
ghost use Rattle.wit_syntax.specs.AstView as view;
ghost use Rattle.wit_rules.specs.Breaks.{IsKept, IsFaultOf, AnyBreaks, NamesBreak};
ghost use Rattle.wit_rules.specs.declared.fault.PackageFault.TheVariants.{OutOfMemory};
ghost use Rattle.wit_rules.specs.Facts as spec;
ghost use Rattle.wit_rules.specs.DeclaredView as seen;

use crate::checked::{Checked, check_all, check_names};
use crate::labels::{file_labels, scope_label};
use crate::members::check_members;
use crate::worlds::check_world;
use std::alloc::Global;
use wit_file_scopes::package_scopes;
use wit_rules::{Declared, PackageFault, PackageRule, check_front, name_span};
use wit_scopes::{InterfaceScope, ItemScope, PackageScopes, WorldScope, is_same_package};
use wit_syntax::{File, PackageName, Span};

/// Refuses an interface that breaks a rule.
fn check_interface<'a>(alloc: Global, interface: &InterfaceScope<'a>) -> Result<(), PackageFault>
    ensures ok { OnOk result (IsKept (spec.InterfaceBreaks (scope_view.interface_scope interface.now))) }
    ensures cause { IfErr result (IsFaultOf (spec.InterfaceBreaks (scope_view.interface_scope interface.now))) }
{
    check_front(&interface.front)?;
    check_members(alloc, interface.members.as_slice())
}

/// Refuses a world that breaks a rule.
fn check_world_item<'a>(alloc: Global, world: &WorldScope<'a>) -> Result<(), PackageFault>
    ensures ok { OnOk result (IsKept (spec.WorldItemBreaks (scope_view.world_scope world.now))) }
    ensures cause { IfErr result (IsFaultOf (spec.WorldItemBreaks (scope_view.world_scope world.now))) }
{
    check_front(&world.front)?;
    let members = &world.members;
    check_world(alloc, members.as_slice())
}

impl<'a> Checked for ItemScope<'a> {
    ghost breaks = { λ s. spec.ScopeBreaks (scope_view.item_scope s) };

    fn check(&self, alloc: Global) -> Result<(), PackageFault> {
        match self {
            ItemScope::Interface(interface) => check_interface(alloc, interface),
            ItemScope::World(world) => check_world_item(alloc, world),
        }
    }
}

impl<'a> Checked for File<'a> {
    ghost breaks = { λ f. spec.FileBreaks (view.file f) };

    fn check(&self, alloc: Global) -> Result<(), PackageFault> {
        let names = file_labels(alloc, self)?;
        check_names(alloc, names.as_slice())
    }
}

/// Refuses a file whose header names another package.
fn check_header<'a>(me: &PackageName<'a>, file: &File<'a>) -> Result<(), PackageFault>
    ensures ok { OnOk result (IsKept (spec.HeaderBreaks (view.package_name me.now) (view.file file.now))) }
    ensures cause { IfErr result (IsFaultOf (spec.HeaderBreaks (view.package_name me.now) (view.file file.now))) }
{
    match &file.package {
        Some(header) if !is_same_package(me, &header.name) => Err(PackageFault::Broken {
            rule: PackageRule::PackageMismatch,
            span: name_span(&header.name),
        }),
        _ => Ok(()),
    }
}

/// Refuses files of which one has a header that names another package.
fn check_headers<'a>(me: &PackageName<'a>, files: &[File<'a>]) -> Result<(), PackageFault>
    ensures ok { OnOk result (IsKept (AnyBreaks (spec.HeaderBreaks (view.package_name me.now)) (map view.file files.now))) }
    ensures cause { IfErr result (IsFaultOf (AnyBreaks (spec.HeaderBreaks (view.package_name me.now)) (map view.file files.now))) }
{
    for file in files {
        check_header(me, file)?;
    }
    Ok(())
}

/// The name that the first header gives.
fn first_name<'a>(files: &[File<'a>]) -> Option<PackageName<'a>>
    ensures { option_map view.package_name result ≡ spec.package_name (map view.file files.now) }
{
    for file in files {
        if let Some(header) = &file.package {
            return Some(header.name);
        }
    }
    None
}

/// Where the first item of files stands, in front of which a header is wanted: nowhere, where there is none.
fn header_place<'a>(files: &[File<'a>]) -> Span
    ensures { result ≡ spec.header_place (map view.file files.now) }
{
    for file in files {
        if let Some(first) = file.items.first() {
            return first.span;
        }
    }
    Span { start: 0, end: 0 }
}

/// Refuses interfaces and worlds of which one breaks a rule, or two have names of one key.
fn check_scopes<'a>(alloc: Global, declared: &Declared<'a>) -> Result<(), PackageFault>
    ensures ok { OnOk result (IsKept (spec.ScopesBreak (map scope_view.item_scope declared.now.scopes.items))) }
    ensures cause { IfErr result (IsFaultOf (spec.ScopesBreak (map scope_view.item_scope declared.now.scopes.items))) }
{
    let mut names = Vec::new(alloc);
    for scope in &declared.scopes {
        scope.check(alloc)?;
        names.push(scope_label(scope))?;
    }
    check_names(alloc, names.as_slice())
}

/// Refuses files of a package of that name of which a header names another, or of which one has two names of one key.
fn check_files<'a>(
    alloc: Global,
    me: &PackageName<'a>,
    files: &[File<'a>],
) -> Result<(), PackageFault>
    ensures ok { OnOk result (spec.AreFilesKept (view.package_name me.now) (map view.file files.now)) }
    ensures cause { IfErr result (IsFaultOf (spec.PackageBreaks (view.package_name me.now) (map view.file files.now))) }
{
    check_headers(me, files)?;
    check_all(alloc, files)
}

/// The files of a package, which are lent together.
#[derive(Drop)]
struct PackageFiles<'a> {
    files: Vec<File<'a>>,
}

/// The name of a package, where its files have a header, none names another package, and none has two names of one key.
fn checked_name<'a>(
    alloc: Global,
    texts: &PackageFiles<'a>,
) -> Result<PackageName<'a>, PackageFault>
    ensures ok { IfOk result (λ n. spec.IsNamed (map view.file texts.now.files.items) (view.package_name n)) }
    ensures cause { IfErr result (IsFaultOf (spec.FilesBreak (map view.file texts.now.files.items))) }
{
    match first_name(texts.files.as_slice()) {
        None => Err(PackageFault::Broken {
            rule: PackageRule::NoPackageName,
            span: header_place(texts.files.as_slice()),
        }),
        Some(name) => check_files(alloc, &name, texts.files.as_slice()).and(Ok(name)),
    }
}

/// What the files of a package of that name declare.
fn scopes_of<'a>(
    alloc: Global,
    name: PackageName<'a>,
    files: Vec<File<'a>>,
) -> Result<Declared<'a>, PackageFault>
    ensures ok { IfOk result (seen.AreScopes (view.package_name name.entry) (map view.file files.entry.items)) }
    ensures memory { IfErr result (λ fault. fault ≡ OutOfMemory) }
{
    let PackageScopes { docs, uses, items } = package_scopes(alloc, name, files)?;
    Ok(Declared {
        name,
        docs,
        uses,
        scopes: items,
    })
}

/// What the files of a package of that name declare, where its interfaces and worlds break no rule.
fn checked_scopes<'a>(
    alloc: Global,
    name: PackageName<'a>,
    files: Vec<File<'a>>,
) -> Result<Declared<'a>, PackageFault>
    ensures ok { IfOk result (seen.AreScopesKept (view.package_name name.entry) (map view.file files.entry.items)) }
    ensures cause { IfErr result (IsFaultOf (spec.ScopesBreak (package_scopes (view.package_name name.entry) (map view.file files.entry.items)))) }
{
    match scopes_of(alloc, name, files) {
        Ok(declared) => check_scopes(alloc, &declared).and(Ok(declared)),
        Err(fault) => Err(fault),
    }
}

/// What the files of a package declare, where they break no rule by themselves: P1 to P3, P10 and P11, at the place of the
/// name or gate that breaks it. The parts of the trees go into what they declare.
pub fn declared_in<'a>(alloc: Global, files: Vec<File<'a>>) -> Result<Declared<'a>, PackageFault>
    ensures ok { IfOk result (seen.IsDeclaredOf (map view.file files.entry.items)) }
    ensures cause { IfErr result (IsFaultOf (spec.FilesBreak (map view.file files.entry.items))) }
{
    let texts = PackageFiles { files };
    match checked_name(alloc, &texts) {
        Ok(name) => checked_scopes(alloc, name, texts.files),
        Err(fault) => Err(fault),
    }
}
