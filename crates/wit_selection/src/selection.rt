//! The choice of a world.

ghost use Rattle.std.specs.Prelude.{◌≡◌, Some, option_map, IfOk, IfErr};
ghost use Rattle.wit_productions.specs.NameView as view;
ghost use Rattle.wit_selection.specs.Selection as spec;

use crate::packages::{only, package_meant};
use std::alloc::{AllocError, Global};
use wit_productions::{UsePath, parse_use_path};
use wit_types::{Arena, Package, PackageId, WorldId};
use wit_words::SyntaxFault;

/// Why no world is chosen.
#[derive(Clone, Copy, Debug)]
pub enum SelectFault {
    /// The text and the main packages name no single world.
    WorldNotFound,
    /// Memory is wanting.
    OutOfMemory,
}

impl From<AllocError> for SelectFault {
    ghost use Rattle.wit_selection.specs.declared.selection.SelectFault.TheVariants.{OutOfMemory};

    ghost from_gives = { λ _ e. e ≡ OutOfMemory };

    fn from(_cause: AllocError) -> SelectFault {
        SelectFault::OutOfMemory
    }
}

/// The world of that name in a package, as far as both are there.
fn world_at(packages: &Arena<Package>, package: Option<PackageId>, name: &str) -> Option<WorldId>
    ensures { result ≡ spec.world_of packages.now «package» name.now }
{
    let id = package?;
    if id.index() >= packages.len() {
        return None;
    }
    packages.get(id).worlds.get(name).copied()
}

/// The only world of a package.
fn only_world(packages: &Arena<Package>, package: Option<PackageId>) -> Option<WorldId>
    ensures { result ≡ spec.only_world_of packages.now «package» }
{
    let id = package?;
    if id.index() >= packages.len() {
        return None;
    }
    let worlds = &packages.get(id).worlds;
    if worlds.len() != 1 {
        return None;
    }
    match worlds.get_index(0) {
        Some((_, world)) => Some(*world),
        None => None,
    }
}

/// The world that a path names.
fn world_on_path(
    alloc: Global,
    packages: &Arena<Package>,
    main: &[PackageId],
    path: &UsePath,
) -> Result<Option<WorldId>, AllocError>
    ensures { IfOk result (λ world. world ≡ spec.selected packages.now main.now (view.use_path path.now)) }
{
    match path {
        UsePath::Id(name) => Ok(world_at(packages, only(main), name.name)),
        UsePath::Package { id, name } => {
            let package = package_meant(alloc, packages, id)?;
            Ok(world_at(packages, package, name.name))
        }
    }
}

/// What is found, or that nothing is.
fn found(world: Option<WorldId>) -> Result<WorldId, SelectFault>
    ensures { result ≡ spec.found world }
{
    match world {
        Some(world) => Ok(world),
        None => Err(SelectFault::WorldNotFound),
    }
}

/// What isn't a path names no world.
fn refusal_of(fault: SyntaxFault) -> SelectFault
    ensures { result ≡ spec.refusal_of fault }
{
    match fault {
        SyntaxFault::OutOfMemory => SelectFault::OutOfMemory,
        SyntaxFault::TooLarge | SyntaxFault::Broken { .. } => SelectFault::WorldNotFound,
    }
}

/// The world that a text names.
fn world_named(
    alloc: Global,
    packages: &Arena<Package>,
    main: &[PackageId],
    text: &str,
) -> Result<WorldId, SelectFault>
    ensures ok { IfOk result (spec.IsSelected packages.now main.now (Some text.now)) }
    ensures cause { IfErr result (spec.IsSelectCause packages.now main.now (Some text.now)) }
{
    match parse_use_path(alloc, text) {
        Ok(path) => found(world_on_path(alloc, packages, main, &path)?),
        Err(fault) => Err(refusal_of(fault)),
    }
}

/// The world that is chosen by a name, where there are such main packages. A plain name is one of the only main package; a path is of the
/// package that it names, one without a version also of the only version of it that there is. Without a name it is the only world of the
/// only main package. Refuses where that is no single world; the text may have blanks and comments, and has to be a path else (WIT,
/// Package Names).
pub fn select_world(
    alloc: Global,
    packages: &Arena<Package>,
    main: &[PackageId],
    name: Option<&str>,
) -> Result<WorldId, SelectFault>
    ensures ok { IfOk result (spec.IsSelected packages.now main.now (option_map (λ t. t.now) name.entry)) }
    ensures cause { IfErr result (spec.IsSelectCause packages.now main.now (option_map (λ t. t.now) name.entry)) }
{
    match name {
        Some(text) => world_named(alloc, packages, main, text),
        None => found(only_world(packages, only(main))),
    }
}
