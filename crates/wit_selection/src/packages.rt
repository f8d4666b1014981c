//! Packages by the names in paths.

ghost use Rattle.std.specs.Prelude.{◌≡◌, ◌∷◌, ◌++◌, [], if◌then◌else◌, option_map, IfOk, OnOk};
ghost use Rattle.wit_productions.specs.NameView as view;
ghost use Rattle.wit_selection.specs.Selection as spec;

use std::alloc::{AllocError, Global};
use wit_productions::{PackageName as PathName, Version as PathVersion};
use wit_types::{Arena, Package, PackageId, PackageName};

/// Whether a package has that namespace and name.
fn is_named(path: &PathName, name: &PackageName) -> bool
    ensures { result ≡ spec.is_named (view.package_name path.now) name.now }
{
    name.namespace.as_str() == path.namespace.name && name.name.as_str() == path.name.name
}

/// Whether it has that version, by its text.
fn is_of_version(
    alloc: Global,
    version: &Option<PathVersion>,
    name: &PackageName,
) -> Result<bool, AllocError>
    ensures { IfOk result (λ same. same ≡ spec.is_of_version (option_map view.version version.now) name.now.version) }
{
    match version {
        None => Ok(name.version.is_none()),
        Some(path) => match &name.version {
            None => Ok(false),
            Some(version) => {
                let text = format!(in alloc; "{version}")?;
                Ok(text.as_str() == path.text)
            }
        },
    }
}

/// Whether it has that name and version.
fn is_exactly(alloc: Global, path: &PathName, name: &PackageName) -> Result<bool, AllocError>
    ensures { IfOk result (λ same. same ≡ spec.is_exactly (view.package_name path.now) name.now) }
{
    if !is_named(path, name) {
        return Ok(false);
    }
    is_of_version(alloc, &path.version, name)
}

/// Adds an id, if it passes.
fn add_if(ids: &mut Vec<PackageId>, passes: bool, id: PackageId) -> Result<(), AllocError>
    ensures { OnOk result (ids.new.items ≡ ids.old.items ++ (if passes then id ∷ [] else [])) }
{
    if passes {
        ids.push(id)?;
    }
    Ok(())
}

/// The packages of that name and version.
fn exact_ids(
    alloc: Global,
    packages: &Arena<Package>,
    path: &PathName,
) -> Result<Vec<PackageId>, AllocError>
    ensures { IfOk result (λ ids. ids.items ≡ spec.ids_where (spec.is_exactly (view.package_name path.now)) 0 packages.now) }
{
    let mut ids = Vec::new(alloc);
    for index in 0..packages.len() {
        let id = PackageId::from_index(index);
        let passes = is_exactly(alloc, path, &packages.get(id).name)?;
        add_if(&mut ids, passes, id)?;
    }
    Ok(ids)
}

/// The packages of that name, of any version or none.
fn named_ids(
    alloc: Global,
    packages: &Arena<Package>,
    path: &PathName,
) -> Result<Vec<PackageId>, AllocError>
    ensures { IfOk result (λ ids. ids.items ≡ spec.ids_where (spec.is_named (view.package_name path.now)) 0 packages.now) }
{
    let mut ids = Vec::new(alloc);
    for index in 0..packages.len() {
        let id = PackageId::from_index(index);
        let passes = is_named(path, &packages.get(id).name);
        add_if(&mut ids, passes, id)?;
    }
    Ok(ids)
}

/// The only one of ids.
pub fn only(ids: &[PackageId]) -> Option<PackageId>
    ensures { result ≡ spec.only ids.now }
{
    match ids {
        [id] => Some(*id),
        _ => None,
    }
}

/// The package that is meant by a name in a path: the one of that name and version; by one without a version, where no package has
/// none, the only one of that name.
pub fn package_meant(
    alloc: Global,
    packages: &Arena<Package>,
    path: &PathName,
) -> Result<Option<PackageId>, AllocError>
    ensures { IfOk result (λ found. found ≡ spec.meant packages.now (view.package_name path.now)) }
{
    let exact = exact_ids(alloc, packages, path)?;
    if path.version.is_some() || !exact.is_empty() {
        return Ok(only(exact.as_slice()));
    }
    let named = named_ids(alloc, packages, path)?;
    Ok(only(named.as_slice()))
}
