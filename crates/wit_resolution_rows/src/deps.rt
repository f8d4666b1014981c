//! On which packages others depend, and of which types any bits are a value.

use wit_pages::{Page, under};
use wit_resolution::Resolve;
use wit_types::{PackageId, Type, TypeDef, TypeId};

/// The name of a package.
fn name(page: &mut Page, resolve: &Resolve, id: PackageId) {
    match under(resolve.packages(), id) {
        Some(package) => page.shown(&package.name),
        None => page.words("! no package"),
    }
}

/// A package, and those of which it names an interface.
fn package(page: &mut Page, resolve: &Resolve, id: PackageId) {
    if id.index() >= resolve.packages().len() {
        return page.words("! no package\n");
    }
    page.begin("package ");
    name(page, resolve, id);
    match &resolve.package_direct_deps(id) {
        Ok(deps) => {
            for dep in deps {
                page.words(" ");
                name(page, resolve, *dep);
            }
        }
        Err(_) => page.refuse(),
    }
    page.end();
}

/// All packages, each behind those of which it names an interface, with these.
pub fn packages(page: &mut Page, resolve: &Resolve) {
    match &resolve.topological_packages() {
        Ok(order) => {
            for id in order {
                package(page, resolve, *id);
            }
        }
        Err(_) => page.refuse(),
    }
}

/// Whether any bits are a value of a type, where that has a name.
fn bits_of(page: &mut Page, resolve: &Resolve, id: TypeId, def: &TypeDef) {
    if let Some(name) = &def.name {
        page.begin(name);
        page.words(if resolve.all_bits_valid(&Type::Id(id)) {
            " any"
        } else {
            " some"
        });
        page.end();
    }
}

/// Of which types any bits are a value, and of which some.
pub fn bits(page: &mut Page, resolve: &Resolve) {
    for (index, def) in resolve.types().iter().enumerate() {
        bits_of(page, resolve, TypeId::from_index(index), def);
    }
}
