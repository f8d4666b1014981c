//! From where packages are looked at.

use wit_pages::{Packages, View};
use wit_resolution::Resolve;
use wit_types::{PackageId, TypeOwner};
use wit_words::SourceMap;

/// The packages from within one of them, whose names go alone, or from outside.
pub fn known(resolve: &Resolve, own: Option<PackageId>) -> Packages<'_> {
    Packages::Known {
        packages: resolve.packages(),
        own,
    }
}

/// All that there is, by such packages.
pub fn view_of<'g>(
    resolve: &'g Resolve,
    map: &'g SourceMap,
    packages: &'g Packages<'g>,
) -> View<'g> {
    View {
        types: resolve.types(),
        interfaces: resolve.interfaces(),
        worlds: resolve.worlds(),
        packages,
        map,
        scope: TypeOwner::None,
        places: false,
    }
}
