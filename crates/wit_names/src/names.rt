//! The texts by which interfaces are known.

ghost use Rattle.std.specs.Prelude.{◌≡◌, ◌<◌, ℕ, Some, length, option_map, string_bytes, slice_get, IfOk};
ghost use Rattle.wit_types.specs.declared.«package».Package.{Package};
ghost use Rattle.wit_types.specs.Package.{interface_text};
ghost use Rattle.wit_names.specs.Names as spec;

use std::alloc::{AllocError, Global};
use wit_types::{Arena, Interface, InterfaceId, Package, PackageId, PackageName, WorldKey};

/// Where interfaces are known: they and their packages, by their ids.
#[derive(Clone, Copy)]
pub struct Known<'a> {
    /// The packages.
    pub packages: &'a Arena<Package>,
    /// The interfaces.
    pub interfaces: &'a Arena<Interface>,
}

/// The text of an interface of that package: `namespace:name/interface`, with `@` and the version behind it, if there is one
/// (WIT, Package Names).
pub fn id_of_name(
    alloc: Global,
    packages: &Arena<Package>,
    package: PackageId,
    interface: &str,
) -> Result<String, AllocError>
    requires { «package» < length packages.now }
    ensures { IfOk result (λ s. (p : Package) × (slice_get packages.now «package» ≡ Some p) × (string_bytes s ≡ interface_text p.name interface.now)) }
{
    packages.get(package).name.interface_id(alloc, interface)
}

/// The canonical text of an interface of a package of that name.
fn canonical_id(alloc: Global, name: &PackageName, interface: &str) -> Result<String, AllocError>
    ensures { IfOk result (λ s. string_bytes s ≡ spec.canonical_text name.now interface.now) }
{
    let namespace = name.namespace.as_str();
    let package = name.name.as_str();
    match &name.version {
        None => format!(in alloc; "{namespace}:{package}/{interface}"),
        Some(version) => {
            let (track, _) = PackageName::version_compat_track_string(alloc, version)?;
            let track = track.as_str();
            format!(in alloc; "{namespace}:{package}/{interface}@{track}")
        }
    }
}

/// The canonical text of an interface of that package: the same with the track of the version in its place (Component Model, Import and
/// Export Definitions).
pub fn canonicalized_id_of_name(
    alloc: Global,
    packages: &Arena<Package>,
    package: PackageId,
    interface: &str,
) -> Result<String, AllocError>
    requires { «package» < length packages.now }
    ensures { IfOk result (λ s. (p : Package) × (slice_get packages.now «package» ≡ Some p) × (string_bytes s ≡ spec.canonical_text p.name interface.now)) }
{
    canonical_id(alloc, &packages.get(package).name, interface)
}

/// The text of an interface, if it has a name and a package.
pub fn id_of(alloc: Global, known: &Known, id: InterfaceId) -> Result<Option<String>, AllocError>
    requires there { id < length known.now.interfaces.now }
    requires packages { spec.ArePackagesKnown known.now.packages.now known.now.interfaces.now }
    ensures { IfOk result (λ s. spec.IsTextOf interface_text known.now.packages.now known.now.interfaces.now id (option_map string_bytes s)) }
{
    let interface = known.interfaces.get(id);
    let Some(name) = &interface.name else {
        return Ok(None);
    };
    let Some(package) = interface.package else {
        return Ok(None);
    };
    Ok(Some(id_of_name(alloc, known.packages, package, name.as_str())?))
}

/// The canonical text of an interface, if it has a name and a package.
pub fn canonicalized_id_of(
    alloc: Global,
    known: &Known,
    id: InterfaceId,
) -> Result<Option<String>, AllocError>
    requires there { id < length known.now.interfaces.now }
    requires packages { spec.ArePackagesKnown known.now.packages.now known.now.interfaces.now }
    ensures { IfOk result (λ s. spec.IsTextOf spec.canonical_text known.now.packages.now known.now.interfaces.now id (option_map string_bytes s)) }
{
    let interface = known.interfaces.get(id);
    let Some(name) = &interface.name else {
        return Ok(None);
    };
    let Some(package) = interface.package else {
        return Ok(None);
    };
    let text = canonicalized_id_of_name(alloc, known.packages, package, name.as_str())?;
    Ok(Some(text))
}

/// The text of a key of a world: a plain name, or the text of an interface, if that has a name and a package.
pub fn name_world_key(
    alloc: Global,
    known: &Known,
    key: &WorldKey,
) -> Result<Option<String>, AllocError>
    requires there { spec.IsKeyThere known.now.interfaces.now key.now }
    requires packages { spec.ArePackagesKnown known.now.packages.now known.now.interfaces.now }
    ensures { IfOk result (λ s. spec.IsKeyText interface_text known.now.packages.now known.now.interfaces.now key.now (option_map string_bytes s)) }
{
    match key {
        WorldKey::Name(name) => Ok(Some(String::from_str(alloc, name.as_str())?)),
        WorldKey::Interface(id) => id_of(alloc, known, *id),
    }
}

/// The canonical text of a key of a world: a plain name, or the canonical text of an interface, if that has a name and a package.
pub fn name_canonicalized_world_key(
    alloc: Global,
    known: &Known,
    key: &WorldKey,
) -> Result<Option<String>, AllocError>
    requires there { spec.IsKeyThere known.now.interfaces.now key.now }
    requires packages { spec.ArePackagesKnown known.now.packages.now known.now.interfaces.now }
    ensures { IfOk result (λ s. spec.IsKeyText spec.canonical_text known.now.packages.now known.now.interfaces.now key.now (option_map string_bytes s)) }
{
    match key {
        WorldKey::Name(name) => Ok(Some(String::from_str(alloc, name.as_str())?)),
        WorldKey::Interface(id) => canonicalized_id_of(alloc, known, *id),
    }
}

/// What stands behind the track in the text of a package's version, if something does: `.0+build.1` of `0.10.0+build.1`.
pub fn version_suffix_of(alloc: Global, name: &PackageName) -> Result<Option<String>, AllocError>
    ensures { IfOk result (spec.IsVersionSuffix name.now.version) }
{
    match &name.version {
        None => Ok(None),
        Some(version) => {
            let (_, suffix) = PackageName::version_compat_track_string(alloc, version)?;
            Ok(suffix)
        }
    }
}
