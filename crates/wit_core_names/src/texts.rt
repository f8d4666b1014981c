//! The texts of which core names are made.

ghost use Rattle.std.specs.Prelude.{◌≡◌, Some, string_bytes, IfOk};
ghost use Rattle.wit_names.specs.Names.{ArePackagesKnown, IsKeyText};
ghost use Rattle.wit_core_names.specs.Texts as spec;

use std::alloc::{AllocError, Global};
use wit_names::{
    Arena, Interface, Known, Mangling, Package, TypeDef, TypeId, WorldKey,
    name_canonicalized_world_key, name_world_key,
};

/// Where what core names name is known, by its ids.
#[derive(Clone, Copy)]
pub struct Tables<'a> {
    /// Packages.
    pub packages: &'a Arena<Package>,
    /// Interfaces.
    pub interfaces: &'a Arena<Interface>,
    /// Types.
    pub types: &'a Arena<TypeDef>,
}

/// The text of a key of a world: with a track in place of the version in the names of the standard.
pub fn key_text(
    alloc: Global,
    tables: &Tables<'_>,
    mangling: Mangling,
    key: &WorldKey,
) -> Result<String, AllocError>
    requires packages { ArePackagesKnown tables.now.packages.now tables.now.interfaces.now }
    requires there { spec.IsKeyNamed tables.now.packages.now tables.now.interfaces.now key.now }
    ensures { IfOk result (λ s. IsKeyText (spec.interface_text_in mangling) tables.now.packages.now tables.now.interfaces.now key.now (Some (string_bytes s))) }
{
    let known = Known {
        packages: tables.packages,
        interfaces: tables.interfaces,
    };
    let text = match mangling {
        Mangling::Standard32 => name_canonicalized_world_key(alloc, &known, key)?,
        Mangling::Legacy => name_world_key(alloc, &known, key)?,
    };
    match text {
        Some(text) => Ok(text),
        None => unreachable!(),
    }
}

/// The name of a type that has one.
pub fn type_name<'t>(types: &'t Arena<TypeDef>, id: TypeId) -> &'t str
    requires { spec.HasName types.now id }
    ensures { spec.IsNameOf types.entry.now id result.now }
{
    match &types.get(id).name {
        Some(name) => name.as_str(),
        None => unreachable!(),
    }
}
