//! Resources among types.

ghost use Rattle.std.specs.Prelude.{◌≡◌, IfOk, slice_get};
ghost use Rattle.wit_core_names.specs.Texts.{known};
ghost use Rattle.wit_core_items.specs.World as spec;

use crate::known::type_at;
use indexmap::IndexMap;
use std::alloc::{AllocError, Global};
use wit_core_names::Tables;
use wit_types::{Arena, TypeDef, TypeDefKind, TypeId};

/// Whether a type defines a resource.
pub fn is_resource(types: &Arena<TypeDef>, id: TypeId) -> bool
    ensures { result ≡ spec.is_resource_def (slice_get types.now id) }
{
    match type_at(types, id) {
        Some(def) => matches!(&def.kind, TypeDefKind::Resource),
        None => false,
    }
}

/// The resources among types, in their order.
pub fn resources(
    alloc: Global,
    tables: &Tables<'_>,
    types: &IndexMap<String, TypeId>,
) -> Result<Vec<TypeId>, AllocError>
    ensures { IfOk result (λ found. found.items ≡ spec.resources (known tables.now) types.now.entries) }
{
    let mut found = Vec::new(alloc);
    for id in types.values() {
        if is_resource(tables.types, *id) {
            found.push(*id)?;
        }
    }
    Ok(found)
}
