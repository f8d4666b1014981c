//! Worlds that are copied.

ghost use Rattle.std.specs.Prelude.{◌≡◌, IfOk};
ghost use Rattle.wit_graph_worlds.specs.Copies as spec;

use std::alloc::{AllocError, Global};
use wit_types::World;

/// A world that says the same, but for what it includes and doesn't hold yet.
pub fn copied_world(alloc: Global, world: &World) -> Result<World, AllocError>
    ensures { IfOk result (spec.IsSameWorld world.now) }
{
    Ok(World {
        name: world.name.clone()?,
        imports: world.imports.clone()?,
        exports: world.exports.clone()?,
        package: world.package,
        docs: world.docs.clone()?,
        stability: world.stability.clone()?,
        includes: Vec::new(alloc),
        span: world.span,
    })
}
