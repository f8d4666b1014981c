//! Which core names count.

ghost use Rattle.std.specs.Prelude.{◌≡◌};
ghost use Rattle.core_links.specs.Names.{names_in, counts_legacy};

use wit_core_names::Tables;
use wit_types::World;

/// The names that core modules have for what a world imports and exports (Component Model, Build Targets).
#[derive(Clone, Copy)]
pub struct CoreNames<'s> {
    /// Where what the world names is known.
    pub tables: Tables<'s>,
    /// The world.
    pub world: &'s World,
    /// Names of the legacy spelling stand for nothing.
    pub rejects_legacy: bool,
}

impl CoreNames<'_> {
    /// Whether names of the legacy spelling stand for something.
    pub fn counts_legacy(&self) -> bool
        ensures { result ≡ counts_legacy (names_in self.now) }
    {
        !self.rejects_legacy
    }
}
