//! Whether one world exports all that another does, by keys.

ghost use Rattle.std.specs.Prelude.{◌≡◌, true, false};
ghost use Rattle.export_keys.specs.Keys.{ExportsMore};

use wit_types::World;

/// Whether a world exports something under each key under which another of the same packages does: a plain name, or an
/// interface (WIT, Item: `world`).
pub fn exports_all(world: &World, other: &World) -> bool
    ensures yes { result ≡ true → ExportsMore other.now world.now → ⊥ }
    ensures no { result ≡ false → ExportsMore other.now world.now }
{
    for place in 0..other.exports.len() {
        if let Some((key, _)) = other.exports.get_index(place) {
            if !world.exports.contains_key(key) {
                return false;
            }
        }
    }
    true
}
