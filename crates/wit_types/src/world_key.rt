//! What the items of a world are known by.

ghost use Rattle.std.specs.Prelude.{◌≡◌, Some, string_bytes, IfOk};
ghost use Rattle.wit_types.specs.WorldKey.{IsName, key_eq, key_input, key_text, key_eq-equivalence, key_eq-partial, key_input-respects};

use crate::id::InterfaceId;
use std::alloc::{AllocError, Global};
use std::hash::{Hash, Hasher};

/// What an item of a world is known by (WIT, Item: `world`): a plain name, by its spelling, or an interface.
#[derive(Clone, Drop)]
pub enum WorldKey {
    /// A plain name.
    Name(String),
    /// An interface.
    Interface(InterfaceId),
}

impl PartialEq for WorldKey {
    ghost eq = { key_eq };

    ghost laws = { key_eq-partial };

    fn eq(&self, other: &WorldKey) -> bool {
        match (self, other) {
            (WorldKey::Name(a), WorldKey::Name(b)) => a.as_str() == b.as_str(),
            (WorldKey::Interface(a), WorldKey::Interface(b)) => *a == *b,
            _ => false,
        }
    }
}

impl Eq for WorldKey {
    ghost laws = { key_eq-equivalence };
}

impl Hash for WorldKey {
    ghost hash_input = { key_input };

    ghost respects_eq = { key_input-respects };

    fn hash<H: Hasher>(&self, state: &mut H) {
        match self {
            WorldKey::Name(name) => {
                state.write_u8(0);
                name.as_str().hash(state);
            }
            WorldKey::Interface(id) => {
                state.write_u8(1);
                id.hash(state);
            }
        }
    }
}

impl WorldKey {
    /// The plain name, of a key that is one.
    pub fn unwrap_name(self) -> String
        requires { IsName self }
        ensures { self ≡ WorldKey.Name result }
    {
        match self {
            WorldKey::Name(name) => name,
            WorldKey::Interface(_) => unreachable!(),
        }
    }

    /// The plain name, or `interface-` and the interface's place.
    pub fn to_text(&self, alloc: Global) -> Result<String, AllocError>
        ensures { IfOk result (λ s. string_bytes s ≡ key_text self.now) }
    {
        match self {
            WorldKey::Name(name) => String::from_str(alloc, name.as_str()),
            WorldKey::Interface(id) => {
                let index = id.index();
                format!(in alloc; "interface-{index}")
            }
        }
    }
}
