//! What holds of components of known definitions.

ghost use Rattle.std.specs.Prelude.{◌≡◌, ℕ, List};
ghost use Rattle.known_definitions.specs.Definition.{DefinitionValue};
ghost use Rattle.known_definitions.specs.Component.{IsComponent, HasUnknown};

/// Bytes are a component of at most one list of known definitions.
pub fn law_one_list()
    ensures { (bytes : List ℕ) (ds es : List DefinitionValue) → IsComponent bytes ds → IsComponent bytes es → ds ≡ es }
{}

/// Bytes with a definition that isn't known are a component of no list of known ones.
pub fn law_unknown_is_not_known()
    ensures { (bytes : List ℕ) (ds : List DefinitionValue) → HasUnknown bytes → IsComponent bytes ds → ⊥ }
{}
