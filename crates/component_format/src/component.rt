//! Whole components.

ghost use Rattle.std.specs.Prelude.{◌≡◌, List, All, map, IfOk, IfErr, MatchResult};
ghost use Rattle.component_sections.specs.Component as spec;
ghost use Rattle.component_sections.specs.Component.{IsComponent, IsComponentFault};

use binary_grammar::ReadError;
use component_sections::{PlacedDefinition, read_definitions};
use std::alloc::Global;

/// A component (Component Model Binary, Component Definitions).
#[derive(Drop)]
pub struct Component<'a> {
    /// Its definitions in their order, whatever sections they stand in, each with its place.
    pub definitions: Vec<PlacedDefinition<'a>>,
}

/// The component that the bytes are. Bytes that are none break a rule, and are refused by the first that they break, and its
/// place.
pub fn read_component(alloc: Global, bytes: &[u8]) -> Result<Component<'_>, ReadError>
    ensures found { IfOk result (λ c. IsComponent bytes.now (map spec.placed_value c.definitions.items)) }
    ensures only { (ds : List spec.DefinitionValue) → IsComponent bytes.now ds → MatchResult result (λ c. map spec.placed_value c.definitions.items ≡ ds) (λ e. e ≡ ReadError.Memory) }
    // Each stands at its offset: the bytes are a front of that length, those of the definition, and the rest.
    ensures stands { IfOk result (λ c. All (spec.StandsIn bytes.now) c.definitions.items) }
    ensures fault { IfErr result (IsComponentFault bytes.now) }
{
    match read_definitions(alloc, bytes) {
        Ok(definitions) => Ok(Component { definitions }),
        Err(error) => Err(error),
    }
}
