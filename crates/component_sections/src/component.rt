//! Components.

ghost use Rattle.std.specs.Prelude.{◌≡◌, ℕ, List, map, IfOk, IfErr, MatchResult};
ghost use Rattle.std.specs.List.{All, flat_map};
ghost use Rattle.binary_grammar.specs.Fault.{Gives};
ghost use Rattle.binary_grammar.specs.Place.{Within};
ghost use Rattle.binary_grammar.specs.Syntax.{meaning};
ghost use Rattle.component_entries.specs.Entries.{nothing};
ghost use Rattle.component_sections.specs.Component as spec;
ghost use Rattle.component_sections.specs.Component.{IsComponent, IsComponentFault};

use crate::section::{PlacedDefinition, Section};
use binary_grammar::{ReadError, Reader, Rule, broken_at, steps_of};
use component_entries::{Defined, HEADER};
use std::alloc::{AllocError, Global};

/// All sections of a component.
#[tactic(auto, unfolding(crate::specs::Component::whole_sections))]
fn sections_of<'a>(from: &mut Reader<'a>) -> Result<Vec<Section<'a>>, ReadError>
    ensures gives { Gives (λ x. map spec.section_value x.items) result ((meaning spec.whole_sections nothing).read from.old.left) }
    ensures stands { (total : List ℕ) → Within total from.old → IfOk result (λ x. All (λ s. All (spec.StandsIn total) s.definitions.items) x.items) }
{
    let at = from.left();
    if from.bytes(8)? != HEADER.as_slice() {
        return Err(broken_at(Rule::Header, at));
    }
    let mut state = Defined::nothing(from.allocator());
    steps_of(&mut state, from)
}

/// The definitions of sections, one behind the other.
fn definitions_of<'a>(
    alloc: Global,
    sections: Vec<Section<'a>>,
) -> Result<Vec<PlacedDefinition<'a>>, AllocError>
    ensures { IfOk result (λ x. x.items ≡ flat_map (λ s. s.definitions.items) sections.entry.items) }
{
    let mut definitions = Vec::new(alloc);
    for section in sections {
        let Section {
            definitions: mut more,
            ..
        } = section;
        definitions.append(&mut more)?;
    }
    Ok(definitions)
}

#[tactic(auto, using(crate::proofs::Places::values_of), unfolding(crate::specs::Component::component))]
fn all_of(alloc: Global, bytes: &[u8]) -> Result<Vec<PlacedDefinition<'_>>, ReadError>
    ensures gives { Gives (λ x. map spec.placed_value x.items) result ((meaning spec.component nothing).read bytes.now) }
    ensures stands { IfOk result (λ x. All (spec.StandsIn bytes.now) x.items) }
{
    let mut from = Reader::new(alloc, bytes);
    let sections = sections_of(&mut from)?;
    let definitions = definitions_of(alloc, sections)?;
    Ok(definitions)
}

/// The definitions of the component that the bytes are, in their order (Component Model Binary, Component Definitions), and
/// where each stands.
/// Bytes that are no component break a rule, and are refused by the first that they break, and its place.
#[tactic(auto, using(crate::proofs::Reading::answers_found, crate::proofs::Reading::answers_only, crate::proofs::Reading::answers_fault))]
pub fn read_definitions(alloc: Global, bytes: &[u8]) -> Result<Vec<PlacedDefinition<'_>>, ReadError>
    ensures found { IfOk result (λ v. IsComponent bytes.now (map spec.placed_value v.items)) }
    ensures only { (ds : List spec.DefinitionValue) → IsComponent bytes.now ds → MatchResult result (λ v. map spec.placed_value v.items ≡ ds) (λ e. e ≡ ReadError.Memory) }
    // Each stands at its offset: the bytes are a front of that length, those of the definition, and the rest.
    ensures stands { IfOk result (λ v. All (spec.StandsIn bytes.now) v.items) }
    ensures fault { IfErr result (IsComponentFault bytes.now) }
{
    all_of(alloc, bytes)
}
