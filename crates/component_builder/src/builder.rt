//! Making a component, one definition after the other.

ghost use Rattle.std.specs.Prelude.{◌≡◌, ◌<◌, ◌≤◌, ◌^◌, ◌++◌, ◌∷◌, [], length, map, take, IfOk, IfErr, OnOk, OnErr, Err};
ghost use Rattle.std.specs.Io.KnownBytes.{Appends};
ghost use Rattle.binary_grammar.specs.declared.writing.WriteFault.TheVariants as writes;
ghost use Rattle.binary_grammar.specs.Syntax.{bytes, IsTyped};
ghost use Rattle.component_definitions.specs.Counting as counting;
ghost use Rattle.component_sections.specs.Component.{definition_value, component, Follow, IsComponent};
ghost use Rattle.component_sections.specs.Passed.component_entries-Entries.{nothing};
ghost use Rattle.component_builder.specs.declared.builder.WriteToFault.TheVariants as faults;
ghost use Rattle.component_builder.specs.Builder as spec;

use crate::output::EmitFault;
use crate::pieces::pieces_of;
use binary_grammar::WriteFault;
use component_definitions::{IndexSpace, count_in, with_one};
use component_sections::Definition;
use component_value_types::{NO_SCOPE, Scope};
use std::alloc::Global;
use std::io::Write;
use std::marker::Model;
use thiserror::Error;

/// Why a component isn't written.
#[derive(Debug, Drop, Error)]
pub enum WriteToFault {
    /// Nothing was written.
    #[error("{0}")]
    Refused(WriteFault),
    /// What was written is a beginning.
    #[error("{0}")]
    Emit(EmitFault),
}

/// A component that is being made, which contracts see as its definitions in order. Core modules and names are lent.
#[derive(Drop)]
pub struct ComponentBuilder<'a> {
    scope: Scope,
    definitions: Vec<Definition<'a>>,
}

impl<'a> Model for ComponentBuilder<'a> {
    ghost use Rattle.std.specs.Prelude.{◌≡◌, List, map};
    ghost use Rattle.component_sections.specs.Component.{DefinitionValue, definition_value};
    ghost use Rattle.component_builder.specs.Builder as spec;

    ghost Value = { List DefinitionValue };

    ghost view = { λ b. map definition_value b.definitions.items };

    ghost invariant = { λ b. b.scope ≡ spec.scope_of (map definition_value b.definitions.items) };
}

/// The bytes of the component with these definitions, as `ComponentBuilder::finish` answers them.
#[tactic(auto, using(component_sections::proofs::Following::written_is_read))]
pub fn write_definitions(
    alloc: Global,
    definitions: &[Definition<'_>],
) -> Result<Vec<u8>, WriteFault>
    ensures bytes { IfOk result (λ v. v.items ≡ bytes component (map definition_value definitions.now)) }
    ensures found { IfOk result (λ v. Follow nothing (map definition_value definitions.now) → IsComponent v.items (map definition_value definitions.now)) }
    ensures typed { OnOk result (IsTyped component (map definition_value definitions.now)) }
    ensures large { result ≡ Err WriteFault.TooLarge → IsTyped component (map definition_value definitions.now) → ⊥ }
{
    let pieces = pieces_of(alloc, definitions)?;
    Ok(pieces.joined(alloc)?)
}

/// The index that one more takes in an index space, and what is there with it.
fn next_in(there: Scope, space: IndexSpace) -> Result<(u32, Scope), WriteFault>
    ensures next { IfOk result (λ r. (r.0 ≡ counting.count_in there space) × (r.1 ≡ counting.with_one there space)) }
    ensures cause { IfErr result (λ e. (e ≡ WriteFault.TooLarge) × (2 ^ 32 ≤ counting.count_in there space)) }
{
    let Ok(index) = u32::try_from(count_in(there, space)) else {
        return Err(WriteFault::TooLarge);
    };
    let scope = with_one(there, space).ok_or(WriteFault::TooLarge)?;
    Ok((index, scope))
}

impl<'a> ComponentBuilder<'a> {
    /// No definitions.
    pub fn new(alloc: Global) -> ComponentBuilder<'a>
        ensures { result ≡ [] }
    {
        ComponentBuilder {
            scope: NO_SCOPE,
            definitions: Vec::new(alloc),
        }
    }

    /// Adds a definition, and answers the index that it takes in its index space (Component Model, Explainer, Index Spaces).
    /// Answers `TooLarge` only where 32 bits can't say the index; a refused call adds nothing.
    #[tactic(auto, using(crate::proofs::Scopes::scope_goes_on))]
    pub fn add(&mut self, definition: Definition<'a>) -> Result<u32, WriteFault>
        ensures added { OnOk result (self.new ≡ self.old ++ definition_value definition.entry ∷ []) }
        ensures index { IfOk result (λ i. i ≡ spec.index_behind self.old (definition_value definition.entry)) }
        ensures err { OnErr result (self.new ≡ self.old) }
        ensures large { result ≡ Err WriteFault.TooLarge → 2 ^ 32 ≤ spec.index_behind self.old (definition_value definition.entry) }
    {
        let (index, scope) = next_in(self.scope, definition.space())?;
        self.definitions.push(definition)?;
        self.scope = scope;
        Ok(index)
    }

    /// The bytes of the component: a header, then sections, neighbours of one section in one, and each core module and
    /// component in its own (Component Model Binary, Component Definitions). They stand in a vector that is made for them once.
    /// Answers `TooLarge` only where a definition doesn't fit, or 32 bits can't say a count or a size.
    pub fn finish(&self, alloc: Global) -> Result<Vec<u8>, WriteFault>
        ensures bytes { IfOk result (λ v. v.items ≡ bytes component self.now) }
        // Where each definition may stand behind those before it, the bytes are a component of them, and are read as these.
        ensures found { IfOk result (λ v. Follow nothing self.now → IsComponent v.items self.now) }
        ensures typed { OnOk result (IsTyped component self.now) }
        ensures large { result ≡ Err WriteFault.TooLarge → IsTyped component self.now → ⊥ }
    {
        write_definitions(alloc, &self.definitions)
    }

    /// Writes the same bytes to a writer, without a copy of what is lent, and answers how many they are. Where it answers
    /// `Refused`, nothing is written, and the cause is one that `finish` gives, or that 64 bits can't count the bytes, which
    /// is called want of memory. Where it answers `Emit`, a write failed, or took nothing, and what was taken is the beginning
    /// of the bytes, of the length that the fault says.
    pub fn write_to<W: Write>(&self, alloc: Global, out: &mut W) -> Result<usize, WriteToFault>
        ensures whole { IfOk result (λ n. (n ≡ length (bytes component self.now)) × Appends (W.contents out.old) (W.contents out.new) (bytes component self.now)) }
        ensures typed { OnOk result (IsTyped component self.now) }
        ensures refused { (w : WriteFault) → result ≡ Err (faults.Refused w) → W.contents out.new ≡ W.contents out.old }
        ensures large { result ≡ Err (faults.Refused writes.TooLarge) → IsTyped component self.now → ⊥ }
        ensures within { (e : EmitFault) → result ≡ Err (faults.Emit e) → e.written < length (bytes component self.now) }
        ensures front { (e : EmitFault) → result ≡ Err (faults.Emit e) → Appends (W.contents out.old) (W.contents out.new) (take e.written (bytes component self.now)) }
    {
        let pieces = match pieces_of(alloc, &self.definitions) {
            Ok(pieces) => pieces,
            Err(fault) => return Err(WriteToFault::Refused(fault)),
        };
        let Some(total) = pieces.length() else {
            return Err(WriteToFault::Refused(WriteFault::OutOfMemory));
        };
        match pieces.emit(out) {
            Ok(()) => Ok(total),
            Err(fault) => Err(WriteToFault::Emit(fault)),
        }
    }
}
