//! Components within a component.

ghost use Rattle.std.specs.Prelude.{◌≡◌, ◌++◌, map, IfOk, OnOk, Err};
ghost use Rattle.std.specs.List.{flat_map, All};
ghost use Rattle.binary_grammar.specs.Fault.{Gives};
ghost use Rattle.binary_grammar.specs.Syntax.{meaning, sized, begins, some_name};
ghost use Rattle.component_definitions.specs.Passed.component_value_types-declared-scope-Scope.{Scope};
ghost use Rattle.component_entries.specs.Entries.{entry_value};
ghost use Rattle.component_definitions.specs.Passed.component_value_types-Scope.{no_scope};
ghost use Rattle.component_entries.specs.Nested as spec;

use crate::defined::Defined;
use crate::entry::{Entry, EntryKind, kind_of};
use crate::runs::put_vector;
use binary_grammar::{
    Content, ReadError, Reader, Rule, Step, WriteFault, bounded_growing_of, broken_at, moved,
    steps_of,
};
use component_definitions::Scope;
use std::alloc::{AllocError, Global};

/// A component within a component, which has aliases, types, imports and exports alone, and defines no resource.
#[derive(Debug, Drop)]
pub struct NestedComponent<'a> {
    /// What it has, in order.
    pub entries: Vec<Entry<'a>>,
}

/// A section of a nested component: the entries of a kind, or none of a custom one.
#[derive(Drop)]
pub struct NestedSection<'a> {
    pub kind: Option<EntryKind>,
    pub entries: Vec<Entry<'a>>,
}

/// The first eight bytes of a component.
pub const HEADER: [u8; 8] = [0, 0x61, 0x73, 0x6d, 0x0d, 0, 1, 0];

/// The name that begins all that is left.
fn name_of<'a>(from: Reader<'a>) -> Result<&'a str, ReadError>
    ensures { Gives (λ x. x.now) result ((meaning (begins (some_name {C = Scope})) no_scope).read from.entry.left) }
{
    let mut from = from;
    from.name()
}

/// The name of a custom section, whose content is passed over.
pub fn custom_name<'a>(from: &mut Reader<'a>) -> Result<&'a str, ReadError>
    ensures gives { Gives (λ x. (x.now, from.new.left)) result ((meaning (sized (begins (some_name {C = Scope}))) no_scope).read from.old.left) }
    ensures end { from.new.end ≡ from.old.end }
{
    let inside = from.inside()?;
    match name_of(inside) {
        Ok(name) => Ok(name),
        Err(e) => Err(moved(e, from.left())),
    }
}

impl<'a> Step<'a> for NestedSection<'a> {
    type State = Defined<'a>;

    ghost use Rattle.component_entries.specs.Entries.{DefinedValue};
    ghost use Rattle.component_entries.specs.Nested as spec;
    ghost use Rattle.component_entries.specs.Views as view;

    ghost Value = { spec.NestedSectionValue };

    ghost Known = { DefinedValue };

    ghost grow = { spec.nested_with };

    ghost which = { spec.nested_byte };

    ghost next = { spec.nested_next };

    ghost known = { view.defined_value };

    ghost value = { spec.nested_section_value };

    ghost stands = { λ _ _. Unit {0} };

    #[tactic(auto, using(crate::proofs::SectionBytes::kind_again), unfolding(crate::specs::Nested::nested_next, crate::specs::Nested::nested_form_of))]
    fn read_behind(
        kind: u8,
        state: &mut Defined<'a>,
        from: &mut Reader<'a>,
    ) -> Result<NestedSection<'a>, ReadError> {
        if kind == 0 {
            custom_name(from)?;
            let entries = Vec::new(from.allocator());
            return Ok(NestedSection {
                kind: None,
                entries,
            });
        }
        match kind_of(kind) {
            Ok(kind) => Ok(NestedSection {
                kind: Some(kind),
                entries: bounded_growing_of(kind.byte(), state, from)?,
            }),
            Err(rule) => Err(from.broken(rule)),
        }
    }
}

/// All sections of a nested component, where this is there.
#[tactic(auto, unfolding(crate::specs::Nested::nested_sections))]
fn sections_of<'a>(there: Scope, from: &mut Reader<'a>) -> Result<Vec<NestedSection<'a>>, ReadError>
    ensures { Gives (λ x. map spec.nested_section_value x.items) result ((meaning spec.nested_sections there).read from.old.left) }
{
    let at = from.left();
    if from.bytes(8)? != HEADER.as_slice() {
        return Err(broken_at(Rule::Header, at));
    }
    let mut state = Defined::within(from.allocator(), there);
    steps_of(&mut state, from)
}

/// The entries of sections, one behind the other.
fn entries_of<'a>(
    alloc: Global,
    sections: Vec<NestedSection<'a>>,
) -> Result<Vec<Entry<'a>>, AllocError>
    ensures { IfOk result (λ x. map entry_value x.items ≡ spec.entries_in (map spec.nested_section_value sections.entry.items)) }
{
    let mut entries = Vec::new(alloc);
    for section in sections {
        let NestedSection {
            entries: mut more,
            ..
        } = section;
        entries.append(&mut more)?;
    }
    Ok(entries)
}

/// Adds the sections of entries, neighbours of one kind in one; each content is made in `room`, which is emptied for
/// it. Answers `TooLarge` only where 32 bits can't say a count or a size, or an entry doesn't fit.
fn put_sections(
    entries: &[Entry<'_>],
    room: &mut Vec<u8>,
    out: &mut Vec<u8>,
) -> Result<(), WriteFault>
    ensures bytes { OnOk result (out.new.items ≡ out.old.items ++ flat_map spec.section_bytes (spec.sections_of (map entry_value entries.now))) }
    ensures typed { OnOk result (All spec.IsSection (spec.sections_of (map entry_value entries.now))) }
    ensures large { result ≡ Err WriteFault.TooLarge → All spec.IsSection (spec.sections_of (map entry_value entries.now)) → ⊥ }
{
    let mut at = 0;
    while at < entries.len() {
        at += put_vector(&entries[at..], room, out)?;
    }
    Ok(())
}

impl<'a> Content<'a> for NestedComponent<'a> {
    type Context = Scope;

    ghost use Rattle.std.specs.Prelude.{List};
    ghost use Rattle.component_definitions.specs.Passed.component_value_types-declared-scope-Scope.{Scope};
    ghost use Rattle.component_entries.specs.Entries.{EntryValue};
    ghost use Rattle.component_entries.specs.Nested as spec;

    ghost Value = { List EntryValue };

    ghost Known = { Scope };

    ghost content = { spec.nested_component };

    ghost known = { λ s. s };

    ghost value = { spec.nested_component_value };

    #[tactic(auto, unfolding(crate::specs::Nested::nested_component))]
    fn read_all(there: Scope, from: Reader<'a>) -> Result<NestedComponent<'a>, ReadError> {
        let mut from = from;
        let sections = sections_of(there, &mut from)?;
        let entries = entries_of(from.allocator(), sections)?;
        Ok(NestedComponent { entries })
    }

    #[tactic(auto, unfolding(crate::specs::Nested::nested_component, crate::specs::Nested::nested_sections))]
    fn put_all(&self, out: &mut Vec<u8>) -> Result<(), WriteFault> {
        let mut room = Vec::new(*out.allocator());
        out.extend_from_slice(&HEADER)?;
        put_sections(&self.entries, &mut room, out)?;
        Ok(())
    }
}
