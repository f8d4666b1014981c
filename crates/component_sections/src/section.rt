//! Definitions, and the sections that they stand in.

ghost use Rattle.std.specs.Prelude.{◌≡◌, ◌+◌, ◌≤◌, ◌==◌, ◌++◌, ◌∷◌, ℕ, List, [], true, map, length, IfOk, OnOk, IfErr, Err};
ghost use Rattle.std.specs.List.{All};
ghost use Rattle.binary_grammar.specs.declared.fault.Rule.TheVariants as rules;
ghost use Rattle.binary_grammar.specs.Fault.{Gives};
ghost use Rattle.binary_grammar.specs.Place.{Within};
ghost use Rattle.binary_grammar.specs.Several.{grown};
ghost use Rattle.binary_grammar.specs.Syntax.{meaning, bytes, IsTyped, exactly, sized, tested, number};
ghost use Rattle.component_sections.specs.declared.section.SectionId.TheVariants as ids;
ghost use Rattle.component_entries.specs.Entries.{DefinedValue, nothing};
ghost use Rattle.component_entries.specs.Nested.{nested_component, nested_component_value};
ghost use Rattle.component_sections.specs.Component as spec;
ghost use Rattle.component_entries.specs.Views as view;

use binary_grammar::{
    Content, Part, ReadError, Reader, Rule, Step, WriteFault, bounded_growing_of, bounded_of,
    broken_at, moved, put_with_length,
};
use component_entries::{
    CanonicalDefinition, ComponentSort, CoreInstance, Defined, Entry, EntryKind, Grouped,
    IndexSpace, Instance, NestedComponent, Sort, custom_name, kind_of, put_first, with_one,
};

/// What a section holds (Component Model Binary, Component Definitions).
#[derive(Clone, Copy, Debug, PartialEq, Eq)]
pub enum SectionId {
    /// 0: a name and anything behind it.
    Custom,
    /// 1: a core module.
    CoreModule,
    /// 2: core instances.
    CoreInstance,
    /// 3: core types, of which there are none.
    CoreType,
    /// 4: a component.
    Component,
    /// 5: instances.
    Instance,
    /// 8: what joins core functions and functions.
    Canonical,
    /// 6, 7, 10 or 11: what a nested component may have too.
    Entry(EntryKind),
}

/// A definition of a component (Component Model Binary, Component Definitions).
#[derive(Debug, Drop)]
pub enum Definition<'a> {
    /// A core module: its bytes.
    CoreModule(&'a [u8]),
    /// An instance of a core module, or one that is made of exports.
    CoreInstance(CoreInstance<'a>),
    /// A component within this one.
    Component(NestedComponent<'a>),
    /// An instance of a component, or one that is made of exports.
    Instance(Instance<'a>),
    /// What joins core functions and functions.
    Canonical(CanonicalDefinition),
    /// What a nested component may have too.
    Entry(Entry<'a>),
}

/// A definition, and where it begins, counted in bytes from the start of the component: a core module or component at its
/// size, another one at its first byte.
#[derive(Debug, Drop)]
pub struct PlacedDefinition<'a> {
    pub offset: usize,
    pub definition: Definition<'a>,
}

/// A section: its definitions.
#[derive(Drop)]
pub struct Section<'a> {
    pub id: SectionId,
    pub definitions: Vec<PlacedDefinition<'a>>,
}

impl SectionId {
    /// Its byte.
    pub fn byte(self) -> u8
        ensures { result ≡ spec.section_byte self }
    {
        match self {
            SectionId::Custom => 0,
            SectionId::CoreModule => 1,
            SectionId::CoreInstance => 2,
            SectionId::CoreType => 3,
            SectionId::Component => 4,
            SectionId::Instance => 5,
            SectionId::Canonical => 8,
            SectionId::Entry(kind) => kind.byte(),
        }
    }
}

/// What a section with this byte holds.
#[tactic(auto, unfolding(crate::specs::Component::section_id_of))]
pub fn section_id_of(byte: u8) -> Result<SectionId, Rule>
    ensures { result ≡ spec.section_id_of byte }
{
    match byte {
        0 => Ok(SectionId::Custom),
        1 => Ok(SectionId::CoreModule),
        2 => Ok(SectionId::CoreInstance),
        3 => Ok(SectionId::CoreType),
        4 => Ok(SectionId::Component),
        5 => Ok(SectionId::Instance),
        8 => Ok(SectionId::Canonical),
        _ => match kind_of(byte) {
            Ok(kind) => Ok(SectionId::Entry(kind)),
            Err(rule) => Err(rule),
        },
    }
}

impl Definition<'_> {
    /// The index space of which it takes the next index (Component Model, Explainer, Index Spaces).
    pub fn space(&self) -> IndexSpace
        ensures { result ≡ spec.space_of (spec.definition_value self.now) }
    {
        match self {
            Definition::CoreModule(_) => IndexSpace::CoreModules,
            Definition::CoreInstance(_) => IndexSpace::CoreInstances,
            Definition::Component(_) => IndexSpace::Components,
            Definition::Instance(_) => IndexSpace::Of(Sort::Component(ComponentSort::Instance)),
            Definition::Canonical(canonical) => IndexSpace::Of(canonical.sort()),
            Definition::Entry(entry) => IndexSpace::Of(entry.sort()),
        }
    }

    /// Whether it has its section for itself.
    pub fn stands_alone(&self) -> bool
        ensures { result ≡ spec.alone (spec.definition_byte (spec.definition_value self.now)) }
    {
        matches!(self, Definition::CoreModule(_) | Definition::Component(_))
    }

    /// The section that it stands in.
    pub fn section(&self) -> SectionId
        ensures { result ≡ spec.section_id (spec.definition_value self.now) }
    {
        match self {
            Definition::CoreModule(_) => SectionId::CoreModule,
            Definition::CoreInstance(_) => SectionId::CoreInstance,
            Definition::Component(_) => SectionId::Component,
            Definition::Instance(_) => SectionId::Instance,
            Definition::Canonical(_) => SectionId::Canonical,
            Definition::Entry(entry) => SectionId::Entry(entry.kind()),
        }
    }
}

/// Adds a nested component behind its size.
fn put_component(component: &NestedComponent<'_>, out: &mut Vec<u8>) -> Result<(), WriteFault>
    ensures bytes { OnOk result (out.new.items ≡ out.old.items ++ bytes (sized nested_component) (nested_component_value component.now)) }
    ensures typed { OnOk result (IsTyped (sized nested_component) (nested_component_value component.now)) }
    ensures large { result ≡ Err WriteFault.TooLarge → IsTyped (sized nested_component) (nested_component_value component.now) → ⊥ }
{
    let mut content = Vec::new(*out.allocator());
    component.put_all(&mut content)?;
    put_with_length(out, &content)
}

impl<'a> Grouped for Definition<'a> {
    ghost use Rattle.component_entries.specs.Entries.{DefinedValue};
    ghost use Rattle.component_sections.specs.Component as spec;

    ghost Value = { spec.DefinitionValue };

    ghost Known = { DefinedValue };

    ghost section = { spec.definition_byte };

    ghost alone = { spec.alone };

    ghost item = { λ b. spec.definition_behind (spec.section_id_of b) };

    ghost value = { spec.definition_value };

    fn section_byte(&self) -> u8 {
        self.section().byte()
    }

    fn has_its_own(byte: u8) -> bool
        ensures { result ≡ spec.alone byte }
    {
        byte == 1 || byte == 4
    }

    #[tactic(auto, unfolding(crate::specs::Component::section_id_of, component_entries::specs::Entries::kind_of))]
    fn put(&self, out: &mut Vec<u8>) -> Result<(), WriteFault> {
        match self {
            Definition::CoreModule(bytes) => put_with_length(out, bytes),
            Definition::CoreInstance(instance) => instance.put(out),
            Definition::Component(component) => put_component(component, out),
            Definition::Instance(instance) => instance.put(out),
            Definition::Canonical(canonical) => canonical.put(out),
            Definition::Entry(entry) => entry.put(out),
        }
    }
}

/// Adds the section of a definition that has one for itself.
#[tactic(auto, using(crate::proofs::WholeSections::own_spelled, crate::proofs::WholeSections::own_typed, crate::proofs::WholeSections::typed_own))]
fn put_own_section(definition: &Definition<'_>, out: &mut Vec<u8>) -> Result<(), WriteFault>
    requires { spec.alone (spec.definition_byte (spec.definition_value definition.now)) ≡ true }
    ensures bytes { OnOk result (out.new.items ≡ out.old.items ++ spec.section_bytes (spec.section_of (spec.definition_value definition.now ∷ []))) }
    ensures typed { OnOk result (spec.IsSection (spec.section_of (spec.definition_value definition.now ∷ []))) }
    ensures large { result ≡ Err WriteFault.TooLarge → spec.IsSection (spec.section_of (spec.definition_value definition.now ∷ [])) → ⊥ }
{
    out.push(definition.section_byte())?;
    definition.put(out)?;
    Ok(())
}

/// Adds the section that begins with a definition and has those behind it that share it; answers how many these are in all.
/// The content of a vector is made in `room`, which is emptied for it. Answers `TooLarge` only where 32 bits can't say the count or the
/// size, or a definition doesn't fit.
#[tactic(auto, using(crate::proofs::WholeSections::own_front, crate::proofs::WholeSections::vector_spelled, crate::proofs::WholeSections::vector_typed, crate::proofs::WholeSections::typed_vector))]
pub fn put_section<'a>(
    first: &Definition<'a>,
    more: &[Definition<'a>],
    room: &mut Vec<u8>,
    out: &mut Vec<u8>,
) -> Result<usize, WriteFault>
    ensures count { IfOk result (λ n. n ≡ length (spec.first_section (spec.definition_value first.now ∷ map spec.definition_value more.now))) }
    ensures within { IfOk result (λ n. n ≤ 1 + length more.now) }
    ensures bytes { OnOk result (out.new.items ≡ out.old.items ++ spec.section_bytes (spec.section_of (spec.first_section (spec.definition_value first.now ∷ map spec.definition_value more.now)))) }
    ensures typed { OnOk result (spec.IsSection (spec.section_of (spec.first_section (spec.definition_value first.now ∷ map spec.definition_value more.now)))) }
    ensures large { result ≡ Err WriteFault.TooLarge → spec.IsSection (spec.section_of (spec.first_section (spec.definition_value first.now ∷ map spec.definition_value more.now))) → ⊥ }
{
    if first.stands_alone() {
        put_own_section(first, out)?;
        return Ok(1);
    }
    put_first(first, more, room, out)
}

fn core_module<'a>(there: &Defined<'a>, from: &mut Reader<'a>) -> Result<Definition<'a>, ReadError>
    ensures gives { Gives (λ x. (spec.definition_value x, from.new.left)) result ((meaning (spec.definition_in ids.CoreModule) (view.defined_value there.now)).read from.old.left) }
    ensures end { from.new.end ≡ from.old.end }
{
    let inside = from.inside()?;
    Ok(Definition::CoreModule(inside.rest()))
}

/// A definition as it stands in this section.
fn definition_in<'a>(
    id: SectionId,
    there: &Defined<'a>,
    from: &mut Reader<'a>,
) -> Result<Definition<'a>, ReadError>
    ensures gives { Gives (λ x. (spec.definition_value x, from.new.left)) result ((meaning (spec.definition_in id) (view.defined_value there.now)).read from.old.left) }
    ensures end { from.new.end ≡ from.old.end }
{
    let scope = there.scope;
    match id {
        SectionId::CoreModule => core_module(there, from),
        SectionId::CoreInstance => Ok(Definition::CoreInstance(CoreInstance::read(scope, from)?)),
        SectionId::Component => Ok(Definition::Component(bounded_of(scope, from)?)),
        SectionId::Instance => Ok(Definition::Instance(Instance::read(scope, from)?)),
        SectionId::Canonical => Ok(Definition::Canonical(CanonicalDefinition::read(scope, from)?)),
        SectionId::Entry(kind) => Ok(Definition::Entry(there.entry(kind, from)?)),
        SectionId::Custom | SectionId::CoreType => Err(from.broken(Rule::Tag)),
    }
}

/// Adds a definition to what is there.
fn define<'a>(state: &mut Defined<'a>, definition: &Definition<'a>) -> Result<(), ReadError>
    ensures ok { OnOk result (view.defined_value state.new ≡ spec.with_definition (view.defined_value state.old) (spec.definition_value definition.now)) }
    ensures memory { IfErr result (λ e. e ≡ ReadError.Memory) }
{
    if let Definition::Entry(entry) = definition {
        return state.add(entry);
    }
    state.scope = with_one(state.scope, definition.space()).ok_or(ReadError::Memory)?;
    Ok(())
}

impl<'a> Step<'a> for PlacedDefinition<'a> {
    type State = Defined<'a>;

    ghost use Rattle.component_entries.specs.Entries.{DefinedValue};
    ghost use Rattle.component_sections.specs.Component as spec;
    ghost use Rattle.component_entries.specs.Views as view;

    ghost Value = { spec.DefinitionValue };

    ghost Known = { DefinedValue };

    ghost grow = { spec.with_definition };

    ghost which = { λ d. spec.section_byte (spec.section_id d) };

    ghost next = { λ b. spec.definition_behind (spec.section_id_of b) };

    ghost known = { view.defined_value };

    ghost value = { spec.placed_value };

    ghost stands = { spec.StandsIn };

    #[tactic(auto, using(crate::proofs::Places::definition_stands))]
    fn read_behind(
        kind: u8,
        state: &mut Defined<'a>,
        from: &mut Reader<'a>,
    ) -> Result<PlacedDefinition<'a>, ReadError> {
        match section_id_of(kind) {
            Ok(id) => {
                let offset = from.offset();
                let definition = definition_in(id, state, from)?;
                define(state, &definition)?;
                Ok(PlacedDefinition { offset, definition })
            }
            Err(rule) => Err(from.broken(rule)),
        }
    }
}

/// The count of no core types, which is all that is left.
fn no_types(from: Reader<'_>) -> Result<u32, ReadError>
    ensures { Gives (λ n. n) result ((meaning (exactly (tested rules.Unsupported (λ _ n. n == 0) (number {C = DefinedValue}))) nothing).read from.entry.left) }
{
    let mut from = from;
    let at = from.left();
    let count = from.number()?;
    if count != 0 {
        return Err(broken_at(Rule::Unsupported, at));
    }
    from.ended()?;
    Ok(count)
}

/// A section of core types, which has none.
fn core_types(from: &mut Reader<'_>) -> Result<u32, ReadError>
    ensures gives { Gives (λ n. (n, from.new.left)) result ((meaning (sized (exactly (tested rules.Unsupported (λ _ n. n == 0) (number {C = DefinedValue})))) nothing).read from.old.left) }
    ensures end { from.new.end ≡ from.old.end }
{
    let inside = from.inside()?;
    match no_types(inside) {
        Ok(count) => Ok(count),
        Err(e) => Err(moved(e, from.left())),
    }
}

/// The one definition of a section that has no vector.
#[tactic(auto, using(crate::proofs::SectionBytes::id_again))]
fn one<'a>(
    id: SectionId,
    state: &mut Defined<'a>,
    from: &mut Reader<'a>,
) -> Result<Vec<PlacedDefinition<'a>>, ReadError>
    ensures gives { Gives (λ x. (record { id = id; definitions = map spec.placed_value x.items }, from.new.left)) result ((meaning (spec.section_by spec.one id) (view.defined_value state.old)).read from.old.left) }
    ensures grows { IfOk result (λ x. view.defined_value state.new ≡ grown spec.with_definition (view.defined_value state.old) (map spec.placed_value x.items)) }
    ensures stands { (total : List ℕ) → Within total from.old → IfOk result (λ x. All (spec.StandsIn total) x.items) }
    ensures end { from.new.end ≡ from.old.end }
{
    let definition = PlacedDefinition::read_behind(id.byte(), state, from)?;
    let mut definitions = Vec::new(from.allocator());
    definitions.push(definition)?;
    Ok(definitions)
}

/// The definitions of a section, behind its byte.
#[tactic(auto, using(crate::proofs::SectionBytes::id_again))]
fn definitions_of<'a>(
    id: SectionId,
    state: &mut Defined<'a>,
    from: &mut Reader<'a>,
) -> Result<Vec<PlacedDefinition<'a>>, ReadError>
    ensures gives { Gives (λ x. (record { id = id; definitions = map spec.placed_value x.items }, from.new.left)) result ((meaning (spec.section_by (spec.form_of id) id) (view.defined_value state.old)).read from.old.left) }
    ensures grows { IfOk result (λ x. view.defined_value state.new ≡ grown spec.with_definition (view.defined_value state.old) (map spec.placed_value x.items)) }
    ensures stands { (total : List ℕ) → Within total from.old → IfOk result (λ x. All (spec.StandsIn total) x.items) }
    ensures end { from.new.end ≡ from.old.end }
{
    match id {
        SectionId::Custom => {
            custom_name(from)?;
            Ok(Vec::new(from.allocator()))
        }
        SectionId::CoreType => {
            core_types(from)?;
            Ok(Vec::new(from.allocator()))
        }
        SectionId::CoreModule | SectionId::Component => one(id, state, from),
        _ => bounded_growing_of(id.byte(), state, from),
    }
}

impl<'a> Step<'a> for Section<'a> {
    type State = Defined<'a>;

    ghost use Rattle.component_entries.specs.Entries.{DefinedValue};
    ghost use Rattle.component_sections.specs.Component as spec;
    ghost use Rattle.component_entries.specs.Views as view;

    ghost Value = { spec.SectionValue };

    ghost Known = { DefinedValue };

    ghost grow = { spec.section_with };

    ghost which = { spec.byte_of };

    ghost next = { spec.section_next };

    ghost known = { view.defined_value };

    ghost value = { spec.section_value };

    ghost stands = { λ total s. All (spec.StandsIn total) s.definitions.items };

    #[tactic(auto, unfolding(crate::specs::Component::section_next))]
    fn read_behind(
        kind: u8,
        state: &mut Defined<'a>,
        from: &mut Reader<'a>,
    ) -> Result<Section<'a>, ReadError> {
        match section_id_of(kind) {
            Ok(id) => {
                let definitions = definitions_of(id, state, from)?;
                Ok(Section { id, definitions })
            }
            Err(rule) => Err(from.broken(rule)),
        }
    }
}
