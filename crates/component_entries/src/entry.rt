//! What a whole component and a nested one both may have.

ghost use Rattle.std.specs.Prelude.{◌≡◌};
ghost use Rattle.component_instances.specs.TypeDefinitions.{type_definition_value};
ghost use Rattle.component_entries.specs.Entries as spec;
ghost use Rattle.component_entries.specs.Nested.{alone};

use crate::defined::Defined;
use crate::runs::Grouped;
use binary_grammar::{Part, ReadError, Reader, Rule, Step, WriteFault};
use component_definitions::{Alias, ComponentSort, Export, Import, Sort, described_sort};
use component_instances::TypeDefinition;

/// Which section an entry stands in.
#[derive(Clone, Copy, Debug, PartialEq, Eq)]
pub enum EntryKind {
    /// 6
    Alias,
    /// 7
    Type_,
    /// 10
    Import,
    /// 11
    Export,
}

/// A definition that a whole component and a nested one both may have (Component Model Binary, Component Definitions).
#[derive(Debug, Drop)]
pub enum Entry<'a> {
    /// Another name for what is there already.
    Alias(Alias<'a>),
    /// A type.
    Type_(TypeDefinition<'a>),
    /// What is asked for, under a name.
    Import(Import<'a>),
    /// What is offered, under a name.
    Export(Export<'a>),
}

impl EntryKind {
    /// The byte of its section.
    pub fn byte(self) -> u8
        ensures { result ≡ spec.kind_byte self }
    {
        match self {
            EntryKind::Alias => 6,
            EntryKind::Type_ => 7,
            EntryKind::Import => 10,
            EntryKind::Export => 11,
        }
    }
}

/// The kind whose section has this byte.
#[tactic(auto, unfolding(crate::specs::Entries::kind_of))]
pub fn kind_of(byte: u8) -> Result<EntryKind, Rule>
    ensures { result ≡ spec.kind_of byte }
{
    match byte {
        6 => Ok(EntryKind::Alias),
        7 => Ok(EntryKind::Type_),
        10 => Ok(EntryKind::Import),
        11 => Ok(EntryKind::Export),
        _ => Err(Rule::Tag),
    }
}

/// Whether it defines a resource.
pub fn is_resource(ty: &TypeDefinition) -> bool
    ensures { result ≡ spec.is_resource (type_definition_value ty.now) }
{
    match ty {
        TypeDefinition::Resource(_) => true,
        TypeDefinition::Defined(_) | TypeDefinition::Instance(_) => false,
    }
}

impl Entry<'_> {
    /// The section that it stands in.
    pub fn kind(&self) -> EntryKind
        ensures { result ≡ spec.entry_kind (spec.entry_value self.now) }
    {
        match self {
            Entry::Alias(_) => EntryKind::Alias,
            Entry::Type_(_) => EntryKind::Type_,
            Entry::Import(_) => EntryKind::Import,
            Entry::Export(_) => EntryKind::Export,
        }
    }

    /// The sort of which it takes the next index (Component Model, Explainer, Index Spaces).
    pub fn sort(&self) -> Sort
        ensures { result ≡ spec.entry_sort (spec.entry_value self.now) }
    {
        match self {
            Entry::Alias(alias) => alias.sort(),
            Entry::Type_(_) => Sort::Component(ComponentSort::Type_),
            Entry::Import(import) => Sort::Component(described_sort(import.description)),
            Entry::Export(export) => export.sort,
        }
    }
}

impl<'a> Grouped for Entry<'a> {
    ghost use Rattle.component_entries.specs.Entries as spec;
    ghost use Rattle.component_entries.specs.Nested.{entry_byte, alone};

    ghost Value = { spec.EntryValue };

    ghost Known = { spec.DefinedValue };

    ghost section = { entry_byte };

    ghost alone = { alone };

    ghost item = { λ b. spec.entry_behind (spec.kind_of b) };

    ghost value = { spec.entry_value };

    fn section_byte(&self) -> u8 {
        self.kind().byte()
    }

    fn has_its_own(byte: u8) -> bool
        ensures { result ≡ alone byte }
    {
        let _byte = byte;
        false
    }

    #[tactic(auto, unfolding(crate::specs::Entries::kind_of, component_definitions::specs::Externs::import_entry, component_definitions::specs::Externs::export_entry))]
    fn put(&self, out: &mut Vec<u8>) -> Result<(), WriteFault> {
        match self {
            Entry::Alias(alias) => alias.put(out),
            Entry::Type_(ty) => ty.put(out),
            Entry::Import(import) => import.put(out),
            Entry::Export(export) => export.put(out),
        }
    }
}

impl<'a> Step<'a> for Entry<'a> {
    type State = Defined<'a>;

    ghost use Rattle.component_entries.specs.Entries as spec;
    ghost use Rattle.component_entries.specs.Views as view;

    ghost Value = { spec.EntryValue };

    ghost Known = { spec.DefinedValue };

    ghost grow = { spec.with_entry };

    ghost which = { λ e. spec.kind_byte (spec.entry_kind e) };

    ghost next = { λ b. spec.entry_behind (spec.kind_of b) };

    ghost known = { view.defined_value };

    ghost value = { spec.entry_value };

    ghost stands = { λ _ _. Unit {0} };

    fn read_behind(
        kind: u8,
        state: &mut Defined<'a>,
        from: &mut Reader<'a>,
    ) -> Result<Entry<'a>, ReadError> {
        match kind_of(kind) {
            Ok(kind) => {
                let entry = state.entry(kind, from)?;
                state.add(&entry)?;
                Ok(entry)
            }
            Err(rule) => Err(from.broken(rule)),
        }
    }
}
