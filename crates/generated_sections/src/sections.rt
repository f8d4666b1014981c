//! Sections of generated modules.

ghost use Rattle.std.specs.Prelude.{◌≡◌, map, IfSome, IsSome};
ghost use Rattle.binary_grammar.specs.Fault.{Gives};
ghost use Rattle.binary_grammar.specs.Syntax.{meaning, exactly, sized, vec};
ghost use Rattle.wasm_sections.specs.declared.section.SectionId.TheVariants as id;
ghost use Rattle.wasm_sections.specs.Module.{Fits, nothing};
ghost use Rattle.generated_sections.specs.Types.{import_value, kind_of_import};
ghost use Rattle.generated_sections.specs.Sections as spec;

use crate::types::{Import, ImportType, SlotGlobal, SlotTable};
use binary_grammar::{Part, ReadError, Reader, Rule, Step, bounded_of, broken_at, steps_of};
use std::alloc::Global;
use wasm_bodies::{Body, Bounded, ElementSegment};
use wasm_sections::{
    CustomName, HEADER, Items, Kept, Progress, SectionId, Start, is_in_order, rank_of,
    section_id_of,
};
use wasm_types::{Code, Export, ExportKind, FuncType, Limits, Spaces, TypeIndex};

/// A section of a generated module, by what it holds (WebAssembly Core, Binary Format, Modules, Sections).
#[derive(Drop)]
pub enum Section<'a> {
    /// A name, and anything.
    Custom(&'a [u8]),
    /// Types.
    Types(Vec<FuncType>),
    /// Imports.
    Imports(Vec<Import<'a>>),
    /// The types of functions.
    Functions(Vec<TypeIndex>),
    /// Tables.
    Tables(Vec<SlotTable>),
    /// Memories.
    Memories(Vec<Limits>),
    /// Globals.
    Globals(Vec<SlotGlobal>),
    /// Exports.
    Exports(Vec<Export<'a>>),
    /// The function that is called first.
    Start(u32),
    /// Segments of functions.
    Elements(Vec<ElementSegment>),
    /// What each function does.
    Bodies(Vec<Bounded<Body>>),
}

impl Section<'_> {
    /// Its sort.
    pub fn id(&self) -> SectionId
        ensures { result ≡ spec.id_of (spec.section_value self.now) }
    {
        match self {
            Section::Custom(_) => SectionId::Custom,
            Section::Types(_) => SectionId::Type_,
            Section::Imports(_) => SectionId::Import,
            Section::Functions(_) => SectionId::Function,
            Section::Tables(_) => SectionId::Table,
            Section::Memories(_) => SectionId::Memory,
            Section::Globals(_) => SectionId::Global,
            Section::Exports(_) => SectionId::Export,
            Section::Start(_) => SectionId::Start,
            Section::Elements(_) => SectionId::Element,
            Section::Bodies(_) => SectionId::Code,
        }
    }
}

/// A vector that is all of a section.
fn items_of<'a, T: Part<'a, Context = Spaces>>(
    there: Spaces,
    from: &mut Reader<'a>,
) -> Result<Vec<T>, ReadError>
    ensures gives { Gives (λ v. (map T.value v.items, from.new.left)) result ((meaning (sized (exactly (vec T.syntax))) (T.known there)).read from.old.left) }
    ensures end { from.new.end ≡ from.old.end }
{
    let content = bounded_of::<Items<T>>(there, from)?;
    Ok(content.items)
}

fn custom<'a>(there: Spaces, from: &mut Reader<'a>) -> Result<Section<'a>, ReadError>
    ensures gives { Gives (λ x. (spec.section_value x, from.new.left)) result ((meaning (spec.whole_section id.Custom) there).read from.old.left) }
    ensures end { from.new.end ≡ from.old.end }
{
    let kept = bounded_of::<Kept<'a, CustomName<'a>>>(there, from)?;
    Ok(Section::Custom(kept.content))
}

fn start<'a>(there: Spaces, from: &mut Reader<'a>) -> Result<Section<'a>, ReadError>
    ensures gives { Gives (λ x. (spec.section_value x, from.new.left)) result ((meaning (spec.whole_section id.Start) there).read from.old.left) }
    ensures end { from.new.end ≡ from.old.end }
{
    let start = bounded_of::<Start>(there, from)?;
    Ok(Section::Start(start.function))
}

/// A section by its sort.
fn section_behind<'a>(
    id: SectionId,
    there: Spaces,
    from: &mut Reader<'a>,
) -> Result<Section<'a>, ReadError>
    ensures gives { Gives (λ x. (spec.section_value x, from.new.left)) result ((meaning (spec.whole_section id) there).read from.old.left) }
    ensures end { from.new.end ≡ from.old.end }
{
    match id {
        SectionId::Custom => custom(there, from),
        SectionId::Type_ => Ok(Section::Types(items_of(there, from)?)),
        SectionId::Import => Ok(Section::Imports(items_of(there, from)?)),
        SectionId::Function => Ok(Section::Functions(items_of(there, from)?)),
        SectionId::Table => Ok(Section::Tables(items_of(there, from)?)),
        SectionId::Memory => Ok(Section::Memories(items_of(there, from)?)),
        SectionId::Global => Ok(Section::Globals(items_of(there, from)?)),
        SectionId::Export => Ok(Section::Exports(items_of(there, from)?)),
        SectionId::Start => start(there, from),
        SectionId::Element => Ok(Section::Elements(items_of(there, from)?)),
        SectionId::Code => Ok(Section::Bodies(items_of(there, from)?)),
        SectionId::Data | SectionId::DataCount => Err(from.broken(Rule::Unsupported)),
    }
}

/// How many imports are of a sort.
fn imported(kind: ExportKind, imports: &[Import<'_>]) -> usize
    ensures { result ≡ spec.imported kind (map import_value imports.now) }
{
    let mut count = 0;
    for import in imports {
        if import.ty.kind().byte() == kind.byte() {
            count += 1;
        }
    }
    count
}

fn spaces_with_imports(there: Spaces, imports: &[Import<'_>]) -> Option<Spaces>
    ensures value { IfSome result (λ s. s ≡ spec.spaces_with there (spec.imports (map import_value imports.now))) }
    ensures fits { Fits (spec.spaces_with there (spec.imports (map import_value imports.now))) → IsSome result }
{
    let functions = imported(ExportKind::Func, imports);
    let tables = imported(ExportKind::Table, imports);
    let memories = imported(ExportKind::Memory, imports);
    let globals = imported(ExportKind::Global, imports);
    Some(Spaces {
        types: there.types,
        functions: there.functions.checked_add(functions)?,
        tables: there.tables.checked_add(tables)?,
        memories: there.memories.checked_add(memories)?,
        globals: there.globals.checked_add(globals)?,
    })
}

/// What is there with a section, unless that can't be counted.
fn spaces_with(there: Spaces, section: &Section<'_>) -> Option<Spaces>
    ensures value { IfSome result (λ s. s ≡ spec.spaces_with there (spec.section_value section.now)) }
    ensures fits { Fits (spec.spaces_with there (spec.section_value section.now)) → IsSome result }
{
    let mut spaces = there;
    match section {
        Section::Types(types) => spaces.types = there.types.checked_add(types.len())?,
        Section::Imports(imports) => return spaces_with_imports(there, imports),
        Section::Functions(functions) => {
            spaces.functions = there.functions.checked_add(functions.len())?;
        }
        Section::Tables(tables) => spaces.tables = there.tables.checked_add(tables.len())?,
        Section::Memories(memories) => {
            spaces.memories = there.memories.checked_add(memories.len())?;
        }
        Section::Globals(globals) => spaces.globals = there.globals.checked_add(globals.len())?,
        Section::Custom(_)
        | Section::Exports(_)
        | Section::Start(_)
        | Section::Elements(_)
        | Section::Bodies(_) => {}
    }
    Some(spaces)
}

/// A section of this sort, where sections before it are known.
#[tactic(auto, unfolding(crate::specs::Sections::next))]
fn section_of<'a>(
    kind: u8,
    there: Progress,
    from: &mut Reader<'a>,
) -> Result<Section<'a>, ReadError>
    ensures gives { Gives (λ x. (spec.section_value x, from.new.left)) result ((meaning (spec.next kind) there).read from.old.left) }
    ensures end { from.new.end ≡ from.old.end }
{
    match section_id_of(kind) {
        Ok(id) if is_in_order(id, there) => section_behind(id, there.spaces, from),
        Ok(_) => Err(from.broken(Rule::Order)),
        Err(rule) => Err(from.broken(rule)),
    }
}

impl<'a> Step<'a> for Section<'a> {
    type State = Progress;

    ghost use Rattle.wasm_sections.specs.declared.sections.Progress.{Progress};
    ghost use Rattle.generated_sections.specs.Sections as spec;

    ghost Value = { spec.SectionValue };

    ghost Known = { Progress };

    ghost grow = { spec.progress_with };

    ghost which = { spec.byte_of };

    ghost next = { spec.next };

    ghost known = { λ p. p };

    ghost value = { spec.section_value };

    ghost stands = { λ _ _. Unit {0} };

    fn read_behind(
        kind: u8,
        state: &mut Progress,
        from: &mut Reader<'a>,
    ) -> Result<Section<'a>, ReadError> {
        let section = section_of(kind, *state, from)?;
        let spaces = spaces_with(state.spaces, &section);
        state.spaces = spaces.ok_or(ReadError::Memory)?;
        state.rank = state.rank.max(rank_of(section.id()));
        Ok(section)
    }
}

/// The sections of the generated module that the bytes are, in their order. Bytes that have no such sections break a rule, and
/// are refused by the first that they break, and its place.
#[tactic(auto, unfolding(crate::specs::Sections::file))]
pub fn read_sections(alloc: Global, bytes: &[u8]) -> Result<Vec<Section<'_>>, ReadError>
    ensures { Gives (λ v. map spec.section_value v.items) result ((meaning spec.file nothing).read bytes.now) }
{
    let mut from = Reader::new(alloc, bytes);
    let at = from.left();
    if from.bytes(8)? != HEADER.as_slice() {
        return Err(broken_at(Rule::Header, at));
    }
    let mut progress = Progress::new();
    steps_of(&mut progress, &mut from)
}
