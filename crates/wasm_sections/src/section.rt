//! Sections of core modules.

ghost use Rattle.std.specs.Prelude.{◌≡◌, true};
ghost use Rattle.binary_grammar.specs.Fault.{Gives};
ghost use Rattle.binary_grammar.specs.Syntax.{meaning};
ghost use Rattle.wasm_sections.specs.Module as spec;
ghost use Rattle.wasm_sections.specs.declared.section.SectionId.TheVariants as id;

use crate::contents::{CustomName, Framed, Globals, Items};
use crate::kept::Kept;
use binary_grammar::{ReadError, Reader, Rule, bounded_of};
use wasm_types::{Export, FuncType, Global, Import, Limits, Spaces, TableType, TypeIndex};

/// The sort of a section (WebAssembly Core, Binary Format, Modules, Sections).
#[derive(Clone, Copy, Debug, PartialEq, Eq)]
pub enum SectionId {
    /// 0
    Custom,
    /// 1
    Type_,
    /// 2
    Import,
    /// 3
    Function,
    /// 4
    Table,
    /// 5
    Memory,
    /// 6
    Global,
    /// 7
    Export,
    /// 8
    Start,
    /// 9
    Element,
    /// 10
    Code,
    /// 11
    Data,
    /// 12
    DataCount,
}

/// What a section holds.
#[derive(Drop)]
pub enum Holding<'a> {
    /// Types.
    Types(Vec<FuncType>),
    /// Imports.
    Imports(Vec<Import<'a>>),
    /// The types of functions.
    Functions(Vec<TypeIndex>),
    /// Tables.
    Tables(Vec<TableType>),
    /// Memories.
    Memories(Vec<Limits>),
    /// Globals.
    Globals(Vec<Global<'a>>),
    /// Exports.
    Exports(Vec<Export<'a>>),
    /// Something that isn't looked into.
    Framed,
}

/// A section.
#[derive(Drop)]
pub struct Section<'a> {
    /// Its sort.
    pub id: SectionId,
    /// Its bytes.
    pub content: &'a [u8],
    /// What they hold.
    pub holds: Holding<'a>,
}

/// The sort that a byte stands for.
#[tactic(auto, unfolding(crate::specs::Module::section_id_of))]
pub fn section_id_of(byte: u8) -> Result<SectionId, Rule>
    ensures { result ≡ spec.section_id_of byte }
{
    match byte {
        0 => Ok(SectionId::Custom),
        1 => Ok(SectionId::Type_),
        2 => Ok(SectionId::Import),
        3 => Ok(SectionId::Function),
        4 => Ok(SectionId::Table),
        5 => Ok(SectionId::Memory),
        6 => Ok(SectionId::Global),
        7 => Ok(SectionId::Export),
        8 => Ok(SectionId::Start),
        9 => Ok(SectionId::Element),
        10 => Ok(SectionId::Code),
        11 => Ok(SectionId::Data),
        12 => Ok(SectionId::DataCount),
        13 => Err(Rule::Unsupported),
        _ => Err(Rule::Tag),
    }
}

/// The place of a sort in the order of sections.
pub fn rank_of(id: SectionId) -> u8
    ensures { result ≡ spec.rank_of id }
{
    match id {
        SectionId::Custom => 0,
        SectionId::Type_ => 1,
        SectionId::Import => 2,
        SectionId::Function => 3,
        SectionId::Table => 4,
        SectionId::Memory => 5,
        SectionId::Global => 6,
        SectionId::Export => 7,
        SectionId::Start => 8,
        SectionId::Element => 9,
        SectionId::DataCount => 10,
        SectionId::Code => 11,
        SectionId::Data => 12,
    }
}

fn custom<'a>(there: Spaces, from: &mut Reader<'a>) -> Result<Section<'a>, ReadError>
    ensures gives { Gives (λ x. (spec.section_value x, from.new.left)) result ((meaning (spec.whole_section id.Custom) there).read from.old.left) }
    ensures end { from.new.end ≡ from.old.end }
{
    let kept = bounded_of::<Kept<'a, CustomName<'a>>>(there, from)?;
    Ok(Section {
        id: SectionId::Custom,
        content: kept.content,
        holds: Holding::Framed,
    })
}

fn types<'a>(there: Spaces, from: &mut Reader<'a>) -> Result<Section<'a>, ReadError>
    ensures gives { Gives (λ x. (spec.section_value x, from.new.left)) result ((meaning (spec.whole_section id.Type_) there).read from.old.left) }
    ensures end { from.new.end ≡ from.old.end }
{
    let kept = bounded_of::<Kept<'a, Items<FuncType>>>(there, from)?;
    Ok(Section {
        id: SectionId::Type_,
        content: kept.content,
        holds: Holding::Types(kept.holds.items),
    })
}

fn imports<'a>(there: Spaces, from: &mut Reader<'a>) -> Result<Section<'a>, ReadError>
    ensures gives { Gives (λ x. (spec.section_value x, from.new.left)) result ((meaning (spec.whole_section id.Import) there).read from.old.left) }
    ensures end { from.new.end ≡ from.old.end }
{
    let kept = bounded_of::<Kept<'a, Items<Import<'a>>>>(there, from)?;
    Ok(Section {
        id: SectionId::Import,
        content: kept.content,
        holds: Holding::Imports(kept.holds.items),
    })
}

fn functions<'a>(there: Spaces, from: &mut Reader<'a>) -> Result<Section<'a>, ReadError>
    ensures gives { Gives (λ x. (spec.section_value x, from.new.left)) result ((meaning (spec.whole_section id.Function) there).read from.old.left) }
    ensures end { from.new.end ≡ from.old.end }
{
    let kept = bounded_of::<Kept<'a, Items<TypeIndex>>>(there, from)?;
    Ok(Section {
        id: SectionId::Function,
        content: kept.content,
        holds: Holding::Functions(kept.holds.items),
    })
}

fn tables<'a>(there: Spaces, from: &mut Reader<'a>) -> Result<Section<'a>, ReadError>
    ensures gives { Gives (λ x. (spec.section_value x, from.new.left)) result ((meaning (spec.whole_section id.Table) there).read from.old.left) }
    ensures end { from.new.end ≡ from.old.end }
{
    let kept = bounded_of::<Kept<'a, Items<TableType>>>(there, from)?;
    Ok(Section {
        id: SectionId::Table,
        content: kept.content,
        holds: Holding::Tables(kept.holds.items),
    })
}

fn memories<'a>(there: Spaces, from: &mut Reader<'a>) -> Result<Section<'a>, ReadError>
    ensures gives { Gives (λ x. (spec.section_value x, from.new.left)) result ((meaning (spec.whole_section id.Memory) there).read from.old.left) }
    ensures end { from.new.end ≡ from.old.end }
{
    let kept = bounded_of::<Kept<'a, Items<Limits>>>(there, from)?;
    Ok(Section {
        id: SectionId::Memory,
        content: kept.content,
        holds: Holding::Memories(kept.holds.items),
    })
}

fn globals<'a>(there: Spaces, from: &mut Reader<'a>) -> Result<Section<'a>, ReadError>
    ensures gives { Gives (λ x. (spec.section_value x, from.new.left)) result ((meaning (spec.whole_section id.Global) there).read from.old.left) }
    ensures end { from.new.end ≡ from.old.end }
{
    let kept = bounded_of::<Kept<'a, Globals<'a>>>(there, from)?;
    Ok(Section {
        id: SectionId::Global,
        content: kept.content,
        holds: Holding::Globals(kept.holds.items),
    })
}

fn exports<'a>(there: Spaces, from: &mut Reader<'a>) -> Result<Section<'a>, ReadError>
    ensures gives { Gives (λ x. (spec.section_value x, from.new.left)) result ((meaning (spec.whole_section id.Export) there).read from.old.left) }
    ensures end { from.new.end ≡ from.old.end }
{
    let kept = bounded_of::<Kept<'a, Items<Export<'a>>>>(there, from)?;
    Ok(Section {
        id: SectionId::Export,
        content: kept.content,
        holds: Holding::Exports(kept.holds.items),
    })
}

fn framed<'a>(id: SectionId, there: Spaces, from: &mut Reader<'a>) -> Result<Section<'a>, ReadError>
    requires { spec.is_framed id ≡ true }
    ensures gives { Gives (λ x. (spec.section_value x, from.new.left)) result ((meaning (spec.whole_section id) there).read from.old.left) }
    ensures end { from.new.end ≡ from.old.end }
{
    let kept = bounded_of::<Framed<'a>>(there, from)?;
    Ok(Section {
        id,
        content: kept.content,
        holds: Holding::Framed,
    })
}

/// A section by its sort.
pub fn section_behind<'a>(
    id: SectionId,
    there: Spaces,
    from: &mut Reader<'a>,
) -> Result<Section<'a>, ReadError>
    ensures gives { Gives (λ x. (spec.section_value x, from.new.left)) result ((meaning (spec.whole_section id) there).read from.old.left) }
    ensures end { from.new.end ≡ from.old.end }
{
    match id {
        SectionId::Custom => custom(there, from),
        SectionId::Type_ => types(there, from),
        SectionId::Import => imports(there, from),
        SectionId::Function => functions(there, from),
        SectionId::Table => tables(there, from),
        SectionId::Memory => memories(there, from),
        SectionId::Global => globals(there, from),
        SectionId::Export => exports(there, from),
        SectionId::Start
        | SectionId::Element
        | SectionId::Code
        | SectionId::Data
        | SectionId::DataCount => framed(id, there, from),
    }
}
