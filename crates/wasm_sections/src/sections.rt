//! The sections of a module.

ghost use Rattle.std.specs.Prelude.{◌≡◌, List, map, IfSome, IsSome, IfOk, IfErr, MatchResult};
ghost use Rattle.binary_grammar.specs.Fault.{Gives};
ghost use Rattle.binary_grammar.specs.Syntax.{meaning};
ghost use Rattle.wasm_types.specs.Entries.{import_value};
ghost use Rattle.wasm_types.specs.Types.{kind_of_entity};
ghost use Rattle.wasm_sections.specs.Module as spec;
ghost use Rattle.wasm_sections.specs.Module.{AreSections, IsSectionsFault};

use crate::section::{Holding, Section, SectionId, rank_of, section_behind, section_id_of};
use binary_grammar::{ReadError, Reader, Rule, Step, broken_at, steps_of};
use std::alloc::Global;
use wasm_types::{Code, EntityType, ExportKind, Import, Spaces};

/// The sort of what an import asks for.
fn kind_of(ty: EntityType) -> ExportKind
    ensures { result ≡ kind_of_entity ty }
{
    match ty {
        EntityType::Function(_) => ExportKind::Func,
        EntityType::Table(_) => ExportKind::Table,
        EntityType::Memory(_) => ExportKind::Memory,
        EntityType::Global(_) => ExportKind::Global,
    }
}

/// How many imports are of a sort.
fn imported(kind: ExportKind, imports: &[Import<'_>]) -> usize
    ensures { result ≡ spec.imported kind (map import_value imports.now) }
{
    let mut count = 0;
    for import in imports {
        if kind_of(import.ty).byte() == kind.byte() {
            count += 1;
        }
    }
    count
}

/// What is there with what a section holds, unless that can't be counted.
fn spaces_with(there: Spaces, holds: &Holding<'_>) -> Option<Spaces>
    ensures value { IfSome result (λ s. s ≡ spec.spaces_with there (spec.holding_value holds.now)) }
    ensures fits { spec.Fits (spec.spaces_with there (spec.holding_value holds.now)) → IsSome result }
{
    let mut spaces = there;
    match holds {
        Holding::Types(types) => spaces.types = there.types.checked_add(types.len())?,
        Holding::Imports(imports) => return spaces_with_imports(there, imports),
        Holding::Functions(functions) => {
            spaces.functions = there.functions.checked_add(functions.len())?;
        }
        Holding::Tables(tables) => spaces.tables = there.tables.checked_add(tables.len())?,
        Holding::Memories(memories) => {
            spaces.memories = there.memories.checked_add(memories.len())?;
        }
        Holding::Globals(globals) => spaces.globals = there.globals.checked_add(globals.len())?,
        Holding::Exports(_) | Holding::Framed => {}
    }
    Some(spaces)
}

fn spaces_with_imports(there: Spaces, imports: &[Import<'_>]) -> Option<Spaces>
    ensures value { IfSome result (λ s. s ≡ spec.spaces_with there (spec.imports (map import_value imports.now))) }
    ensures fits { spec.Fits (spec.spaces_with there (spec.imports (map import_value imports.now))) → IsSome result }
{
    let functions = imported(ExportKind::Func, imports);
    let tables = imported(ExportKind::Table, imports);
    let memories = imported(ExportKind::Memory, imports);
    let globals = imported(ExportKind::Global, imports);
    Some(Spaces {
        types: there.types,
        functions: there.functions.checked_add(functions)?,
        tables: there.tables.checked_add(tables)?,
        memories: there.memories.checked_add(memories)?,
        globals: there.globals.checked_add(globals)?,
    })
}

/// What is known where a section stands.
#[derive(Clone, Copy, Debug, PartialEq, Eq)]
pub struct Progress {
    /// How many of each sort there are.
    pub spaces: Spaces,
    /// How far in the order of sections it is.
    pub rank: u8,
}

/// Whether a section of this sort may stand here: a custom one anywhere, the others behind lower ones alone.
pub fn is_in_order(id: SectionId, there: Progress) -> bool
    ensures { result ≡ spec.is_in_order id there }
{
    rank_of(id) == 0 || there.rank < rank_of(id)
}

/// A section of this sort, where sections before it are known.
#[tactic(auto, unfolding(crate::specs::Module::next))]
fn section_of<'a>(
    kind: u8,
    there: Progress,
    from: &mut Reader<'a>,
) -> Result<Section<'a>, ReadError>
    ensures gives { Gives (λ x. (spec.section_value x, from.new.left)) result ((meaning (spec.next kind) there).read from.old.left) }
    ensures end { from.new.end ≡ from.old.end }
{
    match section_id_of(kind) {
        Ok(id) if is_in_order(id, there) => section_behind(id, there.spaces, from),
        Ok(_) => Err(from.broken(Rule::Order)),
        Err(rule) => Err(from.broken(rule)),
    }
}

impl<'a> Step<'a> for Section<'a> {
    type State = Progress;

    ghost use Rattle.wasm_sections.specs.declared.sections.Progress.{Progress};
    ghost use Rattle.wasm_sections.specs.Module as spec;

    ghost Value = { spec.SectionValue };

    ghost Known = { Progress };

    ghost grow = { spec.progress_with };

    ghost which = { spec.byte_of };

    ghost next = { spec.next };

    ghost known = { λ p. p };

    ghost value = { spec.section_value };

    ghost stands = { λ _ _. Unit {0} };

    fn read_behind(
        kind: u8,
        state: &mut Progress,
        from: &mut Reader<'a>,
    ) -> Result<Section<'a>, ReadError> {
        let section = section_of(kind, *state, from)?;
        let spaces = spaces_with(state.spaces, &section.holds);
        state.spaces = spaces.ok_or(ReadError::Memory)?;
        state.rank = state.rank.max(rank_of(section.id));
        Ok(section)
    }
}

/// What a core module begins with.
pub const HEADER: [u8; 8] = [0, 0x61, 0x73, 0x6d, 1, 0, 0, 0];

impl Progress {
    /// Where no section stands yet.
    pub fn new() -> Progress
        ensures { result ≡ spec.nothing }
    {
        Progress {
            spaces: Spaces {
                types: 0,
                functions: 0,
                tables: 0,
                memories: 0,
                globals: 0,
            },
            rank: 0,
        }
    }
}

#[tactic(auto, unfolding(crate::specs::Module::file, crate::specs::Module::sections))]
fn sections_of(alloc: Global, bytes: &[u8]) -> Result<Vec<Section<'_>>, ReadError>
    ensures { Gives (λ v. map spec.section_value v.items) result ((meaning spec.file spec.nothing).read bytes.now) }
{
    let mut from = Reader::new(alloc, bytes);
    let at = from.left();
    if from.bytes(8)? != HEADER.as_slice() {
        return Err(broken_at(Rule::Header, at));
    }
    let mut progress = Progress::new();
    steps_of(&mut progress, &mut from)
}

/// The sections of the core module that the bytes are, in their order, each with what it holds (WebAssembly Core, Binary
/// Format, Modules). Bytes that are no module break a rule, and are refused by the first that they break, and its place.
#[tactic(auto, using(crate::proofs::Reading::answers_found, crate::proofs::Reading::answers_only, crate::proofs::Reading::answers_fault))]
pub fn read_sections(alloc: Global, bytes: &[u8]) -> Result<Vec<Section<'_>>, ReadError>
    ensures found { IfOk result (λ v. AreSections bytes.now (map spec.section_value v.items)) }
    ensures only { (ss : List spec.SectionValue) → AreSections bytes.now ss → MatchResult result (λ v. map spec.section_value v.items ≡ ss) (λ e. e ≡ ReadError.Memory) }
    ensures fault { IfErr result (IsSectionsFault bytes.now) }
{
    sections_of(alloc, bytes)
}
