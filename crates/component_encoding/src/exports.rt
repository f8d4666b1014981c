//! Functions that are exported.

ghost use Rattle.std.specs.Prelude.{◌≡◌, ◌<◌, ℕ, List, length, map, slice_get, option_map, option_and_then, string_bytes, OnOk, IfOk, Some, true};
ghost use Rattle.std.specs.List.{AllByRecursion as Each};
ghost use Rattle.std.specs.Option.{ForSome};
ghost use Rattle.canonical_options.specs.Options.{options_with};
ghost use Rattle.component_definitions.specs.Canonical.{are_single};
ghost use Rattle.component_definitions.specs.declared.canonical.CanonicalOption.TheVariants as canonical;
ghost use Rattle.linked_imports.specs.Passed.component_meaning-Core.{CoreType, CoreItem, MainModule};
ghost use Rattle.linked_imports.specs.Passed.component_meaning-Spaces.{core_at, meaning};
ghost use Rattle.linked_imports.specs.Passed.link_table-Linking.{Linking};
ghost use Rattle.linked_imports.specs.Passed.link_table-Options.{Options};
ghost use Rattle.linked_imports.specs.Passed.link_table-Table.{ExportEntry};
ghost use Rattle.linked_imports.specs.Passed.link_table-View as view;
ghost use Rattle.linked_imports.specs.Passed.right_components-Ends.{AreOptionsOf};
ghost use Rattle.type_writing.specs.Passed.type_meaning-Words.{BinaryTree};
ghost use Rattle.type_writing.specs.Passed.type_meaning-Items.{type_at, is_function};
ghost use Rattle.type_writing.specs.Writing.{Begins};
ghost use Rattle.wasm_types.specs.Entries.{ExportValue, export_value};
ghost use Rattle.wasm_types.specs.declared.types.ExportKind.TheVariants as kinds;
ghost use Rattle.component_encoding.specs.Growing as growing;
ghost use Rattle.component_encoding.specs.Exports as spec;
ghost use Rattle.component_encoding.specs.Placing as placing;

use binary_grammar::WriteFault;
use canonical_options::Iter;
use component_builder::ComponentBuilder;
use component_definitions::{
    Alias, CanonicalDefinition, CanonicalOption, ComponentSort, Export as Exported, Sort,
};
use component_sections::{Definition, Entry};
use link_lines::StringEncoding;
use linked_imports::{ExportLink, LinkOptions};
use std::alloc::{AllocError, Global};
use wasm_types::{Export, ExportKind};
use wit_types::Function;

/// A core export of the main module that was taken from its instance.
#[derive(Clone, Copy)]
pub struct Taken {
    /// Its place among the core exports.
    pub place: usize,
    /// Its index among the core items of its kind.
    pub index: u32,
}

/// Core exports that more than one lift may name.
#[derive(Clone, Copy)]
pub struct Shared {
    /// The memory.
    pub memory: Option<Taken>,
    /// What makes room in it.
    pub realloc: Option<Taken>,
}

/// Takes a core export of an instance, and answers its index among the core items of its kind.
fn take_export<'e>(
    builder: &mut ComponentBuilder<'e>,
    kind: ExportKind,
    instance: u32,
    name: &'e str,
) -> Result<u32, WriteFault>
    ensures begins { OnOk result (Begins builder.old builder.new) }
    ensures only { (main : MainModule) → OnOk result (growing.AddsCoreItems (meaning main builder.old) (meaning main builder.new)) }
    ensures takes { (main : MainModule) (ty : CoreType) → growing.IsMainInstance main (meaning main builder.old) instance → growing.Offers main kind name.entry.now ty → IfOk result (λ i. core_at kind (meaning main builder.new) i ≡ Some (growing.export_item instance name.entry.now ty)) }
    ensures placed { (main : MainModule) → growing.IsMainInstance main (meaning main builder.old) instance → OnOk result (placing.StayPlaced builder.old builder.new) }
{
    let index = builder.add(Definition::Entry(Entry::Alias(Alias::CoreInstanceExport {
        kind,
        instance,
        name,
    })))?;
    Ok(index)
}

/// The name of the core export at a place.
fn name_at<'e>(exports: &[Export<'e>], place: Option<usize>) -> Option<&'e str>
    ensures { option_map (λ n. n.now) result ≡ option_and_then (view.name_at (map export_value exports.now)) place }
{
    let export = exports.get(place?)?;
    Some(export.name)
}

/// Takes the core export of a place and a name, unless it is the one that was taken.
fn take_once<'e>(
    builder: &mut ComponentBuilder<'e>,
    kind: ExportKind,
    instance: u32,
    place: usize,
    name: &'e str,
    taken: Option<Taken>,
) -> Result<Taken, WriteFault>
    ensures begins { OnOk result (Begins builder.old builder.new) }
    ensures only { (main : MainModule) → OnOk result (growing.AddsCoreItems (meaning main builder.old) (meaning main builder.new)) }
    ensures takes { (main : MainModule) (es : List ExportValue) → growing.IsMainInstance main (meaning main builder.old) instance → view.name_at es place ≡ Some name.entry.now → spec.IsOffered main kind name.entry.now → ForSome taken (spec.IsTaken es kind (meaning main builder.old) instance) → IfOk result (λ t. (t.place ≡ place) × spec.IsTaken es kind (meaning main builder.new) instance t) }
    ensures placed { (main : MainModule) → growing.IsMainInstance main (meaning main builder.old) instance → OnOk result (placing.StayPlaced builder.old builder.new) }
{
    match taken {
        Some(taken) if taken.place == place => Ok(taken),
        _ => {
            let index = take_export(builder, kind, instance, name)?;
            Ok(Taken { place, index })
        }
    }
}

impl Shared {
    /// The index of the memory at a place, if there is one.
    fn memory<'e>(
        &mut self,
        builder: &mut ComponentBuilder<'e>,
        exports: &[Export<'e>],
        instance: u32,
        place: Option<usize>,
    ) -> Result<Option<u32>, WriteFault>
        ensures begins { OnOk result (Begins builder.old builder.new) }
        ensures only { (main : MainModule) → OnOk result (growing.AddsCoreItems (meaning main builder.old) (meaning main builder.new)) }
        ensures option { (l : Linking) (main : MainModule) (o : Options) → map export_value exports.now ≡ l.main.exports → o.memory ≡ option_and_then (view.name_at (map export_value exports.now)) place → growing.IsMainInstance main (meaning main builder.old) instance → spec.AreOffered l main o → spec.AreShared l.main.exports (meaning main builder.old) instance self.old → IfOk result (λ r. spec.IsOptionFor l (meaning main builder.new) instance o o.memory canonical.Memory r × spec.AreShared l.main.exports (meaning main builder.new) instance self.new) }
        ensures placed { (main : MainModule) → growing.IsMainInstance main (meaning main builder.old) instance → OnOk result (placing.StayPlaced builder.old builder.new) }
    {
        let (Some(name), Some(place)) = (name_at(exports, place), place) else {
            return Ok(None);
        };
        let taken = take_once(
            builder,
            ExportKind::Memory,
            instance,
            place,
            name,
            self.memory,
        )?;
        self.memory = Some(taken);
        Ok(Some(taken.index))
    }

    /// The index of what makes room, at a place, if there is such.
    fn realloc<'e>(
        &mut self,
        builder: &mut ComponentBuilder<'e>,
        exports: &[Export<'e>],
        instance: u32,
        place: Option<usize>,
    ) -> Result<Option<u32>, WriteFault>
        ensures begins { OnOk result (Begins builder.old builder.new) }
        ensures only { (main : MainModule) → OnOk result (growing.AddsCoreItems (meaning main builder.old) (meaning main builder.new)) }
        ensures option { (l : Linking) (main : MainModule) (o : Options) → map export_value exports.now ≡ l.main.exports → o.realloc ≡ option_and_then (view.name_at (map export_value exports.now)) place → growing.IsMainInstance main (meaning main builder.old) instance → spec.AreOffered l main o → spec.AreShared l.main.exports (meaning main builder.old) instance self.old → IfOk result (λ r. spec.IsOptionFor l (meaning main builder.new) instance o o.realloc canonical.Realloc r × spec.AreShared l.main.exports (meaning main builder.new) instance self.new) }
        ensures placed { (main : MainModule) → growing.IsMainInstance main (meaning main builder.old) instance → OnOk result (placing.StayPlaced builder.old builder.new) }
    {
        let (Some(name), Some(place)) = (name_at(exports, place), place) else {
            return Ok(None);
        };
        let taken = take_once(
            builder,
            ExportKind::Func,
            instance,
            place,
            name,
            self.realloc,
        )?;
        self.realloc = Some(taken);
        Ok(Some(taken.index))
    }
}

/// The options that are there, in the order memory, what makes room, encoding.
fn options_of(
    alloc: Global,
    memory: Option<u32>,
    realloc: Option<u32>,
    encoding: Option<StringEncoding>,
) -> Result<Vec<CanonicalOption>, AllocError>
    ensures { IfOk result (λ v. v.items ≡ options_with memory realloc encoding) }
{
    Iter::new(memory, realloc, encoding).collect(alloc)
}

/// The options of a lift, for which core exports of the main module's instance are taken.
fn take_options<'e>(
    alloc: Global,
    builder: &mut ComponentBuilder<'e>,
    shared: &mut Shared,
    exports: &[Export<'e>],
    instance: u32,
    options: &LinkOptions,
) -> Result<Vec<CanonicalOption>, WriteFault>
    ensures begins { OnOk result (Begins builder.old builder.new) }
    ensures only { (main : MainModule) → OnOk result (growing.AddsCoreItems (meaning main builder.old) (meaning main builder.new)) }
    ensures options { (l : Linking) (main : MainModule) → map export_value exports.now ≡ l.main.exports → growing.IsMainInstance main (meaning main builder.old) instance → spec.AreOffered l main (view.options_value l.main.exports options.now) → spec.AreShared l.main.exports (meaning main builder.old) instance shared.old → IfOk result (λ v. AreOptionsOf l (meaning main builder.new) instance (view.options_value l.main.exports options.now) v.items × spec.AreShared l.main.exports (meaning main builder.new) instance shared.new) }
    ensures placed { (main : MainModule) → growing.IsMainInstance main (meaning main builder.old) instance → OnOk result (placing.StayPlaced builder.old builder.new) }
    ensures single { IfOk result (λ v. are_single v.items ≡ true) }
{
    let memory = shared.memory(builder, exports, instance, options.memory)?;
    let realloc = shared.realloc(builder, exports, instance, options.realloc)?;
    Ok(options_of(alloc, memory, realloc, options.encoding)?)
}

/// Lifts a core function, and exports that under a name.
fn add_lift<'e>(
    builder: &mut ComponentBuilder<'e>,
    name: &'e str,
    core_function: u32,
    options: Vec<CanonicalOption>,
    ty: u32,
) -> Result<(), WriteFault>
    ensures begins { OnOk result (Begins builder.old builder.new) }
    ensures lifts { (main : MainModule) (tree : BinaryTree) → type_at is_function (meaning main builder.old).scope.types ty ≡ Some tree → OnOk result (spec.AddsExport (meaning main builder.old) (meaning main builder.new) (spec.lifted name.entry.now core_function options.items tree)) }
    ensures placed { (main : MainModule) (l : Linking) (o : Options) (tree : BinaryTree) (item : CoreItem) (i : ℕ) → type_at is_function (meaning main builder.old).scope.types ty ≡ Some tree → core_at kinds.Func (meaning main builder.old) core_function ≡ Some item → AreOptionsOf l (meaning main builder.old) i o options.items → are_single options.items ≡ true → OnOk result (placing.StayPlacedWith builder.old builder.new name.entry.now) }
{
    let index = builder.add(Definition::Canonical(CanonicalDefinition::Lift {
        core_function,
        options,
        ty,
    }))?;
    builder.add(Definition::Entry(Entry::Export(Exported {
        name,
        sort: Sort::Component(ComponentSort::Function),
        index,
        ascribed: None,
    })))?;
    Ok(())
}

/// Exports a function, of the type at an index, by the core export of its link.
fn add_export<'e>(
    alloc: Global,
    builder: &mut ComponentBuilder<'e>,
    shared: &mut Shared,
    exports: &[Export<'e>],
    instance: u32,
    link: &ExportLink,
    function: &'e Function,
    ty: u32,
) -> Result<(), WriteFault>
    requires { link.now.«export» < length exports.now }
    ensures begins { OnOk result (Begins builder.old builder.new) }
    ensures exported { (l : Linking) (main : MainModule) (e : ExportEntry) (tree : BinaryTree) → map export_value exports.now ≡ l.main.exports → view.IsLinkOf l.main.exports link.now e → e.function ≡ function.entry.now → spec.IsEntryOffered l main e → growing.IsMainInstance main (meaning main builder.old) instance → type_at is_function (meaning main builder.old).scope.types ty ≡ Some tree → spec.AreShared l.main.exports (meaning main builder.old) instance shared.old → OnOk result (spec.IsOneExported l (meaning main builder.old) (meaning main builder.new) e ty × spec.AreShared l.main.exports (meaning main builder.new) instance shared.new × placing.StayPlacedWith builder.old builder.new (string_bytes function.entry.now.name)) }
{
    let name = exports[link.export].name;
    let core_function = take_export(builder, ExportKind::Func, instance, name)?;
    let options = take_options(alloc, builder, shared, exports, instance, &link.options)?;
    add_lift(builder, function.name.as_str(), core_function, options, ty)?;
    Ok(())
}

/// Exports functions, of the types at these indices, each by the core export of its link, of the instance of the main module at an index
/// (Component Model, Canonical ABI, canon lift; Explainer, Import and Export Definitions). Answers `TooLarge` where 32 bits can't say an
/// index, and `OutOfMemory` where memory is wanting.
pub fn add_exports<'e>(
    alloc: Global,
    builder: &mut ComponentBuilder<'e>,
    exports: &[Export<'e>],
    instance: u32,
    links: &[ExportLink],
    functions: &[&'e Function],
    types: &[u32],
) -> Result<(), WriteFault>
    requires functions { length functions.now ≡ length links.now }
    requires types { length types.now ≡ length links.now }
    requires places { (k : ℕ) (x : ExportLink) → slice_get links.now k ≡ Some x → x.«export» < length exports.now }
    ensures begins { OnOk result (Begins builder.old builder.new) }
    ensures exported { (l : Linking) (main : MainModule) (es : List ExportEntry) → map export_value exports.now ≡ l.main.exports → view.AreLinksOfEntries l.main.exports es links.now → map (λ (e : ExportEntry). e.function) es ≡ map (λ f. f.now) functions.now → Each (spec.IsEntryOffered l main) es → growing.IsMainInstance main (meaning main builder.old) instance → spec.AreTypes (meaning main builder.old) types.now → OnOk result (spec.AreExported l (meaning main builder.old) (meaning main builder.new) es types.now × placing.StayPlacedWithAll builder.old builder.new (map (λ f. f.now) functions.now)) }
{
    let mut shared = Shared {
        memory: None,
        realloc: None,
    };
    for (place, link) in links.iter().enumerate() {
        add_export(
            alloc,
            builder,
            &mut shared,
            exports,
            instance,
            link,
            functions[place],
            types[place],
        )?;
    }
    Ok(())
}
