//! What the component imports.

ghost use Rattle.std.specs.Prelude.{◌≡◌, ◌<◌, ◌+◌, ◌++◌, ℕ, List, Option, length, map, slice_get, string_bytes, IfOk, IfErr, Some, None};
ghost use Rattle.component_entries.specs.Entries.{entry_value};
ghost use Rattle.component_imports.specs.Functions.{functions_of, function_names};
ghost use Rattle.component_imports.specs.Interfaces.{ids_of, linked_of, asked, EarlierAreApart};
ghost use Rattle.core_links.specs.Names.{Names, names_in};
ghost use Rattle.core_links.specs.View.{AreLinksOf};
ghost use Rattle.right_components.specs.Passed.link_table-Linking.{linking_value, types_of, exported_functions as functions_exported, AreFunctionsThere};
ghost use Rattle.right_components.specs.Passed.link_table-Pairwise.{Pairwise};
ghost use Rattle.right_components.specs.Passed.link_table-Table.{ImportEntry, Table, IsTable};
ghost use Rattle.right_components.specs.Passed.link_table-View.{IsTableOf};
ghost use Rattle.name_places.specs.FirstPlaces.{place_of};
ghost use Rattle.right_components.specs.Outside.{AreInterfaceNames};
ghost use Rattle.type_writing.specs.Passed.type_meaning-Scope.{meaning};
ghost use Rattle.component_imports.specs.Passed.type_sinks-Views.{RootIsGood, RootIsPlaced};
ghost use Rattle.type_writing.specs.Refusals.{IsCause};
ghost use Rattle.wit_core_items.specs.ImportPlaces.{import_at};
ghost use Rattle.wit_core_items.specs.declared.import_places.ImportPlace.TheVariants as place;
ghost use Rattle.wit_core_names.specs.Items.{CoreImport};
ghost use Rattle.wit_reach.specs.Lists.{AreOwnersThere};
ghost use Rattle.wit_reach.specs.Types.{AreTypesBackward, AreTypesThere};
ghost use Rattle.wit_types.specs.declared.function.Function.{Function as Func};
ghost use Rattle.wit_types.specs.declared.interface.TypeDef.{TypeDef as Def};
ghost use Rattle.wit_types.specs.declared.world_key.WorldKey.{WorldKey as Key};
ghost use Rattle.std.specs.List.{AllByRecursion as Each};
ghost use Rattle.component_imports.specs.Functions.{HaveParametersApart};
ghost use Rattle.component_imports.specs.Passed.type_sinks-Placing.{ArePlaced};
ghost use Rattle.type_writing.specs.Placing.{AreLabelsApart};
ghost use Rattle.linked_imports.specs.Imports as spec;
ghost use Rattle.linked_imports.specs.Roots as roots;

use component_entries::Entry;
use component_imports::{
    ImportedInterfaces, Root, add_functions, import_functions, import_interfaces, write_functions,
};
use core_links::{CoreNames, ImportLinks, NeededFunctions};
use name_places::FirstPlaces;
use right_components::{LinkTable, Linking, exported_function};
use std::alloc::{AllocError, Global};
use type_writing::Fault;
use wit_core_items::ImportPlace;
use wit_types::{Arena, Function, InterfaceId, TypeDef, TypeId, World, WorldId, WorldItem};

/// Types, imports and aliases of a component, in order, and which of its functions and types are linked.
#[derive(Drop)]
pub struct WrittenImports<'e> {
    /// What is written.
    pub entries: Vec<Entry<'e>>,
    /// The index of the function for which each core import stands, in their order.
    pub lowered: Vec<u32>,
    /// The index of the type of each function that the world exports, in their order.
    pub lifted: Vec<u32>,
}

/// The functions that a world exports itself, in its order. Fails only for want of memory.
pub fn exported_functions<'e>(
    alloc: Global,
    world: &'e World,
) -> Result<Vec<&'e Function>, AllocError>
    ensures { IfOk result (λ v. functions_of v.items ≡ functions_exported world.entry.now) }
{
    let mut functions = Vec::new(alloc);
    for entry in 0..world.exports.len() {
        if let Some(function) = exported_function(world, entry) {
            functions.push(function)?;
        }
    }
    Ok(functions)
}

/// The types that functions take and give.
fn types_of_functions(alloc: Global, functions: &[&Function]) -> Result<Vec<TypeId>, AllocError>
    ensures { IfOk result (λ ids. ids.items ≡ ids_of (functions_of functions.now)) }
{
    let mut ids = Vec::new(alloc);
    add_functions(&mut ids, functions)?;
    Ok(ids)
}

/// The names of functions.
fn names_of_functions<'e>(
    alloc: Global,
    functions: &[&'e Function],
) -> Result<FirstPlaces<'e>, AllocError>
    ensures { IfOk result (λ names. names ≡ function_names (functions_of functions.now)) }
{
    let mut names = FirstPlaces::new(alloc);
    for function in functions {
        names.push(function.name.as_str())?;
    }
    Ok(names)
}

/// What core imports need, imported, with the types of functions that are exported.
#[derive(Drop)]
struct Imported<'e> {
    root: Root<'e>,
    /// The instance of each interface, by the interface's id.
    instances: Vec<Option<u32>>,
    /// The names of the functions of the world itself.
    own: FirstPlaces<'e>,
    /// The index of the first of them.
    first: u32,
}

/// Imports the interfaces and functions that are needed, and what the types are made of that functions of the world itself take and give.
fn import_needed<'e>(
    alloc: Global,
    types: &'e Arena<TypeDef>,
    world: WorldId,
    names: &'e [String],
    needed: &NeededFunctions<'e>,
    exported: &[TypeId],
) -> Result<Imported<'e>, Fault>
    requires backward { AreTypesBackward types.now }
    requires there { AreTypesThere types.now (asked (ids_of (functions_of needed.now.own.items) ++ exported.now) (linked_of needed.now.linked.items)) }
    requires owners { AreOwnersThere (length needed.now.linked.items) types.now }
    requires apart { EarlierAreApart types.now }
    ensures ok { IfOk result (λ i. roots.HoldsImports i (map string_bytes names.entry.now) types.entry.now world exported.now (functions_of needed.now.own.items) (linked_of needed.now.linked.items)) }
    ensures placed { IfOk result (λ i. AreLabelsApart types.entry.now → HaveParametersApart (functions_of needed.now.own.items) → Each HaveParametersApart (linked_of needed.now.linked.items) → RootIsPlaced i.root) }
    ensures cause { roots.CanImport (map string_bytes names.entry.now) types.entry.now world exported.now (functions_of needed.now.own.items) (linked_of needed.now.linked.items) → IfErr result (IsCause ⊥ (Unit {0})) }
{
    let own = needed.own.as_slice();
    let mut asked = types_of_functions(alloc, own)?;
    asked.extend_from_slice(exported)?;
    let start = Root::new(alloc, names);
    let found = import_interfaces(
        alloc,
        start,
        types,
        asked.as_slice(),
        needed.linked.as_slice(),
    )?;
    let first = found.root.function_count();
    let root = import_functions(alloc, found.root, types, world, exported, own)?;
    Ok(Imported {
        root,
        instances: found.instances,
        own: names_of_functions(alloc, own)?,
        first,
    })
}

/// A function, with the interface that has it, if it isn't the world's own.
#[derive(Clone, Copy)]
struct Found<'e> {
    interface: Option<InterfaceId>,
    function: &'e Function,
}

/// The function of the world itself at a place among its imports; none where it's something else.
fn own_function<'e>(world: &'e World, entry: usize) -> Option<Found<'e>>
    ensures { (names : Names) (key : Option Key) (f : Func) → names.world ≡ world.entry.now → import_at names.known names.world (place.OwnFunction entry) ≡ Some (CoreImport.func key f) → roots.IsFound names key f result }
{
    match world.imports.get_index(entry) {
        Some((_, WorldItem::Function(function))) => Some(Found {
            interface: None,
            function,
        }),
        _ => None,
    }
}

/// The function at a place of the interface that stands at a place among a world's imports; none where there is none.
fn interface_function<'e>(names: &CoreNames<'e>, entry: usize, function: usize) -> Option<Found<'e>>
    requires { (x : CoreImport) × (import_at (names_in names.now).known (names_in names.now).world (place.InterfaceFunction entry function) ≡ Some x) }
    ensures { (key : Option Key) (f : Func) → import_at (names_in names.entry.now).known (names_in names.entry.now).world (place.InterfaceFunction entry function) ≡ Some (CoreImport.func key f) → roots.IsFound (names_in names.entry.now) key f result }
{
    // Each item has a key of its own.
    let _count = names.world.imports.len();
    let Some((_, WorldItem::Interface { id, .. })) = names.world.imports.get_index(entry) else {
        return None;
    };
    let interface = names.tables.interfaces.get(*id);
    let (_, function) = interface.functions.get_index(function)?;
    Some(Found {
        interface: Some(*id),
        function,
    })
}

/// The function at a place of a world; none where it's something else.
fn function_at<'e>(names: &CoreNames<'e>, place: ImportPlace) -> Option<Found<'e>>
    requires { (x : CoreImport) × (import_at (names_in names.now).known (names_in names.now).world place ≡ Some x) }
    ensures { (key : Option Key) (f : Func) → import_at (names_in names.entry.now).known (names_in names.entry.now).world place ≡ Some (CoreImport.func key f) → roots.IsFound (names_in names.entry.now) key f result }
{
    match place {
        ImportPlace::OwnFunction(entry) => own_function(names.world, entry),
        ImportPlace::InterfaceFunction { entry, function } => {
            interface_function(names, entry, function)
        }
        ImportPlace::OwnDrop(_)
        | ImportPlace::InterfaceDrop { .. }
        | ImportPlace::ExportedIntrinsic { .. } => None,
    }
}

impl<'e> Imported<'e> {
    /// The index of the first function of the world itself with a name.
    fn own_index(&self, name: &str) -> Result<u32, Fault>
        requires { (p : ℕ) × (place_of name.now self.now.own ≡ Some p) }
        ensures ok { IfOk result (λ i. (p : ℕ) × (place_of name.now self.now.own ≡ Some p) × (i ≡ self.now.first + p)) }
        ensures cause { IfErr result (IsCause ⊥ (Unit {0})) }
    {
        let Some(place) = self.own.first(name) else {
            unreachable!()
        };
        let Ok(place) = u32::try_from(place) else {
            return Err(Fault::TooLarge);
        };
        self.first.checked_add(place).ok_or(Fault::TooLarge)
    }

    /// The index of a function.
    fn index(&mut self, found: Found<'e>) -> Result<u32, Fault>
        requires { (types : List Def) × roots.IsThere self.old types found.interface found.function.now }
        ensures keeps { (types : List Def) → RootIsGood self.old.root types → roots.Keeps self.old.root self.new.root types }
        ensures beside { roots.StaysBeside self.old self.new }
        ensures placed { RootIsPlaced self.old.root → RootIsPlaced self.new.root }
        ensures ok { (types : List Def) → RootIsGood self.old.root types → roots.IsThere self.old types found.entry.interface found.entry.function.now → IfOk result (roots.IsIndexOf self.new.root types found.entry.interface found.entry.function.now) }
        ensures cause { IfErr result (IsCause ⊥ (Unit {0})) }
    {
        let name = found.function.name.as_str();
        match found.interface {
            None => self.own_index(name),
            Some(id) => {
                let Some(instance) = self.instances[id.index()] else {
                    unreachable!()
                };
                self.root.take_function(name, instance)
            }
        }
    }

    /// The index of the function for which the core import at a place stands.
    fn index_at(
        &mut self,
        linking: &Linking<'e, '_, '_>,
        links: &ImportLinks,
        index: usize,
    ) -> Result<u32, Fault>
        requires links { AreLinksOf (linking_value linking.now).names (linking_value linking.now).main.imports links.now }
        requires entry { (t : Table) × (e : ImportEntry) × IsTable (linking_value linking.now) t × (slice_get t.imports index ≡ Some e) }
        requires there { roots.AreThere (linking_value linking.now) self.old }
        requires good { RootIsGood self.old.root (types_of (linking_value linking.now)) }
        ensures keeps { roots.Keeps self.old.root self.new.root (types_of (linking_value linking.entry.now)) }
        ensures beside { roots.StaysBeside self.old self.new }
        ensures placed { RootIsPlaced self.old.root → RootIsPlaced self.new.root }
        ensures ok { (t : Table) (e : ImportEntry) → IsTable (linking_value linking.entry.now) t → slice_get t.imports index ≡ Some e → IfOk result (roots.IsIndexOfEntry (linking_value linking.entry.now) self.new.root e) }
        ensures cause { IfErr result (IsCause ⊥ (Unit {0})) }
    {
        let Some(found) = function_at(&linking.names, links.place(index)) else {
            unreachable!()
        };
        self.index(found)
    }

    /// The indices of the functions for which core imports stand.
    fn indices(
        &mut self,
        alloc: Global,
        linking: &Linking<'e, '_, '_>,
        links: &ImportLinks,
    ) -> Result<Vec<u32>, Fault>
        requires links { AreLinksOf (linking_value linking.now).names (linking_value linking.now).main.imports links.now }
        requires table { (t : Table) × IsTable (linking_value linking.now) t }
        requires there { roots.AreThere (linking_value linking.now) self.old }
        requires good { RootIsGood self.old.root (types_of (linking_value linking.now)) }
        ensures keeps { roots.Keeps self.old.root self.new.root (types_of (linking_value linking.entry.now)) }
        ensures beside { roots.StaysBeside self.old self.new }
        ensures placed { RootIsPlaced self.old.root → RootIsPlaced self.new.root }
        ensures ok { (t : Table) → IsTable (linking_value linking.entry.now) t → IfOk result (λ v. Pairwise (roots.IsIndexOfEntry (linking_value linking.entry.now) self.new.root) t.imports v.items) }
        ensures cause { IfErr result (IsCause ⊥ (Unit {0})) }
    {
        let mut indices = Vec::new(alloc);
        for index in 0..linking.main.imports.as_slice().len() {
            indices.push(self.index_at(linking, links, index)?)?;
        }
        Ok(indices)
    }
}

/// What a component imports for the link table of a module and this world: interfaces, as far as core imports need them, under these names,
/// which are by the interfaces' ids; the world's own functions that are needed, and its types; and the types of the functions that the world
/// exports, which are these. With it goes the index of the function for which each core import stands, and of the type of each exported
/// function (Component Model, Explainer, Import and Export Definitions, Alias Definitions; WIT, Worlds). Answers `NotYet` only where what is
/// needed isn't all written, as a resource, a handle, a future, a stream or an error context, or two names are one; `TooLarge` where 32 bits
/// can't say an index; and `OutOfMemory` where memory is wanting.
pub fn write_imports<'e>(
    alloc: Global,
    linking: &Linking<'e, '_, '_>,
    table: &LinkTable,
    world: WorldId,
    names: &'e [String],
    exported: &[&'e Function],
) -> Result<WrittenImports<'e>, Fault>
    requires table { IsTableOf (linking_value linking.now) table.now }
    requires names { AreInterfaceNames (linking_value linking.now).names (linking_value linking.now).main.imports (map string_bytes names.now) }
    requires exported { functions_of exported.now ≡ functions_exported (linking_value linking.now).names.world }
    requires backward { AreTypesBackward (types_of (linking_value linking.now)) }
    requires there { AreFunctionsThere (linking_value linking.now).names }
    requires owners { AreOwnersThere (length (linking_value linking.now).names.known.interfaces) (types_of (linking_value linking.now)) }
    requires apart { EarlierAreApart (types_of (linking_value linking.now)) }
    ensures written { (is : IsTableOf (linking_value linking.entry.now) table.now) → IfOk result (λ w. spec.AreImportsWritten (linking_value linking.entry.now) is.table (map string_bytes names.entry.now) (meaning (map entry_value w.entries.items)) w.lowered.items w.lifted.items) }
    ensures listed { spec.AreNamed (linking_value linking.entry.now).names → ((own : List Func) (linked : List (List Func)) → spec.AreNeeded (linking_value linking.entry.now) own linked → spec.AreListed (linking_value linking.entry.now) world own linked) → IfOk result (λ w. spec.AreImportsListed (linking_value linking.entry.now) (map string_bytes names.entry.now) (meaning (map entry_value w.entries.items))) }
    ensures placed { spec.ArePartsApart (linking_value linking.entry.now) → IfOk result (λ w. ArePlaced (map entry_value w.entries.items)) }
    ensures importable { spec.IsImportable (linking_value linking.entry.now) world (map string_bytes names.entry.now) → IfErr result (IsCause ⊥ (Unit {0})) }
{
    let imports = linking.main.imports.as_slice();
    let needed = table
        .imports()
        .needed_functions(alloc, &linking.names, imports)?;
    let ids = types_of_functions(alloc, exported)?;
    let types = linking.names.tables.types;
    let mut imported = import_needed(alloc, types, world, names, &needed, ids.as_slice())?;
    let lowered = imported.indices(alloc, linking, table.imports())?;
    let written = write_functions(alloc, imported.root, types, exported)?;
    Ok(WrittenImports {
        entries: written.root.into_entries(),
        lowered,
        lifted: written.indices,
    })
}
