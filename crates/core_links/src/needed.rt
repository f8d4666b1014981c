//! The functions that core imports need, each once.

ghost use Rattle.std.specs.Prelude.{◌≡◌, ◌<◌, ◌||◌, ◌&&◌, ◌∷◌, ◌++◌, [], ℕ, List, length, map, slice_get, nat_eq, option_map, option_and_then, false, IfOk, OnOk};
ghost use Rattle.wasm_types.specs.Entries.{ImportValue, import_value};
ghost use Rattle.wit_core_items.specs.Places.{own_function as function_at};
ghost use Rattle.core_links.specs.Imports.{StandsAt};
ghost use Rattle.core_links.specs.Marks as spec;
ghost use Rattle.core_links.specs.Names.{names_in};
ghost use Rattle.core_links.specs.Needed.{AreOwnNeeded, AreLinkedNeeded, own_functions, functions_of};
ghost use Rattle.core_links.specs.View.{AreLinksOf, linked_of};

use crate::imports::ImportLinks;
use crate::names::CoreNames;
use std::alloc::{AllocError, Global};
use wasm_types::Import;
use wit_core_items::ImportPlace;
use wit_types::{Arena, Function, Interface, InterfaceId, World, WorldItem};

/// Marks a place.
fn mark(marks: &mut Vec<bool>, place: usize) -> Result<(), AllocError>
    ensures { OnOk result ((k : ℕ) → spec.is_marked marks.new.items k ≡ (nat_eq place k || spec.is_marked marks.old.items k)) }
{
    while marks.len() <= place {
        marks.push(false)?;
    }
    marks[place] = true;
    Ok(())
}

/// Whether a place is marked.
fn is_marked(marks: &[bool], place: usize) -> bool
    ensures { result ≡ spec.is_marked marks.now place }
{
    place < marks.len() && marks[place]
}

/// Which functions are needed.
#[derive(Drop)]
struct Marks {
    /// Of the world itself, by their places among what it imports.
    own: Vec<bool>,
    /// Of interfaces, by their ids and then by the places of functions.
    interfaces: Vec<Vec<bool>>,
}

impl Marks {
    /// Nothing is needed, of so many interfaces.
    fn new(alloc: Global, interfaces: usize) -> Result<Marks, AllocError>
        ensures own { IfOk result (λ m. (k : ℕ) → spec.is_marked m.own.items k ≡ false) }
        ensures interfaces { IfOk result (λ m. (id k : ℕ) → spec.is_marked_in m.interfaces.items id k ≡ false) }
        ensures so_many { IfOk result (λ m. length m.interfaces.items ≡ interfaces) }
    {
        let mut marks = Vec::new(alloc);
        for _id in 0..interfaces {
            marks.push(Vec::new(alloc))?;
        }
        Ok(Marks {
            own: Vec::new(alloc),
            interfaces: marks,
        })
    }
    /// Marks a function of an interface.
    fn mark_in(&mut self, id: usize, function: usize) -> Result<(), AllocError>
        requires { id < length self.old.interfaces.items }
        ensures own { self.new.own ≡ self.old.own }
        ensures marks { OnOk result ((i k : ℕ) → spec.is_marked_in self.new.interfaces.items i k ≡ ((nat_eq id i && nat_eq function k) || spec.is_marked_in self.old.interfaces.items i k)) }
        ensures so_many { length self.new.interfaces.items ≡ length self.old.interfaces.items }
    {
        let marks = &mut self.interfaces[id];
        mark(marks, function)
    }

    /// Marks what a world has at a place, if it's a function.
    fn mark_place(&mut self, names: &CoreNames<'_>, place: ImportPlace) -> Result<(), AllocError>
        requires so_many { length self.old.interfaces.items ≡ length (names_in names.now).known.interfaces }
        requires there { (i : ImportValue) × StandsAt (names_in names.now) i place }
        ensures marks { (is : List ImportValue) (i : ImportValue) → spec.AreMarksOf (names_in names.now) is self.old.own.items self.old.interfaces.items → StandsAt (names_in names.now) i place → OnOk result (spec.AreMarksOf (names_in names.now) (is ++ i ∷ []) self.new.own.items self.new.interfaces.items) }
        ensures so_many { length self.new.interfaces.items ≡ length self.old.interfaces.items }
    {
        match place {
            ImportPlace::OwnFunction(entry) => mark(&mut self.own, entry),
            ImportPlace::InterfaceFunction { entry, function } => {
                match names.world.imports.get_index(entry) {
                    Some((_, WorldItem::Interface { id, .. })) => self.mark_in(
                        id.index(),
                        function,
                    ),
                    _ => Ok(()),
                }
            }
            ImportPlace::OwnDrop(_)
            | ImportPlace::InterfaceDrop { .. }
            | ImportPlace::ExportedIntrinsic { .. } => Ok(()),
        }
    }

    /// What core imports stand for.
    fn of_imports(
        alloc: Global,
        names: &CoreNames<'_>,
        links: &ImportLinks,
        imports: &[Import<'_>],
    ) -> Result<Marks, AllocError>
        requires { AreLinksOf (names_in names.now) (map import_value imports.now) links.now }
        ensures marks { IfOk result (λ m. spec.AreMarksOf (names_in names.now) (map import_value imports.now) m.own.items m.interfaces.items) }
        ensures so_many { IfOk result (λ m. length m.interfaces.items ≡ length (names_in names.now).known.interfaces) }
    {
        let mut marks = Marks::new(alloc, names.tables.interfaces.len())?;
        for index in 0..imports.len() {
            marks.mark_place(names, links.place(index))?;
        }
        Ok(marks)
    }
}

/// The function of the world itself at a place among what it imports; none where it's something else.
fn own_function(world: &World, entry: usize) -> Option<&Function>
    ensures { option_map (λ f. f.now) result ≡ option_and_then (λ e. function_at e.1) (slice_get world.entry.now.imports.entries entry) }
{
    match world.imports.get_index(entry) {
        Some((_, WorldItem::Function(function))) => Some(function),
        _ => None,
    }
}

/// Adds the function of the world itself at a place, if it is marked.
fn add_own<'s>(
    found: &mut Vec<&'s Function>,
    world: &'s World,
    marks: &[bool],
    entry: usize,
) -> Result<(), AllocError>
    ensures { OnOk result (map (λ f. f.now) found.new.items ≡ map (λ f. f.now) found.old.items ++ own_functions (spec.picked_one (spec.is_marked marks.now entry) (slice_get world.entry.now.imports.entries entry))) }
{
    if !is_marked(marks, entry) {
        return Ok(());
    }
    if let Some(function) = own_function(world, entry) {
        found.push(function)?;
    }
    Ok(())
}

/// The functions of the world itself that are marked.
fn own_marked<'s>(
    alloc: Global,
    world: &'s World,
    marks: &[bool],
) -> Result<Vec<&'s Function>, AllocError>
    ensures { IfOk result (λ v. map (λ f. f.now) v.items ≡ own_functions (spec.picked (spec.is_marked marks.now) world.entry.now.imports.entries)) }
{
    let mut found = Vec::new(alloc);
    for entry in 0..world.imports.len() {
        add_own(&mut found, world, marks, entry)?;
    }
    Ok(found)
}

/// The function at a place of an interface.
fn linked_function(interface: &Interface, place: usize) -> Option<&Function>
    ensures { option_map (λ f. f.now) result ≡ option_map (λ e. e.1) (slice_get interface.entry.now.functions.entries place) }
{
    match interface.functions.get_index(place) {
        Some((_, function)) => Some(function),
        None => None,
    }
}

/// Adds the function at a place of an interface, if it is marked.
fn add_linked<'s>(
    found: &mut Vec<&'s Function>,
    interface: &'s Interface,
    marks: &[bool],
    place: usize,
) -> Result<(), AllocError>
    ensures { OnOk result (map (λ f. f.now) found.new.items ≡ map (λ f. f.now) found.old.items ++ spec.picked_one (spec.is_marked marks.now place) (option_map (λ e. e.1) (slice_get interface.entry.now.functions.entries place))) }
{
    if !is_marked(marks, place) {
        return Ok(());
    }
    if let Some(function) = linked_function(interface, place) {
        found.push(function)?;
    }
    Ok(())
}

/// The functions of an interface that are marked.
fn linked_marked<'s>(
    alloc: Global,
    interface: &'s Interface,
    marks: &[bool],
) -> Result<Vec<&'s Function>, AllocError>
    ensures { IfOk result (λ v. map (λ f. f.now) v.items ≡ spec.picked (spec.is_marked marks.now) (functions_of interface.entry.now)) }
{
    let mut found = Vec::new(alloc);
    for place in 0..interface.functions.len() {
        add_linked(&mut found, interface, marks, place)?;
    }
    Ok(found)
}

/// The functions of all interfaces that are marked.
fn all_marked<'s>(
    alloc: Global,
    interfaces: &'s Arena<Interface>,
    marks: &[Vec<bool>],
) -> Result<Vec<Vec<&'s Function>>, AllocError>
    requires { length marks.now ≡ length interfaces.now }
    ensures { IfOk result (λ v. spec.ArePicked interfaces.entry.now marks.now (linked_of v.items)) }
{
    let mut found = Vec::new(alloc);
    for index in 0..marks.len() {
        let interface = interfaces.get(InterfaceId::from_index(index));
        found.push(linked_marked(alloc, interface, marks[index].as_slice())?)?;
    }
    Ok(found)
}

/// The functions for which core imports stand, each once.
#[derive(Drop)]
pub struct NeededFunctions<'s> {
    /// Those of the world itself, in the order in which it imports them.
    pub own: Vec<&'s Function>,
    /// Those of interfaces, by the interfaces' ids, each in the order of its interface.
    pub linked: Vec<Vec<&'s Function>>,
}

impl ImportLinks {
    /// The functions for which the core imports of a module stand (Component Model, Build Targets; Canonical ABI, canon lower). Fails only
    /// for want of memory.
    pub fn needed_functions<'s>(
        &self,
        alloc: Global,
        names: &CoreNames<'s>,
        imports: &[Import<'_>],
    ) -> Result<NeededFunctions<'s>, AllocError>
        requires { AreLinksOf (names_in names.now) (map import_value imports.now) self.now }
        ensures own { IfOk result (λ f. AreOwnNeeded (names_in names.entry.now) (map import_value imports.now) (map (λ g. g.now) f.own.items)) }
        ensures linked { IfOk result (λ f. AreLinkedNeeded (names_in names.entry.now) (map import_value imports.now) (linked_of f.linked.items)) }
    {
        let marks = Marks::of_imports(alloc, names, self, imports)?;
        Ok(NeededFunctions {
            own: own_marked(alloc, names.world, marks.own.as_slice())?,
            linked: all_marked(alloc, names.tables.interfaces, marks.interfaces.as_slice())?,
        })
    }
}
