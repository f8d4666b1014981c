//! The modules that were handed in.

ghost use Rattle.std.specs.Prelude.{◌≡◌, [], map, Some, OnOk, OnErr, IfErr, option_map, not, position};
ghost use Rattle.std.specs.List.{list_all, list_any, find};
ghost use Rattle.handed_modules.specs.Modules as spec;
ghost use Rattle.handed_modules.specs.Library as library;

use crate::fault::HandFault;
use crate::library::{Instance, Item, MainOrAdapter};
use link_lines::StringEncoding;
use std::alloc::{AllocError, Global};
use std::marker::Model;
use wit_types::WorldId;

/// How a module is linked.
#[derive(Clone, Copy, Debug, PartialEq, Eq)]
pub enum ModuleKind {
    /// The one main module.
    Main,
    /// It supplies what other modules import.
    Adapter,
    /// It shares what belongs to other modules, which its arguments name.
    Library,
}

/// A module that was handed in.
#[derive(Drop)]
pub struct HandedModule<'a> {
    /// The name of an adapter or library; that of the main module says nothing.
    pub name: String,
    /// How it is linked.
    pub kind: ModuleKind,
    /// The module itself, in the binary format.
    pub bytes: &'a [u8],
    /// The world whose exports it supplies.
    pub world: WorldId,
    /// The encoding of its strings.
    pub encoding: StringEncoding,
    /// What a library is instantiated with, under the texts by which its core imports name that.
    pub arguments: Vec<(String, Instance)>,
}

/// Whether a module is the adapter or library of a name.
fn has_name(handed: &HandedModule<'_>, name: &str) -> bool
    ensures { result ≡ spec.same_owner (Some name.now) (spec.owner (spec.module_input handed.now)) }
{
    match handed.kind {
        ModuleKind::Main => false,
        ModuleKind::Adapter | ModuleKind::Library => name == handed.name.as_str(),
    }
}

/// Whether a module is the main module.
fn is_main(handed: &HandedModule<'_>) -> bool
    ensures { result ≡ spec.is_main (spec.module_input handed.now) }
{
    match handed.kind {
        ModuleKind::Main => true,
        ModuleKind::Adapter | ModuleKind::Library => false,
    }
}

/// Whether one module takes the place of another.
fn replaces(handed: &HandedModule<'_>, other: &HandedModule<'_>) -> bool
    ensures { result ≡ spec.same_owner (spec.owner (spec.module_input handed.now)) (spec.owner (spec.module_input other.now)) }
{
    match handed.kind {
        ModuleKind::Main => is_main(other),
        ModuleKind::Adapter | ModuleKind::Library => has_name(other, handed.name.as_str()),
    }
}

/// Whether another module stays that has the bytes of one.
fn is_duplicate(modules: &[HandedModule<'_>], handed: &HandedModule<'_>) -> bool
    ensures { result ≡ list_any (λ n. spec.doubles (spec.module_input handed.now) (spec.module_input n)) modules.now }
{
    modules.iter().any(|other| !replaces(handed, other) && other.bytes == handed.bytes)
}

/// Whether an adapter or library of a name is among modules.
fn is_among(modules: &[HandedModule<'_>], name: &str) -> bool
    ensures { result ≡ list_any (λ n. spec.same_owner (Some name.now) (spec.owner (spec.module_input n))) modules.now }
{
    modules.iter().any(|other| has_name(other, name))
}

/// Whether an adapter or library of a name is there, or is this module.
fn is_known(modules: &[HandedModule<'_>], handed: &HandedModule<'_>, name: &str) -> bool
    ensures { result ≡ spec.knows (map spec.module_input modules.now) (spec.module_input handed.now) name.now }
{
    has_name(handed, name) || is_among(modules, name)
}

/// Whether what an argument is of is there.
fn is_there(modules: &[HandedModule<'_>], handed: &HandedModule<'_>, which: &MainOrAdapter) -> bool
    ensures { result ≡ library.is_known (spec.knows (map spec.module_input modules.now) (spec.module_input handed.now)) (library.module_name which.now) }
{
    match which {
        MainOrAdapter::Main => true,
        MainOrAdapter::Adapter(name) => is_known(modules, handed, name.as_str()),
    }
}

/// Whether all is there that single exports are of.
fn are_items_there(modules: &[HandedModule<'_>], handed: &HandedModule<'_>, items: &[Item]) -> bool
    ensures { result ≡ list_all (λ i. library.is_known (spec.knows (map spec.module_input modules.now) (spec.module_input handed.now)) (library.module_name i.which)) items.now }
{
    items
        .iter()
        .all(|item| is_there(modules, handed, &item.which))
}

/// Whether all is there that an instance is of.
fn are_there(modules: &[HandedModule<'_>], handed: &HandedModule<'_>, instance: &Instance) -> bool
    ensures { result ≡ library.are_known (spec.knows (map spec.module_input modules.now) (spec.module_input handed.now)) (library.instance_input instance.now) }
{
    match instance {
        Instance::MainOrAdapter(which) => is_there(modules, handed, which),
        Instance::Items(items) => are_items_there(modules, handed, items),
    }
}

/// Whether all is there that the arguments of a module name.
fn knows_arguments(modules: &[HandedModule<'_>], handed: &HandedModule<'_>) -> bool
    ensures { result ≡ list_all (λ a. library.are_known (spec.knows (map spec.module_input modules.now) (spec.module_input handed.now)) (library.instance_input a.1)) handed.now.arguments.items }
{
    handed
        .arguments
        .iter()
        .all(|(_, instance)| are_there(modules, handed, instance))
}

/// The modules that were handed in, in the order of their first hand-in. Contracts see a list of them.
#[derive(Drop)]
pub struct HandedModules<'a> {
    modules: Vec<HandedModule<'a>>,
}

impl<'a> Model for HandedModules<'a> {
    ghost use Rattle.std.specs.Prelude.{List, map};
    ghost use Rattle.handed_modules.specs.Modules.{ModuleInput, module_input, AreApart};

    ghost Value = { List ModuleInput };

    ghost view = { λ m. map module_input m.modules.items };

    ghost invariant = { λ m. AreApart (map module_input m.modules.items) };
}

/// The main module among modules.
fn main_of<'s, 'a>(modules: &'s [HandedModule<'a>]) -> Option<&'s HandedModule<'a>>
    ensures { option_map (λ m. m.now) result ≡ find (λ n. spec.is_main (spec.module_input n)) modules.entry.now }
{
    modules.iter().find(|other| is_main(other))
}

/// Whether there are adapters or libraries among modules.
fn has_others(modules: &[HandedModule<'_>]) -> bool
    ensures { result ≡ list_any (λ n. not (spec.is_main (spec.module_input n))) modules.now }
{
    modules.iter().any(|other| !is_main(other))
}

/// The place of the module that is replaced, if one is.
fn place_of(modules: &[HandedModule<'_>], handed: &HandedModule<'_>) -> Option<usize>
    ensures { result ≡ position (λ n. spec.same_owner (spec.owner (spec.module_input handed.now)) (spec.owner (spec.module_input n))) modules.now }
{
    modules.iter().position(|other| replaces(handed, other))
}

/// Puts a module in the place of the one that it replaces, or behind all.
fn put<'a>(modules: &mut Vec<HandedModule<'a>>, handed: HandedModule<'a>) -> Result<(), AllocError>
    ensures ok { OnOk result (map spec.module_input modules.new.items ≡ spec.with_module (spec.module_input handed.entry) (map spec.module_input modules.old.items)) }
    ensures err { OnErr result (modules.new.items ≡ modules.old.items) }
{
    modules.reserve(1)?;
    match place_of(modules, &handed) {
        Some(place) => modules[place] = handed,
        None => modules.push(handed).unwrap(),
    }
    Ok(())
}

impl<'a> HandedModules<'a> {
    /// No modules.
    pub fn new(alloc: Global) -> HandedModules<'a>
        ensures { result ≡ [] }
    {
        HandedModules {
            modules: Vec::new(alloc),
        }
    }

    /// What holds of all modules that were handed in: no two are one module, be it the main module or an adapter or library of one name.
    pub fn law_modules_are_apart(&self)
        ensures { spec.AreApart self.now }
    {
        let _ = &self.modules;
    }

    /// The modules in order: of their first hand-in.
    pub fn as_slice(&self) -> &[HandedModule<'a>]
        ensures { map spec.module_input result.now ≡ self.now }
    {
        self.modules.as_slice()
    }

    /// The main module.
    pub fn main(&self) -> Option<&HandedModule<'a>>
        ensures { option_map (λ m. spec.module_input m.now) result ≡ spec.main_module self.now }
    {
        main_of(&self.modules)
    }

    /// Whether there are adapters or libraries.
    pub fn has_others(&self) -> bool
        ensures { result ≡ spec.has_others self.now }
    {
        has_others(&self.modules)
    }

    /// Takes a module; the main module, or an adapter or library of its name, that was handed in before is replaced, in its place.
    ///
    /// Refuses with B24 where another module that stays has its bytes, and with B22 where an argument names neither the module itself nor an
    /// adapter or library that was handed in; B24 where both are so. A refused call changes nothing.
    pub fn hand_in(&mut self, handed: HandedModule<'a>) -> Result<(), HandFault>
        ensures ok { OnOk result (self.new ≡ spec.with_module (spec.module_input handed.entry) self.old) }
        ensures other { OnOk result (spec.IsDuplicate self.old (spec.module_input handed.entry) → ⊥) }
        ensures known { OnOk result (spec.NamesUnknown self.old (spec.module_input handed.entry) → ⊥) }
        ensures cause { IfErr result (spec.IsHandCause self.old (spec.module_input handed.entry)) }
        ensures err { OnErr result (self.new ≡ self.old) }
    {
        if is_duplicate(&self.modules, &handed) {
            return Err(HandFault::DuplicateModule);
        }
        if !knows_arguments(&self.modules, &handed) {
            return Err(HandFault::UnknownAdapter);
        }
        put(&mut self.modules, handed)?;
        Ok(())
    }
}
