//! The root of a component.

ghost use Rattle.std.specs.Prelude.{◌≡◌, ◌⊎◌, ◌<◌, ◌≤◌, ◌+◌, ◌^◌, [], ◌∷◌, ◌++◌, ℕ, List, Option, length, map, IfOk, IfErr, OnErr, OnOk, None, true, false, string_bytes};
ghost use Rattle.component_definitions.specs.declared.externs.Description.TheVariants as descriptions;
ghost use Rattle.component_sections.specs.Passed.component_instances-Declarators.{declarator_value};
ghost use Rattle.component_definitions.specs.declared.sorts.ComponentSort.TheVariants as sorts;
ghost use Rattle.component_definitions.specs.Aliases.{instance_export};
ghost use Rattle.component_sections.specs.Passed.component_entries-Entries.{entry_value, an_alias, an_import};
ghost use Rattle.distinct_names.specs.Names.{is_new};
ghost use Rattle.wit_types.specs.declared.function.Param.{Param as Parameter};
ghost use Rattle.wit_types.specs.declared.kind.«Type».{«Type» as Ref};
ghost use Rattle.wit_types.specs.declared.interface.TypeDef.{TypeDef as Def};
ghost use Rattle.type_writing.specs.Passed.type_meaning-Scope.{meaning};
ghost use Rattle.type_sinks.specs.Kept.{index_of};
ghost use Rattle.type_sinks.specs.Refusals.{IsFunctionCause};
ghost use Rattle.type_sinks.specs.Root.{imported_name, imported_names};
ghost use Rattle.type_writing.specs.Functions.{function_form};
ghost use Rattle.type_writing.specs.Placing.{AreParametersApart};
ghost use Rattle.type_writing.specs.Refusals.{IsCause};

use crate::kept::Kept;
use component_definitions::{Alias, ComponentSort, Description, Import};
use component_sections::{Declarator, Entry, InstanceType, TypeDefinition};
use component_value_types::DefinedType;
use distinct_names::Names;
use std::alloc::Global;
use type_writing::{Fault, ValtypeEncoder, write_function};
use wit_types::{InterfaceId, Param, Type, TypeId, TypeOwner};

/// The root of a component while types are written there: those of the world as imports that equal them, those of interfaces as
/// aliases of what the instances that are imported have (Component Model, Explainer, Import and Export Definitions).
#[derive(Drop)]
pub struct Root<'s> {
    /// What is written, in order.
    entries: Vec<Entry<'s>>,
    types: u32,
    functions: u32,
    instances: u32,
    /// The name under which each interface is imported, by its id.
    names: &'s [String],
    /// The names of what is imported.
    imported: Names<'s>,
    /// The index of each type that is written.
    known: Kept,
    /// The instance from which each type of an interface may be taken.
    homes: Kept,
    ghost counted_types: { types ≡ length (meaning (map entry_value entries.items)).types },
    ghost counted_functions: { functions ≡ length (meaning (map entry_value entries.items)).functions },
    ghost counted_instances: { instances ≡ length (meaning (map entry_value entries.items)).instances },
    ghost named: { imported ≡ imported_names (map entry_value entries.items) },
}

/// Writes an import. Answers `NotYet` where the name is there already, and `OutOfMemory` where memory is wanting: then nothing is
/// written.
fn import<'s>(
    entries: &mut Vec<Entry<'s>>,
    imported: &mut Names<'s>,
    name: &'s str,
    description: Description,
) -> Result<(), Fault>
    ensures new { OnOk result (is_new imported.old name.entry.now ≡ true) }
    ensures name { OnOk result (imported.new ≡ imported.old ++ name.entry.now ∷ []) }
    ensures entry { OnOk result (map entry_value entries.new.items ≡ map entry_value entries.old.items ++ an_import (record { name = name.entry.now; description = description }) ∷ []) }
    ensures err { OnErr result ((imported.new ≡ imported.old) × (entries.new.items ≡ entries.old.items)) }
    ensures cause { IfErr result (IsCause (is_new imported.old name.entry.now ≡ false) ⊥) }
{
    if !imported.is_new(name) {
        return Err(Fault::NotYet);
    }
    entries.reserve(1)?;
    imported.add(name)?;
    entries.push_reserved(Entry::Import(Import { name, description }));
    Ok(())
}

impl<'s> Root<'s> {
    ghost use Rattle.type_sinks.specs.Views.{entry_values, root_scope, interface_names, root_names, RootIsGood, RootIsPlaced, IsFull, IsSameRoot, IsAdded, IsTaken, IsImported, IsImportedBeside, IsNamedImportCause, IsImportCause, AddsOneType};

    /// A root where nothing is written, for interfaces that are imported under these names, by their ids.
    pub fn new(alloc: Global, names: &'s [String]) -> Root<'s>
        ensures entries { entry_values result ≡ [] }
        ensures names { interface_names result ≡ map string_bytes names.entry.now }
        ensures homes { (id : ℕ) → index_of result.homes id ≡ None }
        ensures good { (defs : List Def) → RootIsGood result defs }
        ensures placed { RootIsPlaced result }
    {
        Root {
            entries: Vec::new(alloc),
            types: 0,
            functions: 0,
            instances: 0,
            names,
            imported: Names::new(alloc),
            known: Kept::new(alloc),
            homes: Kept::new(alloc),
        }
    }

    /// What is written, in order.
    pub fn entries(&self) -> &[Entry<'s>]
        ensures { result.now ≡ self.now.entries.items }
    {
        &self.entries
    }

    /// What is written, in order.
    pub fn into_entries(self) -> Vec<Entry<'s>>
        ensures { map entry_value result.items ≡ entry_values self.entry }
    {
        self.entries
    }

    /// How many instances there are, which is the index of the next.
    pub fn instance_count(&self) -> u32
        ensures { result ≡ length (root_scope self.now).instances }
    {
        self.instances
    }

    /// How many functions there are, which is the index of the next.
    pub fn function_count(&self) -> u32
        ensures { result ≡ length (root_scope self.now).functions }
    {
        self.functions
    }

    /// Writes an entry that takes the next index of a type and imports nothing, and answers that index.
    fn add_type(&mut self, entry: Entry<'s>) -> Result<u32, Fault>
        requires adds { AddsOneType (root_scope self.old) (entry_value entry) }
        requires nothing { imported_name (entry_value entry) ≡ [] }
        ensures ok { IfOk result (λ i. (i ≡ length (root_scope self.old).types) × IsAdded self.old self.new (entry_value entry.entry)) }
        ensures err { OnErr result (IsSameRoot self.old self.new) }
        ensures cause { IfErr result (IsCause ⊥ (IsFull self.new)) }
    {
        let index = self.types;
        let next = index.checked_add(1).ok_or(Fault::TooLarge)?;
        self.entries.push(entry)?;
        self.types = next;
        Ok(index)
    }

    /// Imports a type that equals the one at an index, and answers its index.
    fn import_type(&mut self, name: &'s str, body: u32) -> Result<u32, Fault>
        ensures ok { IfOk result (λ i. (i ≡ length (root_scope self.old).types) × (is_new (root_names self.old) name.entry.now ≡ true) × IsAdded self.old self.new (an_import (record { name = name.entry.now; description = descriptions.Equal body }))) }
        ensures err { OnErr result (IsSameRoot self.old self.new) }
        ensures cause { IfErr result (IsCause (is_new (root_names self.old) name.entry.now ≡ false) (IsFull self.new)) }
    {
        let index = self.types;
        let next = index.checked_add(1).ok_or(Fault::TooLarge)?;
        let description = Description::Equal(body);
        import(&mut self.entries, &mut self.imported, name, description)?;
        self.types = next;
        Ok(index)
    }

    /// Takes a type of an interface from the instance that has it, and answers its index.
    pub(crate) fn take(&mut self, name: &'s str, id: TypeId) -> Result<u32, Fault>
        ensures ok { IfOk result (λ i. IsTaken self.old self.new name.entry.now id i) }
        ensures err { OnErr result (IsSameRoot self.old self.new) }
        ensures cause { IfErr result (IsCause (index_of self.old.homes id ≡ None) (IsFull self.new)) }
        ensures known { self.new.known ≡ self.old.known }
    {
        let instance = self.homes.get(id).ok_or(Fault::NotYet)?;
        let sort = ComponentSort::Type_;
        self.add_type(Entry::Alias(Alias::InstanceExport {
            sort,
            instance,
            name,
        }))
    }

    /// Imports an instance of the type at an index, and answers the index of the instance.
    fn add_instance(&mut self, name: &'s str, ty: u32) -> Result<u32, Fault>
        ensures ok { IfOk result (λ i. (i ≡ length (root_scope self.old).instances) × (is_new (root_names self.old) name.entry.now ≡ true) × IsAdded self.old self.new (an_import (record { name = name.entry.now; description = descriptions.Instance ty }))) }
        ensures cause { IfErr result (IsCause (is_new (root_names self.old) name.entry.now ≡ false) (2 ^ 32 ≤ length (root_scope self.old).instances + 1)) }
    {
        let index = self.instances;
        let next = index.checked_add(1).ok_or(Fault::TooLarge)?;
        let description = Description::Instance(ty);
        import(&mut self.entries, &mut self.imported, name, description)?;
        self.instances = next;
        Ok(index)
    }

    /// Imports an instance under a name, with a type that these declarators make, and answers its index. Answers `NotYet` where the name is
    /// there already, `TooLarge` where 32 bits can't say an index, and `OutOfMemory` where memory is wanting.
    pub(crate) fn import_named(
        &mut self,
        name: &'s str,
        declarators: Vec<Declarator<'s>>,
    ) -> Result<u32, Fault>
        ensures ok { IfOk result (λ i. (i ≡ length (root_scope self.old).instances) × IsImportedBeside self.old self.new name.entry.now (map declarator_value declarators.entry.items)) }
        ensures cause { IfErr result (IsNamedImportCause self.old name.entry.now) }
    {
        let definition = TypeDefinition::Instance(InstanceType { declarators });
        let ty = self.add_type(Entry::Type_(definition))?;
        self.add_instance(name, ty)
    }

    /// Imports an instance of an interface, with a type that these declarators make, from where these types may be taken. Answers
    /// `NotYet` where the interface has no name, or the name is there already, `TooLarge` where 32 bits can't say an index, and
    /// `OutOfMemory` where memory is wanting.
    pub(crate) fn import_instance(
        &mut self,
        interface: InterfaceId,
        declarators: Vec<Declarator<'s>>,
        exports: &[TypeId],
    ) -> Result<(), Fault>
        ensures ok { IfOk result (λ _. IsImported self.old self.new interface (map declarator_value declarators.entry.items) exports.now) }
        ensures cause { IfErr result (IsImportCause self.old interface) }
    {
        let names = self.names;
        let name = names.get(interface.index()).ok_or(Fault::NotYet)?;
        let instance = self.import_named(name.as_str(), declarators)?;
        self.homes.keep_all(exports, instance)?;
        Ok(())
    }
}

impl<'s> Root<'s> {
    ghost use Rattle.type_writing.specs.Passed.type_meaning-Words.{Site};
    ghost use Rattle.type_writing.specs.Passed.type_meaning-Scope.{import_label};
    ghost use Rattle.type_sinks.specs.Views.{root_scope, interface_names, root_names, root_setting, RootIsGood, RootIsPlaced, IsFull, IsFullOfFunctions, IsSameRoot, IsAdded, IsFunctionAt, InstanceHasFunction, AddsOneFunction};
    ghost use Rattle.type_writing.specs.Writing.{Begins};

    /// Imports a function of the type at an index, and answers its index among the functions.
    fn add_function(&mut self, name: &'s str, ty: u32) -> Result<u32, Fault>
        ensures ok { IfOk result (λ i. (i ≡ length (root_scope self.old).functions) × (is_new (root_names self.old) name.entry.now ≡ true) × IsAdded self.old self.new (an_import (record { name = name.entry.now; description = descriptions.Function ty }))) }
        ensures err { OnErr result (IsSameRoot self.old self.new) }
        ensures cause { IfErr result (IsCause (is_new (root_names self.old) name.entry.now ≡ false) (IsFullOfFunctions self.new)) }
    {
        let index = self.functions;
        let next = index.checked_add(1).ok_or(Fault::TooLarge)?;
        let description = Description::Function(ty);
        import(&mut self.entries, &mut self.imported, name, description)?;
        self.functions = next;
        Ok(index)
    }

    /// Imports a function of the world with these parameters, and with this result if it has one, and answers its index among the
    /// functions (Component Model, Explainer, Import and Export Definitions). Answers `NotYet` where the name is there already or one of
    /// the types isn't written, `TooLarge` where 32 bits can't say an index, and `OutOfMemory` where memory is wanting.
    pub fn import_function(
        &mut self,
        alloc: Global,
        name: &'s str,
        params: &'s [Param],
        answer: &Option<Type>,
    ) -> Result<u32, Fault>
        ensures interfaces { interface_names self.new ≡ interface_names self.old }
        ensures table { index_of self.new.known ≡ index_of self.old.known }
        ensures homes { index_of self.new.homes ≡ index_of self.old.homes }
        ensures types { Begins (root_scope self.old).types (root_scope self.new).types }
        ensures functions { Begins (root_scope self.old).functions (root_scope self.new).functions }
        ensures instances { (root_scope self.new).instances ≡ (root_scope self.old).instances }
        ensures good { (types : List Def) → RootIsGood self.old types → RootIsGood self.new types }
        ensures placed { (types : List Def) → RootIsGood self.old types → AreParametersApart params.entry.now → RootIsPlaced self.old → RootIsPlaced self.new }
        ensures names { OnOk result (root_names self.new ≡ root_names self.old ++ name.entry.now ∷ []) }
        ensures index { IfOk result (λ i. (i ≡ length (root_scope self.old).functions) × (length (root_scope self.new).functions ≡ i + 1)) }
        ensures is { IfOk result (λ i. (types : List Def) → RootIsGood self.old types → IsFunctionAt self.new i (import_label name.entry.now) types params.entry.now answer.now) }
        ensures err { OnErr result ((root_names self.new ≡ root_names self.old) × ((root_scope self.new).functions ≡ (root_scope self.old).functions)) }
        ensures cause { IfErr result (IsFunctionCause (index_of self.old.known) (function_form params.entry.now answer.now).parts (root_names self.old) name.entry.now (IsFull self.new ⊎ IsFullOfFunctions self.new)) }
    {
        let ty = write_function(alloc, self, params, answer)?;
        self.add_function(name, ty)
    }

    /// Writes an entry that takes the next index of a function and imports nothing, and answers that index.
    fn push_function(&mut self, entry: Entry<'s>) -> Result<u32, Fault>
        requires adds { AddsOneFunction (root_scope self.old) (entry_value entry) }
        requires nothing { imported_name (entry_value entry) ≡ [] }
        ensures ok { IfOk result (λ i. (i ≡ length (root_scope self.old).functions) × IsAdded self.old self.new (entry_value entry.entry)) }
        ensures err { OnErr result (IsSameRoot self.old self.new) }
        ensures cause { IfErr result (IsCause ⊥ (IsFullOfFunctions self.new)) }
    {
        let index = self.functions;
        let next = index.checked_add(1).ok_or(Fault::TooLarge)?;
        self.entries.push(entry)?;
        self.functions = next;
        Ok(index)
    }

    /// Takes a function from the instance at an index, and answers its index among the functions (Component Model, Explainer, Alias
    /// Definitions). Answers `TooLarge` where 32 bits can't say an index, and `OutOfMemory` where memory is wanting: then nothing is written.
    pub fn take_function(&mut self, name: &'s str, instance: u32) -> Result<u32, Fault>
        ensures ok { IfOk result (λ i. (i ≡ length (root_scope self.old).functions) × IsAdded self.old self.new (an_alias (instance_export sorts.Function instance name.entry.now))) }
        ensures err { OnErr result (IsSameRoot self.old self.new) }
        ensures good { (types : List Def) → RootIsGood self.old types → RootIsGood self.new types }
        ensures placed { instance < length (root_scope self.old).instances → RootIsPlaced self.old → RootIsPlaced self.new }
        ensures is { IfOk result (λ i. (site : Site) (types : List Def) (params : List Parameter) (answer : Option Ref) → InstanceHasFunction self.old instance site types name.entry.now params answer → IsFunctionAt self.new i (record { site = site; name = name.entry.now }) types params answer) }
        ensures cause { IfErr result (IsCause ⊥ (IsFullOfFunctions self.new)) }
    {
        let sort = ComponentSort::Function;
        self.push_function(Entry::Alias(Alias::InstanceExport {
            sort,
            instance,
            name,
        }))
    }
}

impl<'s> ValtypeEncoder<'s> for Root<'s> {
    ghost use Rattle.type_sinks.specs.Kept.{index_of};
    ghost use Rattle.type_sinks.specs.Views.{root_scope, root_setting, root_names, RootIsGood, RootIsPlaced, IsFull};

    ghost setting = { root_setting };

    ghost space = { λ r. (root_scope r).types };

    ghost table = { λ r. index_of r.known };

    ghost names = { root_names };

    ghost given = { λ _ _. Unit {0} };

    ghost good = { RootIsGood };

    ghost placed = { RootIsPlaced };

    ghost full = { IsFull };

    ghost outside = { λ _. [] };

    fn known(&self, id: TypeId) -> Option<u32> {
        self.known.get(id)
    }

    fn is_own(&self, owner: TypeOwner) -> bool {
        match owner {
            TypeOwner::World(_) | TypeOwner::None => true,
            TypeOwner::Interface(_) => false,
        }
    }

    fn define(&mut self, ty: DefinedType<'s>) -> Result<u32, Fault> {
        self.add_type(Entry::Type_(TypeDefinition::Defined(ty)))
    }

    fn declare(
        &mut self,
        _owner: TypeOwner,
        name: &'s str,
        _id: TypeId,
        index: u32,
    ) -> Result<u32, Fault> {
        self.import_type(name, index)
    }

    fn foreign(&mut self, _owner: TypeOwner, name: &'s str, id: TypeId) -> Result<u32, Fault> {
        self.take(name, id)
    }

    fn remember(&mut self, id: TypeId, index: u32) -> Result<(), Fault> {
        self.known.keep(id, index)?;
        Ok(())
    }
}
