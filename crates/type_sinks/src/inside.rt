//! The type of the instance that is imported for an interface.

ghost use Rattle.std.specs.Prelude.{◌≡◌, ◌⊎◌, ◌++◌, ◌∷◌, [], ◌≤◌, ◌+◌, ◌^◌, ℕ, nat_eq, List, Option, Some, None, true, false, get_or, length, map, IfOk, IfErr, OnOk, OnErr};
ghost use Rattle.std.specs.List.{list_any};
ghost use Rattle.component_definitions.specs.declared.externs.Description.TheVariants as descriptions;
ghost use Rattle.distinct_names.specs.Names.{is_new};
ghost use Rattle.component_sections.specs.Passed.component_instances-Declarators.{declarator_value, declared_export};
ghost use Rattle.wit_types.specs.declared.function.Param.{Param as Parameter};
ghost use Rattle.wit_types.specs.declared.kind.«Type».{«Type» as Ref};
ghost use Rattle.wit_types.specs.declared.interface.TypeDef.{TypeDef as Def};
ghost use Rattle.type_sinks.specs.Kept.{index_of};
ghost use Rattle.type_sinks.specs.Inside.{declares, type_count, exported_name, exported_names, is_of, instance_label, TakenAreApart};
ghost use Rattle.type_sinks.specs.Refusals.{IsFunctionCause};
ghost use Rattle.type_writing.specs.Functions.{function_form};
ghost use Rattle.type_writing.specs.Placing.{AreParametersApart};
ghost use Rattle.type_writing.specs.Refusals.{IsCause};

use crate::kept::Kept;
use crate::root::Root;
use component_definitions::{Alias, Description};
use component_sections::Declarator;
use component_value_types::DefinedType;
use distinct_names::Names;
use std::alloc::Global;
use type_writing::{Fault, ValtypeEncoder, function_of};
use wit_types::{InterfaceId, Param, Type, TypeId, TypeOwner};

/// The type of an interface's instance while it is written, over the root of the component: the interface's own types are exports that
/// equal them, those of other interfaces aliases of what the root has (Component Model, Explainer, Import and Export Definitions).
#[derive(Drop)]
pub struct InterfaceTypes<'s> {
    root: Root<'s>,
    interface: InterfaceId,
    /// What is written, in order.
    declarators: Vec<Declarator<'s>>,
    types: u32,
    /// The index of each type that is written.
    known: Kept,
    /// The types that are exported.
    exports: Vec<TypeId>,
    /// The names of what is exported.
    exported: Names<'s>,
    ghost counted: { types ≡ type_count (map declarator_value declarators.items) },
    ghost named: { exported ≡ exported_names (map declarator_value declarators.items) },
}

/// Exports something. Answers `NotYet` where the name is there already, and `OutOfMemory` where memory is wanting: then nothing is
/// exported.
fn export<'s>(
    declarators: &mut Vec<Declarator<'s>>,
    exported: &mut Names<'s>,
    name: &'s str,
    description: Description,
) -> Result<(), Fault>
    ensures new { OnOk result (is_new exported.old name.entry.now ≡ true) }
    ensures name { OnOk result (exported.new ≡ exported.old ++ name.entry.now ∷ []) }
    ensures declarator { OnOk result (map declarator_value declarators.new.items ≡ map declarator_value declarators.old.items ++ declared_export name.entry.now description ∷ []) }
    ensures err { OnErr result ((exported.new ≡ exported.old) × (declarators.new.items ≡ declarators.old.items)) }
    ensures cause { IfErr result (IsCause (is_new exported.old name.entry.now ≡ false) ⊥) }
{
    if !exported.is_new(name) {
        return Err(Fault::NotYet);
    }
    declarators.reserve(1)?;
    exported.add(name)?;
    declarators.push_reserved(Declarator::Export { name, description });
    Ok(())
}

impl<'s> InterfaceTypes<'s> {
    ghost use Rattle.type_sinks.specs.Views.{root_scope, interface_names, root_names, RootIsGood, RootIsPlaced, IsFull, declarator_values, inside, inside_names, inside_setting, InsideIsGood, InsideIsPlaced, IsFullInside, IsGiven, IsSameInside, IsDeclared, IsImported, IsImportedBeside, IsNamedImportCause, IsImportCause, IsInstanceWith, IsTypeOf, HasFunction, HasFunctionIn, InstanceHasFunction, HasTypeIn};
    ghost use Rattle.type_writing.specs.Passed.type_meaning-Words.{imported};
    ghost use Rattle.type_writing.specs.Writing.{Begins};

    /// The type of the instance of an interface, where nothing is written, over a root.
    pub fn new(alloc: Global, root: Root<'s>, interface: InterfaceId) -> InterfaceTypes<'s>
        ensures root { result.root ≡ root.entry }
        ensures interface { result.interface ≡ interface }
        ensures declarators { declarator_values result ≡ [] }
        ensures exports { result.exports.items ≡ [] }
        ensures table { (id : ℕ) → index_of result.known id ≡ None }
        ensures good { (types : List Def) → RootIsGood root.entry types → TakenAreApart (index_of root.entry.homes) interface types → InsideIsGood result types }
        ensures placed { RootIsPlaced root.entry → InsideIsPlaced result }
    {
        InterfaceTypes {
            root,
            interface,
            declarators: Vec::new(alloc),
            types: 0,
            known: Kept::new(alloc),
            exports: Vec::new(alloc),
            exported: Names::new(alloc),
        }
    }

    /// Imports the instance at the root, under the interface's name, with which the root answers; the types that are exported may be
    /// taken from it. Answers `NotYet` where the interface has no name or the root imports something under it, `TooLarge` where 32 bits
    /// can't say an index, and `OutOfMemory` where memory is wanting.
    pub fn import(self) -> Result<Root<'s>, Fault>
        ensures imported { IfOk result (λ r. IsImported self.entry.root r self.entry.interface (declarator_values self.entry) self.entry.exports.items) }
        ensures good { IfOk result (λ r. (types : List Def) → InsideIsGood self.entry types → RootIsGood r types) }
        ensures placed { IfOk result (λ r. InsideIsPlaced self.entry → RootIsPlaced r) }
        ensures homes { IfOk result (λ r. (id : ℕ) → IsGiven self.entry id → index_of r.homes id ≡ Some (length (root_scope self.entry.root).instances)) }
        ensures interfaces { IfOk result (λ r. interface_names r ≡ interface_names self.entry.root) }
        ensures known { IfOk result (λ r. index_of r.known ≡ index_of self.entry.root.known) }
        ensures only { IfOk result (λ r. (types : List Def) → InsideIsGood self.entry types → (id k : ℕ) → index_of r.homes id ≡ Some k → (index_of self.entry.root.homes id ≡ Some k) ⊎ IsTypeOf types id self.entry.interface) }
        ensures others { IfOk result (λ r. (id : ℕ) → list_any (nat_eq id) self.entry.exports.items ≡ false → index_of r.homes id ≡ index_of self.entry.root.homes id) }
        ensures begins { IfOk result (λ r. Begins (root_scope self.entry.root).types (root_scope r).types × Begins (root_scope self.entry.root).instances (root_scope r).instances) }
        ensures same { IfOk result (λ r. (root_scope r).functions ≡ (root_scope self.entry.root).functions) }
        ensures names { IfOk result (λ r. root_names r ≡ root_names self.entry.root ++ get_or (interface_names self.entry.root) self.entry.interface [] ∷ []) }
        ensures items { IfOk result (λ r. IsInstanceWith r (length (root_scope self.entry.root).instances) (imported (get_or (interface_names self.entry.root) self.entry.interface [])) (inside_names self.entry)) }
        ensures functions { IfOk result (λ r. (types : List Def) (name : List ℕ) (params : List Parameter) (answer : Option Ref) → HasFunction self.entry types name params answer → InstanceHasFunction r (length (root_scope self.entry.root).instances) (imported (get_or (interface_names self.entry.root) self.entry.interface [])) types name params answer) }
        ensures cause { IfErr result (IsImportCause self.entry.root self.entry.interface) }
    {
        let mut root = self.root;
        root.import_instance(self.interface, self.declarators, &self.exports)?;
        Ok(root)
    }

    /// Imports the instance at the root under another name than the interface's, with which the root answers; no type may be taken from it.
    /// Answers `NotYet` where the root imports something under that name, `TooLarge` where 32 bits can't say an index, and `OutOfMemory`
    /// where memory is wanting.
    pub fn import_as(self, name: &'s str) -> Result<Root<'s>, Fault>
        ensures imported { IfOk result (λ r. IsImportedBeside self.entry.root r name.entry.now (declarator_values self.entry)) }
        ensures good { IfOk result (λ r. (types : List Def) → InsideIsGood self.entry types → RootIsGood r types) }
        ensures placed { IfOk result (λ r. InsideIsPlaced self.entry → RootIsPlaced r) }
        ensures begins { IfOk result (λ r. Begins (root_scope self.entry.root).types (root_scope r).types × Begins (root_scope self.entry.root).instances (root_scope r).instances) }
        ensures same { IfOk result (λ r. (root_scope r).functions ≡ (root_scope self.entry.root).functions) }
        ensures names { IfOk result (λ r. root_names r ≡ root_names self.entry.root ++ name.entry.now ∷ []) }
        ensures items { IfOk result (λ r. IsInstanceWith r (length (root_scope self.entry.root).instances) (imported name.entry.now) (inside_names self.entry)) }
        ensures functions { IfOk result (λ r. (types : List Def) (of : List ℕ) (params : List Parameter) (answer : Option Ref) → HasFunction self.entry types of params answer → HasFunctionIn (instance_label (interface_names self.entry.root) self.entry.interface name.entry.now) r (length (root_scope self.entry.root).instances) (imported name.entry.now) types of params answer) }
        ensures types { IfOk result (λ r. (types : List Def) (id : ℕ) → InsideIsGood self.entry types → IsGiven self.entry id → HasTypeIn (instance_label (interface_names self.entry.root) self.entry.interface name.entry.now) r (length (root_scope self.entry.root).instances) (imported name.entry.now) types id) }
        ensures cause { IfErr result (IsNamedImportCause self.entry.root name.entry.now) }
    {
        let mut root = self.root;
        root.import_named(name, self.declarators)?;
        Ok(root)
    }

    /// Whether the types of this owner are the interface's.
    fn is_its(&self, owner: TypeOwner) -> bool
        ensures { result ≡ is_of self.now.interface owner }
    {
        match owner {
            TypeOwner::Interface(interface) => interface.index() == self.interface.index(),
            TypeOwner::World(_) | TypeOwner::None => false,
        }
    }

    /// Writes a declarator that exports nothing and takes the next index of a type, and answers that.
    fn add(&mut self, declarator: Declarator<'s>) -> Result<u32, Fault>
        requires count { declares (declarator_value declarator) ≡ 1 }
        requires name { exported_name (declarator_value declarator) ≡ [] }
        ensures ok { IfOk result (λ i. (i ≡ type_count (declarator_values self.old)) × IsDeclared self.old self.new (declarator_value declarator.entry) self.old.exports.items) }
        ensures err { OnErr result (IsSameInside self.old self.new) }
        ensures cause { IfErr result (IsCause ⊥ (2 ^ 32 ≤ type_count (declarator_values self.new) + 1)) }
        ensures exports { self.new.exports.items ≡ self.old.exports.items }
        ensures known { self.new.known ≡ self.old.known }
    {
        let index = self.types;
        let next = index.checked_add(1).ok_or(Fault::TooLarge)?;
        self.declarators.push(declarator)?;
        self.types = next;
        Ok(index)
    }

    /// Exports a type of the interface, which equals the type at an index, under its own name, and answers the index of that.
    fn export_type(&mut self, name: &'s str, id: TypeId, body: u32) -> Result<u32, Fault>
        ensures ok { IfOk result (λ i. (i ≡ type_count (declarator_values self.old)) × (is_new (inside_names self.old) name.entry.now ≡ true) × IsDeclared self.old self.new (declared_export name.entry.now (descriptions.Equal body)) (self.old.exports.items ++ id ∷ [])) }
        ensures err { OnErr result (IsSameInside self.old self.new) }
        ensures cause { IfErr result (IsCause (is_new (inside_names self.old) name.entry.now ≡ false) (2 ^ 32 ≤ type_count (declarator_values self.new) + 1)) }
        ensures known { self.new.known ≡ self.old.known }
    {
        let index = self.types;
        let next = index.checked_add(1).ok_or(Fault::TooLarge)?;
        self.exports.reserve(1)?;
        let description = Description::Equal(body);
        export(&mut self.declarators, &mut self.exported, name, description)?;
        self.types = next;
        self.exports.push_reserved(id);
        Ok(index)
    }

    /// Exports a function of the type at an index.
    fn export_item(&mut self, name: &'s str, ty: u32) -> Result<(), Fault>
        ensures ok { IfOk result (λ _. (is_new (inside_names self.old) name.entry.now ≡ true) × IsDeclared self.old self.new (declared_export name.entry.now (descriptions.Function ty)) self.old.exports.items) }
        ensures err { OnErr result (IsSameInside self.old self.new) }
        ensures cause { IfErr result (IsCause (is_new (inside_names self.old) name.entry.now ≡ false) ⊥) }
    {
        let description = Description::Function(ty);
        export(&mut self.declarators, &mut self.exported, name, description)?;
        Ok(())
    }

    /// Exports a function with these parameters, and with this result if it has one (Component Model, Explainer, Import and Export
    /// Definitions). Answers `NotYet` where the name is there already or a type isn't written, `TooLarge` where 32 bits can't say an
    /// index, and `OutOfMemory` where memory is wanting.
    pub fn export_function(
        &mut self,
        alloc: Global,
        name: &'s str,
        params: &'s [Param],
        answer: &Option<Type>,
    ) -> Result<(), Fault>
        ensures setting { inside_setting self.new ≡ inside_setting self.old }
        ensures root { self.new.root ≡ self.old.root }
        ensures table { self.new.known ≡ self.old.known }
        ensures exports { self.new.exports.items ≡ self.old.exports.items }
        ensures names { OnOk result (inside_names self.new ≡ inside_names self.old ++ name.entry.now ∷ []) }
        ensures err { OnErr result (inside_names self.new ≡ inside_names self.old) }
        ensures begins { Begins (inside self.old).types (inside self.new).types }
        ensures good { (types : List Def) → InsideIsGood self.old types → InsideIsGood self.new types }
        ensures placed { (types : List Def) → InsideIsGood self.old types → AreParametersApart params.entry.now → InsideIsPlaced self.old → InsideIsPlaced self.new }
        ensures has { IfOk result (λ _. (types : List Def) → InsideIsGood self.old types → HasFunction self.new types name.entry.now params.entry.now answer.now) }
        ensures keeps { (types : List Def) (other : List ℕ) (asked : List Parameter) (given : Option Ref) → HasFunction self.old types other asked given → HasFunction self.new types other asked given }
        ensures cause { IfErr result (IsFunctionCause (index_of self.old.known) (function_form params.entry.now answer.now).parts (inside_names self.old) name.entry.now (IsFullInside self.new)) }
    {
        let function = function_of(alloc, self, params, answer)?;
        let ty = self.add(Declarator::Type_(DefinedType::Function(function)))?;
        self.export_item(name, ty)
    }
}

impl<'s> ValtypeEncoder<'s> for InterfaceTypes<'s> {
    ghost use Rattle.type_sinks.specs.Kept.{index_of};
    ghost use Rattle.type_sinks.specs.Views.{root_scope, inside, inside_names, inside_setting, InsideIsGood, InsideIsPlaced, IsFullInside, IsGiven};

    ghost setting = { inside_setting };

    ghost space = { λ t. (inside t).types };

    ghost table = { λ t. index_of t.known };

    ghost names = { inside_names };

    ghost given = { IsGiven };

    ghost good = { InsideIsGood };

    ghost placed = { InsideIsPlaced };

    ghost full = { IsFullInside };

    ghost outside = { λ t. (root_scope t.root).types };

    fn known(&self, id: TypeId) -> Option<u32> {
        self.known.get(id)
    }

    fn is_own(&self, owner: TypeOwner) -> bool {
        self.is_its(owner)
    }

    fn define(&mut self, ty: DefinedType<'s>) -> Result<u32, Fault> {
        self.add(Declarator::Type_(ty))
    }

    fn declare(
        &mut self,
        _owner: TypeOwner,
        name: &'s str,
        id: TypeId,
        index: u32,
    ) -> Result<u32, Fault> {
        self.export_type(name, id, index)
    }

    fn foreign(&mut self, _owner: TypeOwner, name: &'s str, id: TypeId) -> Result<u32, Fault> {
        let index = self.root.take(name, id)?;
        self.add(Declarator::Alias(Alias::Outer { count: 1, index }))
    }

    fn remember(&mut self, id: TypeId, index: u32) -> Result<(), Fault> {
        self.known.keep(id, index)?;
        Ok(())
    }
}
