//! Graphs of packages.

ghost use Rattle.std.specs.declared.alloc.Global.{Global};
ghost use Rattle.std.specs.Prelude.{◌≡◌, ◌<◌, ℕ, [], Vec, get_or, true, false, Some, length, IfOk, IfErr, IfSome, OnErr, OnOk, is_some};
ghost use Rattle.wit_reach.specs.Deps.{IsDepOf};
ghost use Rattle.std.specs.Map.{lookup};
ghost use Rattle.wit_types.specs.declared.«package».PackageName.{PackageName};
ghost use Rattle.wit_features.specs.Gates.{of_package, AreOnTime};
ghost use Rattle.wit_moves.specs.Plan.{OwnerPlaces as Owners};
ghost use Rattle.wit_moves.specs.View.{owners};
ghost use Rattle.wit_plans.specs.Plans.{IsPlanned, IsPlanCause};
ghost use Rattle.wit_graph_parts.specs.Passed.wit_placed-There.{AreBelow};
ghost use Rattle.wit_graph_parts.specs.Own.{IsWellFormed, parts};
ghost use Rattle.wit_graph.specs.Graph.{Graph as Value, IsClosureOf, IsDepsOf, IsGraph, nothing, items_of, sizes as sizes_of};
ghost use Rattle.wit_graph.specs.Packages.{ArePackagesInOrder, ArePackageDeps};
ghost use Rattle.wit_graph.specs.Push as spec;
ghost use Rattle.wit_graph_parts.specs.Passed.wit_arena-Tree.{Tree, resource_leaf};
ghost use Rattle.wit_graph_parts.specs.Passed.wit_arena-Unfold.{Owners as TextOwners, trees, value_tree};
ghost use Rattle.wit_graph_parts.specs.Passed.wit_resources-Holding.{all_bits_valid};
ghost use Rattle.wit_graph_parts.specs.Passed.wit_resources-Natures.{natures, ref_nature};

use crate::packages::{ordered, package_deps};
use crate::push::{Outcome, pushed};
use crate::tables::{Mark, Tables, cut, no_tables, sizes};
use indexmap::IndexMap;
use std::alloc::{AllocError, Global};
use std::marker::Model;
use std::mem;
use wit_features::{Features, check_gates};
use wit_finding::{Known, foreign_places};
use wit_graph_parts::{Move, Own, OwnParts, PushFault, copied_name, law_found_are_there, own_of};
use wit_moves::{MoveFault, OwnerPlaces};
use wit_plans::{Parts, Plan, plan_of};
use wit_reach::type_interface_dep;
use wit_types::{
    Arena, Interface, InterfaceId, Package, PackageId, PackageName, Type, TypeDef, TypeId,
    UnresolvedPackage, World,
};

/// Refuses a package of which the name is there, or in which an item is stable from a version on that it hasn't reached.
fn check_package(
    names: &IndexMap<PackageName, PackageId>,
    package: &UnresolvedPackage,
) -> Result<(), PushFault>
    ensures fresh { OnOk result (is_some (lookup (⟦<PackageName as PartialEq>⟧.eq «package».now.name) names.now.entries) ≡ false) }
    ensures on_time { OnOk result (AreOnTime «package».now.name.version (of_package «package».now)) }
    ensures cause { IfErr result (spec.IsPackageCause ⟦<PackageName as PartialEq>⟧.eq names.now.entries «package».now) }
{
    if names.contains_key(&package.name) {
        return Err(PushFault::DuplicatePackage(package.name_span));
    }
    match check_gates(package) {
        Ok(()) => Ok(()),
        Err(at) => Err(PushFault::GateVersion(at)),
    }
}

/// Where all that a package holds stands behind what there is.
fn plan_in(
    alloc: Global,
    features: &Features,
    tables: &Tables,
    foreign: OwnerPlaces,
    own: &OwnParts,
) -> Result<Plan, MoveFault>
    requires { AreBelow (length tables.now.interfaces.all) foreign.interfaces }
    ensures ok { IfOk result (λ plan. IsPlanned features.now tables.now.interfaces.all (sizes_of (items_of tables.now)) (owners foreign) (parts own.now) (owners plan.owners) plan.types) }
    ensures cause { IfErr result (IsPlanCause features.now tables.now.interfaces.all (sizes_of (items_of tables.now)) (owners foreign) (parts own.now)) }
{
    let parts = Parts {
        unknown: own.unknown.as_slice(),
        types: own.types.as_slice(),
        interfaces: own.interfaces.as_slice(),
        worlds: own.worlds.as_slice(),
    };
    plan_of(
        alloc,
        features,
        tables.interfaces.all(),
        sizes(tables),
        foreign,
        &parts,
    )
}

/// The row at a place.
fn row_at(rows: &[Vec<InterfaceId>], place: usize) -> &[InterfaceId]
    requires { place < length rows.now }
    ensures { (r : Vec ℕ Global) × (r ≡ get_or rows.now place r) × (result.now ≡ r.items) }
{
    rows[place].as_slice()
}

/// A graph of packages (WIT, Packages).
pub struct Graph {
    tables: Tables,
    names: IndexMap<PackageName, PackageId>,
}

// By hand, so that what lets packages go is proved here alone.
impl Drop for Graph {
    fn drop(self) {
        let Graph {
            tables: _,
            names: _,
        } = self;
    }
}

impl Model for Graph {
    ghost use Rattle.std.specs.Coded.{codes};
    ghost use Rattle.wit_graph.specs.contracts.tables.Tables as all;
    ghost use Rattle.wit_graph.specs.Graph.{Graph, IsGraph};

    ghost Value = { Graph };

    ghost coded = { Prim.hlevel (codes, all.the_row.coded) };

    ghost view = { λ g. record { tables = g.tables; names = g.names.entries } };

    ghost invariant = { λ g. IsGraph (record { tables = g.tables; names = g.names.entries }) };
}

impl Graph {
    /// No packages.
    pub fn new(alloc: Global) -> Graph
        ensures tables { result.tables ≡ nothing }
        ensures names { result.names ≡ [] }
    {
        Graph {
            tables: no_tables(alloc),
            names: IndexMap::new(alloc),
        }
    }

    /// The types, by their ids.
    pub fn types(&self) -> &Arena<TypeDef>
        ensures { result.now ≡ self.now.tables.types }
    {
        &self.tables.types
    }

    /// The interfaces, by their ids.
    pub fn interfaces(&self) -> &Arena<Interface>
        ensures { result.now ≡ self.now.tables.interfaces.all }
    {
        self.tables.interfaces.all()
    }

    /// The worlds, by their ids, each with all that it imports in the end.
    pub fn worlds(&self) -> &Arena<World>
        ensures { result.now ≡ self.now.tables.worlds.elaborated }
    {
        self.tables.worlds.elaborated()
    }

    /// What each world lists.
    pub fn listed_worlds(&self) -> &Arena<World>
        ensures { result.now ≡ self.now.tables.worlds.listed }
    {
        self.tables.worlds.listed()
    }

    /// The packages, by their ids.
    pub fn packages(&self) -> &Arena<Package>
        ensures { result.now ≡ self.now.tables.packages }
    {
        &self.tables.packages
    }

    /// The packages by their names.
    pub fn package_names(&self) -> &IndexMap<PackageName, PackageId>
        ensures { result.now.entries ≡ self.now.names }
    {
        &self.names
    }

    /// What holds of each graph: all that it names is there, types are made of earlier ones, interfaces use types of those before them
    /// alone and list all types that belong to them, and names within an interface differ.
    pub fn law_is_graph(&self)
        ensures { IsGraph self.now }
    {
        let _ = &self.tables;
    }

    /// The interfaces of which an interface uses types, each with a lower id than its own (WIT, Use).
    pub fn interface_direct_deps(&self, id: InterfaceId) -> &[InterfaceId]
        requires { id < length self.now.tables.interfaces.all }
        ensures { IsDepsOf self.now.tables id result.now }
    {
        row_at(self.tables.interfaces.uses(), id.index())
    }

    /// All on which an interface depends over any number of steps, and itself, by rising ids: each once, dependencies first, itself last
    /// (WIT, Use).
    pub fn interface_closure(&self, id: InterfaceId) -> &[InterfaceId]
        requires { id < length self.now.tables.interfaces.all }
        ensures { IsClosureOf self.now.tables id result.now }
    {
        self.tables.closures.get(id)
    }

    /// The interface of which a type is used under another name by the one with that id, if it is one's (WIT, Use).
    pub fn type_interface_dep(&self, id: TypeId) -> Option<InterfaceId>
        requires { id < length self.now.tables.types }
        ensures some { IfSome result (IsDepOf self.now.tables.types id) }
        ensures all { (j : ℕ) → IsDepOf self.now.tables.types id j → result ≡ Some j }
    {
        type_interface_dep(&self.tables.types, id)
    }

    /// Whether any bits in as much memory as a value of a type takes are one, as far as bits go: of integers, floating-point numbers and
    /// handles, and of records, tuples, lists of fixed length and other names of what is so (Canonical ABI, Loading).
    pub fn all_bits_valid(&self, ty: &Type) -> bool
        ensures value { result ≡ (ref_nature (natures self.now.tables.types) ty.now).all_bits_valid }
        ensures tree { (owners : TextOwners) (v : Tree) → value_tree (trees owners resource_leaf self.now.tables.types) ty.now ≡ Some v → result ≡ all_bits_valid v }
    {
        self.tables.natures.all_bits_valid(ty)
    }

    /// The packages of which a package names an interface: in a `use`, or as an import or export of a world, also by what it depends on.
    /// Each once, by rising ids; itself is none of them. Fails for want of memory alone (WIT, Packages).
    pub fn package_direct_deps(
        &self,
        alloc: Global,
        id: PackageId,
    ) -> Result<Vec<PackageId>, AllocError>
        requires { id < length self.now.tables.packages }
        ensures { IfOk result (λ deps. ArePackageDeps self.now.tables id deps.items) }
    {
        package_deps(alloc, &self.tables, id)
    }

    /// All packages, each behind those of which it names an interface. Fails for want of memory alone (WIT, Packages).
    pub fn topological_packages(&self, alloc: Global) -> Result<Vec<PackageId>, AllocError>
        ensures { IfOk result (λ order. ArePackagesInOrder self.now.tables order.items) }
    {
        ordered(alloc, &self.tables)
    }

    /// Puts a package behind the others, of which all has its place. Where it is refused nothing changes.
    fn put(
        &mut self,
        alloc: Global,
        features: &Features,
        plan: &Plan,
        own: Own,
    ) -> Result<PackageId, PushFault>
        requires fresh { is_some (lookup (⟦<PackageName as PartialEq>⟧.eq own.name) self.old.names) ≡ false }
        requires ready { (foreign : Owners) × spec.IsReady features.now (items_of self.old.tables) foreign (parts own.parts) (owners plan.now.owners) plan.now.types }
        ensures ok { IfOk result (spec.IsPut ⟦<PackageName as PartialEq>⟧.eq features.now own.name own.docs (owners plan.now.owners) plan.now.types (parts own.parts) self.old self.new) }
        ensures more { OnOk result (spec.HasMorePackages self.old self.new) }
        ensures cause { IfErr result (spec.IsPartsCause features.now (length self.old.tables.packages) (owners plan.now.owners) plan.now.types (parts own.parts) (items_of self.old.tables)) }
        ensures err { OnErr result (self.new ≡ self.old) }
    {
        let mut own = own;
        let copy = copied_name(&own.name)?;
        let name = mem::replace(&mut own.name, copy);
        self.names.reserve(1)?;
        let owner = PackageId::from_index(self.tables.packages.len());
        let by = Move {
            features,
            owner,
            plan,
        };
        let tables = mem::replace(&mut self.tables, no_tables(alloc));
        let Outcome { tables, done } = pushed(alloc, tables, &by, own);
        self.tables = tables;
        done?;
        self.names.insert(name, owner).unwrap();
        Ok(owner)
    }

    /// Adds a package, with all of it that stays: gates are those of the features. What it asks for is looked up in the packages that are
    /// there. Answers its id. Refuses a package of which the name is there; gates of a version that it hasn't reached; a package that isn't
    /// there; a statement that stays and names what isn't there, or is left out; plain names of a world that are too alike by what it
    /// includes; an export that needs an interface from outside that depends on an export; and what turns out by types of others to be
    /// what it may not be. A refused call leaves the graph as it was (WIT, Packages, Use, Feature Gates; Component Model, WIT, Worlds).
    pub fn push(
        &mut self,
        alloc: Global,
        features: &Features,
        package: UnresolvedPackage,
    ) -> Result<PackageId, PushFault>
        requires { IsWellFormed «package» }
        ensures ok { IfOk result (spec.IsPushed ⟦<PackageName as PartialEq>⟧.eq features.now self.old «package» self.new) }
        ensures more { OnOk result (spec.HasMorePackages self.old self.new) }
        ensures cause { IfErr result (spec.IsPushCause ⟦<PackageName as PartialEq>⟧.eq features.now self.old «package») }
        ensures err { OnErr result (self.new ≡ self.old) }
    {
        law_found_are_there();
        check_package(&self.names, &package)?;
        let known = Known {
            packages: &self.tables.packages,
            names: &self.names,
        };
        let foreign = foreign_places(alloc, features, &known, &package)?;
        let own = own_of(
            alloc,
            package,
            foreign.interfaces.len(),
            foreign.worlds.len(),
        )?;
        let plan = plan_in(alloc, features, &self.tables, foreign, &own.parts)?;
        self.put(alloc, features, &plan, own)
    }

    /// How much there is now, for `restore`.
    pub fn mark(&self) -> Mark
        ensures { result ≡ spec.mark_of self.now }
    {
        Mark {
            sizes: sizes(&self.tables),
            packages: self.tables.packages.len(),
            names: self.names.len(),
        }
    }

    /// Takes back all packages that came since there was so much, so that the graph is as it was then.
    pub fn restore(&mut self, mark: Mark)
        requires { (then : Value) × IsGraph then × spec.HasMorePackages then self.old × (mark ≡ spec.mark_of then) }
        ensures { (then : Value) → IsGraph then → spec.HasMorePackages then self.old → mark ≡ spec.mark_of then → self.new ≡ then }
    {
        cut(&mut self.tables, mark.sizes);
        self.tables.packages.truncate(mark.packages);
        self.names.truncate(mark.names);
    }
}
