//! Packages that are resolved together.

ghost use Rattle.std.specs.Prelude.{◌≡◌, ◌⊎◌, ◌<◌, ◌^◌, ◌+◌, ◌≤◌, ◌++◌, ◌∷◌, [], ℕ, Some, false, length, option_map, string_bytes, IfOk, IfErr, OnOk, OnErr};
ghost use Rattle.wit_features.specs.Features.{with_name};
ghost use Rattle.wit_arena.specs.Tree.{Tree, resource_leaf};
ghost use Rattle.wit_arena.specs.Unfold.{Owners, trees, value_tree};
ghost use Rattle.wit_resolve_errors.specs.Passed.wit_graph-Graph.{IsElaborated, IsGraph};
ghost use Rattle.wit_resolve_errors.specs.Passed.wit_graph-Packages.{ArePackagesInOrder, ArePackageDeps};
ghost use Rattle.wit_resolve_errors.specs.Passed.wit_graph-Push.{HasMorePackages};
ghost use Rattle.wit_well_formed.specs.Passed.wit_resources-Holding.{all_bits_valid};
ghost use Rattle.wit_well_formed.specs.Passed.wit_resources-Natures.{natures, ref_nature};
ghost use Rattle.wit_well_formed.specs.Passed.wit_graph_parts-Own.{IsWellFormed};
ghost use Rattle.wit_order.specs.Order.{Has};
ghost use Rattle.wit_well_formed.specs.Passed.wit_package-GroupView.{texts};
ghost use Rattle.wit_well_formed.specs.Passed.wit_package-declared-group-UnresolvedPackageGroup.{UnresolvedPackageGroup};
ghost use Rattle.wit_resolve_errors.specs.Errors.{of_selection, IsErrorLine, IsOfTexts, IsSizeError};
ghost use Rattle.wit_resolution.specs.Groups.{packages_of};
ghost use Rattle.wit_resolution.specs.Pushes as spec;
ghost use Rattle.wit_resolution.specs.Texts.{files_of};
ghost use Rattle.wit_selection.specs.Selection.{IsSelected, IsSelectCause};
ghost use Rattle.wit_selection.specs.declared.selection.SelectFault.{SelectFault};
ghost use Rattle.wit_types.specs.declared.«package».UnresolvedPackage.{UnresolvedPackage};
ghost use Rattle.wit_words.specs.Sources.{total, IsLocation};

use crate::groups::{packages_of_groups, push_packages};
use crate::texts::groups_of_texts;
use indexmap::IndexMap;
use std::alloc::{AllocError, Global};
use std::marker::Model;
use wit_features::Features;
use wit_offsets::with_offset;
use wit_resolve_errors::{Graph, ResolveError};
use wit_selection::select_world;
use wit_types::{
    Arena, Interface, Package, PackageId, PackageName, Type, TypeDef, UnresolvedPackage, World,
    WorldId,
};
use wit_well_formed::{
    PackageFault, UnresolvedPackageGroup, law_moved_packages_are_well_formed,
    law_parsed_packages_are_well_formed,
};
use wit_words::{SourceMap, Span};

/// Packages that are resolved together, with the features that are active and the texts in which they stand (WIT, Packages).
pub struct Resolve {
    alloc: Global,
    features: Features,
    source_map: SourceMap,
    graph: Graph,
}

// By hand, so that what lets texts and features go is proved here alone.
impl Drop for Resolve {
    fn drop(self) {
        let Resolve {
            alloc: _,
            features: _,
            source_map: _,
            graph: _,
        } = self;
    }
}

impl Model for Resolve {
    ghost use Rattle.std.specs.Coded.{codes};
    ghost use Rattle.wit_resolve_errors.specs.Passed.wit_graph-contracts-graph-Graph as all;
    ghost use Rattle.wit_resolution.specs.Pushes.{Resolved};

    ghost Value = { Resolved };

    ghost coded = { Prim.hlevel (codes, all.the_row.coded) };

    ghost view = { λ r. record { features = r.features; texts = r.source_map; graph = r.graph } };
}

impl Resolve {
    /// No packages, no texts, and no feature is active.
    pub fn new(alloc: Global) -> Resolve
        ensures { result ≡ spec.nothing_resolved }
    {
        Resolve {
            alloc,
            features: Features::new(alloc),
            source_map: SourceMap::new(alloc),
            graph: Graph::new(alloc),
        }
    }

    /// The worlds, by their ids, each with all that it imports in the end.
    pub fn worlds(&self) -> &Arena<World>
        ensures { result.now ≡ self.now.graph.tables.worlds.elaborated }
    {
        self.graph.worlds()
    }

    /// The interfaces, by their ids.
    pub fn interfaces(&self) -> &Arena<Interface>
        ensures { result.now ≡ self.now.graph.tables.interfaces.all }
    {
        self.graph.interfaces()
    }

    /// The types, by their ids.
    pub fn types(&self) -> &Arena<TypeDef>
        ensures { result.now ≡ self.now.graph.tables.types }
    {
        self.graph.types()
    }

    /// The packages, by their ids.
    pub fn packages(&self) -> &Arena<Package>
        ensures { result.now ≡ self.now.graph.tables.packages }
    {
        self.graph.packages()
    }

    /// The packages by their names.
    pub fn package_names(&self) -> &IndexMap<PackageName, PackageId>
        ensures { result.now.entries ≡ self.now.graph.names }
    {
        self.graph.package_names()
    }

    /// The features that are active.
    pub fn features(&self) -> &Features
        ensures { result.now ≡ self.now.features }
    {
        &self.features
    }

    /// The texts, in which spans have their places.
    pub fn source_map(&self) -> &SourceMap
        ensures { result.now ≡ self.now.texts }
    {
        &self.source_map
    }

    /// Where its memory comes from.
    pub fn allocator(&self) -> Global {
        self.alloc
    }

    /// The graph of the packages.
    pub fn graph(&self) -> &Graph
        ensures { result.now ≡ self.now.graph }
    {
        &self.graph
    }

    /// Makes a feature active for what is pushed from now on. Where memory is wanting nothing changes.
    pub fn add_feature(&mut self, name: &str) -> Result<(), AllocError>
        ensures ok { OnOk result (self.new ≡ record self.old { features = record self.old.features { names = with_name self.old.features.names name.now } }) }
        ensures err { OnErr result (self.new ≡ self.old) }
    {
        self.features.add(self.alloc, name)
    }

    /// Makes all features active for what is pushed from now on, or those alone that were named.
    pub fn all_features(&mut self, all: bool)
        ensures { self.new ≡ record self.old { features = record self.old.features { all = all } } }
    {
        self.features.set_all(all);
    }

    /// Adds texts behind the others, and answers where the first of them begins: so many bytes a span of theirs has to be moved by. S8 where
    /// all of them would have more than 4,294,967,295 bytes. Where they aren't taken nothing changes.
    pub fn push_source_map(&mut self, source_map: SourceMap) -> Result<u32, ResolveError>
        ensures offset { IfOk result (λ o. o ≡ total self.old.texts) }
        ensures ok { OnOk result (self.new ≡ record self.old { texts = self.old.texts ++ source_map }) }
        ensures small { OnOk result (total self.old.texts + total source_map < 2 ^ 32) }
        ensures cause { IfErr result (IsSizeError (2 ^ 32 ≤ total self.old.texts + total source_map)) }
        ensures err { OnErr result (self.new ≡ self.old) }
    {
        Ok(self.source_map.append(source_map)?)
    }

    /// Adds a package whose texts begin there in the source map, with all of it that stays: gates are those of the features that are active
    /// now. Answers its id. Refuses it for G1, G2, G4 to G7 and G10, each with its place, and for S8 where a place would lie behind
    /// 4,294,967,295 bytes. A refused call changes nothing (WIT, Packages, Use, Feature Gates; Component Model, WIT, Worlds).
    pub fn push(
        &mut self,
        package: UnresolvedPackage,
        span_offset: u32,
    ) -> Result<PackageId, ResolveError>
        requires { IsWellFormed «package» }
        ensures ok { IfOk result (spec.IsPackagePushed ⟦<PackageName as PartialEq>⟧.eq self.old span_offset «package» self.new) }
        ensures more { OnOk result (HasMorePackages self.old.graph self.new.graph) }
        ensures cause { IfErr result (spec.IsPackageError ⟦<PackageName as PartialEq>⟧.eq self.old span_offset «package») }
        ensures err { OnErr result (self.new ≡ self.old) }
    {
        law_moved_packages_are_well_formed();
        let moved = with_offset(package, span_offset)?;
        Ok(self.graph.push(self.alloc, &self.features, moved)?)
    }

    /// Adds the packages of groups together, each behind all on which it depends, with all of them that stays; of all such orders it is the
    /// least, by their positions: the first group's package, those that are nested in its texts, and so on. The texts come behind the
    /// others. Answers the id of the first group's package. Refuses them for G1 to G7 and G10, each with its place, and for S8. A refused
    /// call leaves the graph as it was; their texts are there, but where it is refused for S8 or want of memory: then maybe some
    /// (WIT, Packages).
    fn push_all(&mut self, groups: Vec<UnresolvedPackageGroup>) -> Result<PackageId, ResolveError>
        requires some { 0 < length groups.items }
        requires whole { (g : UnresolvedPackageGroup) → Has groups.items g → (p : UnresolvedPackage) → Has (packages_of g) p → IsWellFormed p }
        ensures ok { IfOk result (spec.AreGroupsPushed ⟦<PackageName as PartialEq>⟧.eq self.old groups.items self.new) }
        ensures more { OnOk result (HasMorePackages self.old.graph self.new.graph) }
        ensures cause { IfErr result (spec.IsGroupsError ⟦<PackageName as PartialEq>⟧.eq self.old groups.items) }
        ensures err { OnErr result (spec.AreGroupsRefused ⟦<PackageName as PartialEq>⟧.eq self.old groups.items self.new) }
        ensures texts { IfErr result (λ kind. spec.AreGroupTextsKept self.old groups.items kind self.new) }
    {
        law_moved_packages_are_well_formed();
        let packages = packages_of_groups(self.alloc, &mut self.source_map, groups)?;
        push_packages(&mut self.graph, self.alloc, &self.features, packages)
    }

    /// Adds the packages of a group together with those of others, each behind all on which it depends, with all of them that stays; of all
    /// such orders it is the least, by their positions: the group's package, those that are nested in its texts, and so on for the others.
    /// The texts come behind those that are there. Answers the id of the group's package. Refuses them for G1 to G7 and G10, each with its
    /// place, and for S8. A refused call leaves the graph as it was; their texts are there, but where it is refused for S8 or want of
    /// memory: then maybe some (WIT, Packages).
    pub fn push_groups(
        &mut self,
        main: UnresolvedPackageGroup,
        deps: Vec<UnresolvedPackageGroup>,
    ) -> Result<PackageId, ResolveError>
        requires main { (p : UnresolvedPackage) → Has (packages_of main) p → IsWellFormed p }
        requires deps { (g : UnresolvedPackageGroup) → Has deps.items g → (p : UnresolvedPackage) → Has (packages_of g) p → IsWellFormed p }
        ensures ok { IfOk result (spec.AreGroupsPushed ⟦<PackageName as PartialEq>⟧.eq self.old (main ∷ deps.items) self.new) }
        ensures more { OnOk result (HasMorePackages self.old.graph self.new.graph) }
        ensures cause { IfErr result (spec.IsGroupsError ⟦<PackageName as PartialEq>⟧.eq self.old (main ∷ deps.items)) }
        ensures err { OnErr result (spec.AreGroupsRefused ⟦<PackageName as PartialEq>⟧.eq self.old (main ∷ deps.items) self.new) }
        ensures texts { IfErr result (λ kind. spec.AreGroupTextsKept self.old (main ∷ deps.items) kind self.new) }
    {
        let mut deps = deps;
        let mut groups = Vec::new(self.alloc);
        groups.push(main)?;
        groups.append(&mut deps)?;
        self.push_all(groups)
    }

    /// Adds the packages of a group, as `push_groups` does without others.
    pub fn push_group(&mut self, group: UnresolvedPackageGroup) -> Result<PackageId, ResolveError>
        requires { (p : UnresolvedPackage) → Has (packages_of group) p → IsWellFormed p }
        ensures ok { IfOk result (spec.AreGroupsPushed ⟦<PackageName as PartialEq>⟧.eq self.old (group ∷ []) self.new) }
        ensures more { OnOk result (HasMorePackages self.old.graph self.new.graph) }
        ensures cause { IfErr result (spec.IsGroupsError ⟦<PackageName as PartialEq>⟧.eq self.old (group ∷ [])) }
        ensures err { OnErr result (spec.AreGroupsRefused ⟦<PackageName as PartialEq>⟧.eq self.old (group ∷ []) self.new) }
        ensures texts { IfErr result (λ kind. spec.AreGroupTextsKept self.old (group ∷ []) kind self.new) }
    {
        self.push_groups(group, Vec::new(self.alloc))
    }

    /// Adds texts that aren't taken, and answers why they aren't; or none, where they can't be added, and why.
    fn refused(&mut self, texts: SourceMap, fault: PackageFault) -> ResolveError
        ensures { (IsOfTexts (total self.old.texts) fault result × (self.new ≡ record self.old { texts = self.old.texts ++ texts })) ⊎ (IsSizeError (2 ^ 32 ≤ total self.old.texts + total texts) result × (self.new ≡ self.old)) }
    {
        match self.source_map.append(texts) {
            Ok(offset) => ResolveError::of_texts(fault, offset),
            Err(fault) => ResolveError::from(fault),
        }
    }

    /// Adds the packages of texts, which come behind the others: of the texts that are the files of a package, and of each of the others,
    /// with those that are nested in them, as `push_groups` does. Answers the id of the first. Refuses a text that isn't read (S1 to S8),
    /// files that break a rule (P1 to P11), and what `push_groups` refuses. A refused call leaves the graph as it was; texts are there:
    /// those of the package up to the text that isn't read, all of the package that breaks a rule, or all. Where it is refused for
    /// S8 or want of memory, maybe some are (WIT, Packages).
    pub fn push_texts(
        &mut self,
        main: &[(&str, &str)],
        deps: &[(&str, &str)],
    ) -> Result<PackageId, ResolveError>
        ensures ok { IfOk result (spec.AreTextsPushed ⟦<PackageName as PartialEq>⟧.eq self.old (files_of (texts main.now) (texts deps.now)) self.new) }
        ensures more { OnOk result (HasMorePackages self.old.graph self.new.graph) }
        ensures cause { IfErr result (spec.AreTextsError ⟦<PackageName as PartialEq>⟧.eq self.old (files_of (texts main.now) (texts deps.now))) }
        ensures err { OnErr result (spec.AreTextsRefused ⟦<PackageName as PartialEq>⟧.eq self.old (files_of (texts main.now) (texts deps.now)) self.new) }
        ensures texts { IfErr result (λ kind. spec.AreTextsKept self.old (files_of (texts main.now) (texts deps.now)) kind self.new) }
    {
        law_parsed_packages_are_well_formed();
        match groups_of_texts(self.alloc, main, deps) {
            Ok(groups) => self.push_all(groups),
            Err((texts, fault)) => Err(self.refused(texts, fault)),
        }
    }

    /// Adds the packages of a text, as `push_texts` of this text alone.
    pub fn push_source(&mut self, path: &str, contents: &str) -> Result<PackageId, ResolveError>
        ensures ok { IfOk result (spec.AreTextsPushed ⟦<PackageName as PartialEq>⟧.eq self.old (files_of (record { path = path.now; contents = contents.now } ∷ []) []) self.new) }
        ensures more { OnOk result (HasMorePackages self.old.graph self.new.graph) }
        ensures cause { IfErr result (spec.AreTextsError ⟦<PackageName as PartialEq>⟧.eq self.old (files_of (record { path = path.now; contents = contents.now } ∷ []) [])) }
        ensures err { OnErr result (spec.AreTextsRefused ⟦<PackageName as PartialEq>⟧.eq self.old (files_of (record { path = path.now; contents = contents.now } ∷ []) []) self.new) }
        ensures texts { IfErr result (λ kind. spec.AreTextsKept self.old (files_of (record { path = path.now; contents = contents.now } ∷ []) []) kind self.new) }
    {
        self.push_texts([(path, contents)].as_slice(), [].as_slice())
    }

    /// The world that is chosen by a name, where there are such main packages. A plain name is one of the only main package; a path is of
    /// the package that it names, one without a version also of the only version of it that there is. Without a name it is the only world
    /// of the only main package. G8 where that is no single world (WIT, Package Names).
    pub fn select_world(
        &self,
        main: &[PackageId],
        name: Option<&str>,
    ) -> Result<WorldId, ResolveError>
        ensures ok { IfOk result (IsSelected self.now.graph.tables.packages main.now (option_map (λ t. t.now) name.entry)) }
        ensures cause { IfErr result (λ e. (fault : SelectFault) × IsSelectCause self.now.graph.tables.packages main.now (option_map (λ t. t.now) name.entry) fault × (e ≡ of_selection fault)) }
    {
        Ok(select_world(self.alloc, self.graph.packages(), main, name)?)
    }

    /// Adds to what a world imports all on which that and its exports depend. This is so of each world from its push on, so nothing changes
    /// (Component Model, WIT, Worlds).
    pub fn elaborate(&mut self, id: WorldId)
        requires { id < length self.old.graph.tables.worlds.elaborated }
        ensures same { self.new ≡ self.old }
        ensures elaborated { IsElaborated self.old.graph.tables id }
    {
        self.graph.law_is_graph();
        let _ = id;
    }

    /// Does nothing: all that is there holds together, as the type says of each value.
    pub fn assert_valid(&self)
        ensures { IsGraph self.now.graph }
    {
        self.graph.law_is_graph();
    }

    /// Whether any bits in as much memory as a value of a type takes are one, as far as bits go: of integers, floating-point numbers and
    /// handles, and of records, tuples, lists of fixed length and other names of what is so (Canonical ABI, Loading).
    pub fn all_bits_valid(&self, ty: &Type) -> bool
        ensures value { result ≡ (ref_nature (natures self.now.graph.tables.types) ty.now).all_bits_valid }
        ensures tree { (owners : Owners) (v : Tree) → value_tree (trees owners resource_leaf self.now.graph.tables.types) ty.now ≡ Some v → result ≡ all_bits_valid v }
    {
        self.graph.all_bits_valid(ty)
    }

    /// The packages of which a package names an interface: in a `use`, or as an import or export of a world, also by what it depends on.
    /// Each once, by rising ids; itself is none of them. Fails for want of memory alone (WIT, Packages).
    pub fn package_direct_deps(&self, id: PackageId) -> Result<Vec<PackageId>, AllocError>
        requires { id < length self.now.graph.tables.packages }
        ensures { IfOk result (λ deps. ArePackageDeps self.now.graph.tables id deps.items) }
    {
        self.graph.package_direct_deps(self.alloc, id)
    }

    /// All packages, each behind those of which it names an interface. Fails for want of memory alone (WIT, Packages).
    pub fn topological_packages(&self) -> Result<Vec<PackageId>, AllocError>
        ensures { IfOk result (λ order. ArePackagesInOrder self.now.graph.tables order.items) }
    {
        self.graph.topological_packages(self.alloc)
    }

    /// Where a span begins, as `PATH:LINE:COLUMN`, both from 1, the column in characters: in the first text in which all of the span lies. A
    /// span that lies in none has no place, which is `?`. Fails for want of memory alone.
    pub fn render_location(&self, span: Span) -> Result<String, AllocError>
        ensures { IfOk result (λ place. IsLocation self.now.texts span (string_bytes place)) }
    {
        self.source_map.render_location(span)
    }

    /// A refusal as a line: its place, as `render_location` says, and what it is, as in `a.wit:2:5: G2 ItemNotFound`. One without a place
    /// is its own text. Fails for want of memory alone.
    pub fn render_error(&self, error: &ResolveError) -> Result<String, AllocError>
        ensures { IfOk result (λ line. IsErrorLine self.now.texts error.now (string_bytes line)) }
    {
        error.render(self.alloc, &self.source_map)
    }
}
