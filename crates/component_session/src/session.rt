//! A session: texts, a chosen world, modules and options.

ghost use Rattle.std.specs.Prelude.{◌≡◌, ℕ, ◌<◌, ◌∷◌, [], length, map, false, Some, IfOk, OnOk, OnErr, IfErr, MatchResult, option_map};
ghost use Rattle.component_session.specs.Refusals.{IsModuleCause, IsHandInCause};
ghost use Rattle.component_session.specs.Coming.{files_of_groups};
ghost use Rattle.text_graphs.specs.Coming as coming;
ghost use Rattle.text_graphs.specs.Coming.{ComeOfTexts};
ghost use Rattle.text_graphs.specs.Meant.{MeansItsTexts};
ghost use Rattle.text_graphs.specs.There.{AreAllThere};
ghost use Rattle.component_session.specs.Handed.{main_input, adapter_input, library_input, pairs_of};
ghost use Rattle.handed_modules.specs.Library.{argument_input};
ghost use Rattle.handed_modules.specs.Modules.{ModuleInput, IsDuplicate, NamesUnknown, has_others, with_module, module_input};
ghost use Rattle.wasm_format.specs.Grammar.{IsModule};
ghost use Rattle.wasm_format.specs.Module.{ModuleValue};
ghost use Rattle.wit_features.specs.Features.{with_name};
ghost use Rattle.text_graphs.specs.Passed.wit_package-GroupView.{texts};
ghost use Rattle.text_graphs.specs.Passed.wit_resolve_errors-Errors.{of_selection};
ghost use Rattle.text_graphs.specs.Passed.wit_resolution-Pushes as pushes;
ghost use Rattle.wit_order.specs.Order.{Has};
ghost use Rattle.text_graphs.specs.Passed.wit_resolution-Groups.{UnresolvedPackageGroup};
ghost use Rattle.text_graphs.specs.Passed.wit_resolution-Texts.{files_of, IsGroupOf};
ghost use Rattle.wit_selection.specs.Selection.{IsSelected, IsSelectCause};
ghost use Rattle.wit_selection.specs.declared.selection.SelectFault.{SelectFault};

use crate::fault::{Fault, hand_refusal, module_refusal};
use crate::options::Options;
use handed_modules::{HandedModule, HandedModules, LibraryInfo, ModuleKind, law_modules_are_kept};
use std::alloc::{AllocError, Global};
use std::collections::HashMap;
use std::marker::Model;
use text_graphs::{
    Resolve, ResolveError, UnresolvedPackageGroup, law_equal_names_are_the_same,
    law_parsed_packages_are_well_formed, law_same_names_are_equal,
    law_text_graphs_mean_their_texts, law_text_packages_are_there,
};
use wasm_format::read_module;
use wit_component::StringEncoding;
use wit_types::{PackageId, PackageName, WorldId};

/// Refuses bytes that aren't read.
fn check_module(alloc: Global, bytes: &[u8]) -> Result<(), Fault>
    ensures read { OnOk result ((m : ModuleValue) × IsModule bytes.now m) }
    ensures only { (m : ModuleValue) → IsModule bytes.now m → MatchResult result (λ _. Unit {0}) (λ e. e ≡ Fault.OutOfMemory) }
    ensures cause { IfErr result (IsModuleCause bytes.now) }
{
    if let Err(fault) = read_module(alloc, bytes) {
        return Err(module_refusal(fault));
    }
    Ok(())
}

/// Texts, a chosen world, modules and options, from which a component is built, and against which one is
/// judged. Contracts see it as its input.
pub struct Session<'a> {
    alloc: Global,
    resolve: Resolve,
    world: Option<WorldId>,
    modules: HandedModules<'a>,
    options: Options,
}

// By hand, so that what lets packages and options go is proved here alone.
impl Drop for Session<'_> {
    fn drop(self) {
        let Session {
            alloc: _,
            resolve: _,
            world: _,
            modules: _,
            options: _,
        } = self;
    }
}

impl<'a> Model for Session<'a> {
    ghost use Rattle.std.specs.Coded.{codes};
    ghost use Rattle.component_session.specs.Input.{Input};
    ghost use Rattle.component_session.specs.Kept.{WellKept};
    ghost use Rattle.text_graphs.specs.Passed.wit_resolution-contracts-resolve-Resolve as all;

    ghost Value = { Input };

    ghost coded = { Prim.hlevel (codes, all.the_row.coded) };

    ghost view = { λ s. record {
      resolved = s.resolve;
      world = s.world;
      modules = s.modules;
      options = s.options;
    } };

    ghost invariant = { λ s. WellKept ⟦<PackageName as PartialEq>⟧.eq s.resolve s.world s.modules };
}

impl<'a> Session<'a> {
    ghost use Rattle.std.specs.Option.{ForSome};
    ghost use Rattle.component_session.specs.Input.{empty_input, worlds_of};

    /// A session without texts, world and modules, with the options of `Options::new`.
    pub fn new(alloc: Global) -> Session<'a>
        ensures { result ≡ empty_input }
    {
        Session {
            alloc,
            resolve: Resolve::new(alloc),
            world: None,
            modules: HandedModules::new(alloc),
            options: Options::new(alloc),
        }
    }

    /// Where its memory comes from.
    pub(crate) fn allocator(&self) -> Global {
        self.alloc
    }

    /// The packages that were pushed, with the features that are active and all texts.
    pub fn resolve(&self) -> &Resolve
        ensures { result.now ≡ self.now.resolved }
    {
        &self.resolve
    }

    /// What holds of each session: its packages are those of the texts that were pushed, each with the features that were active then.
    pub fn law_packages_come_of_texts(&self)
        ensures { ComeOfTexts ⟦<PackageName as PartialEq>⟧.eq self.now.resolved }
    {
        let _ = &self.resolve;
    }

    /// What holds of each session, whatever pushes its packages come of (`law_packages_come_of_texts` has some): every name of them means what scope gives it over
    /// all texts that were pushed. Each package has the name that one of these says; each interface and each world is of such a package and means what the text does
    /// whose it is; what is taken of another package is what stands here under the names of that package
    /// and of its interface; a function of a resource is of that for which the resource's name stands; and all that a world imports and exports is what texts say,
    /// its own or those of worlds that it includes, by statements that stay by the features that were active when they were pushed: of the world, of the item, of the
    /// resource that a function is of, and each `include`. All packages of the texts are there under their names, also nested ones, with each interface and each world that
    /// has a name and stays by the features that were active when they were pushed, and with what of its own text stays: types and functions under their names; what
    /// a world imports and exports, under labels or, by paths, as the interfaces that have these names, with the members of an interface that stands in it; and all
    /// that the worlds bring that it includes, under names that change. Under names these packages have no other interfaces and worlds, and interfaces no other
    /// types and functions (WIT, Packages, Nested Packages, Items, Feature Gates, Use, Types).
    pub fn law_packages_mean_their_texts(&self)
        ensures { (come : ComeOfTexts ⟦<PackageName as PartialEq>⟧.eq self.now.resolved) → MeansItsTexts (coming.pushes_with ⟦<PackageName as PartialEq>⟧.eq self.now.resolved come) self.now.resolved.graph × AreAllThere (coming.pushes_with ⟦<PackageName as PartialEq>⟧.eq self.now.resolved come) self.now.resolved.graph.tables }
    {
        law_same_names_are_equal();
        law_equal_names_are_the_same();
        law_text_graphs_mean_their_texts();
        law_text_packages_are_there();
    }

    /// What holds of each session: the chosen world is there.
    pub(crate) fn law_chosen_is_there(&self)
        ensures { ForSome self.now.world (λ w. w < length (worlds_of self.now.resolved)) }
    {
        let _ = &self.resolve;
    }

    /// And so is the world of each module.
    pub(crate) fn law_module_worlds_are_there(&self)
        ensures { (m : ModuleInput) → Has self.now.modules m → m.world < length (worlds_of self.now.resolved) }
    {
        let _ = &self.resolve;
    }

    /// The chosen world.
    pub fn world(&self) -> Option<WorldId>
        ensures { result ≡ self.now.world }
    {
        self.world
    }

    /// The modules: the main module, and adapters and libraries, in the order of their first hand-in.
    pub fn modules(&self) -> &HandedModules<'a>
        ensures { result.now ≡ self.now.modules }
    {
        &self.modules
    }

    /// The options.
    pub fn options(&self) -> &Options
        ensures { result.now ≡ self.now.options }
    {
        &self.options
    }

    /// Makes a feature active for what is pushed from now on. Where memory is wanting nothing changes.
    pub fn add_feature(&mut self, name: &str) -> Result<(), AllocError>
        ensures ok { OnOk result (self.new ≡ record self.old { resolved = record self.old.resolved { features = record self.old.resolved.features { names = with_name self.old.resolved.features.names name.now } } }) }
        ensures err { OnErr result (self.new ≡ self.old) }
    {
        self.resolve.add_feature(name)
    }

    /// Makes all features active for what is pushed from now on, or those alone that were named.
    pub fn all_features(&mut self, all: bool)
        ensures { self.new ≡ record self.old { resolved = record self.old.resolved { features = record self.old.resolved.features { all = all } } } }
    {
        self.resolve.all_features(all);
    }

    /// Adds the packages of texts: of the texts that are the files of a package, and of each of the others, with those that are nested in
    /// them, each behind all on which it depends. Answers the id of the first. Refuses a text that isn't read (S1 to S8), files that break
    /// a rule (P1 to P11), and packages that don't come together (G1 to G7, G10), each with its place. A refused call leaves the packages
    /// as they were; texts are there: those of the package up to the text that isn't read, all of the package that breaks a rule, or
    /// all, but where it is refused for S8 or want of memory: then maybe some (WIT, Packages).
    pub fn push_texts(
        &mut self,
        main: &[(&str, &str)],
        deps: &[(&str, &str)],
    ) -> Result<PackageId, ResolveError>
        ensures ok { IfOk result (pushes.AreTextsPushed ⟦<PackageName as PartialEq>⟧.eq self.old.resolved (files_of (texts main.now) (texts deps.now)) self.new.resolved) }
        ensures more { OnOk result (pushes.HasMorePackages self.old.resolved.graph self.new.resolved.graph) }
        ensures cause { IfErr result (pushes.AreTextsError ⟦<PackageName as PartialEq>⟧.eq self.old.resolved (files_of (texts main.now) (texts deps.now))) }
        ensures err { OnErr result (pushes.AreTextsRefused ⟦<PackageName as PartialEq>⟧.eq self.old.resolved (files_of (texts main.now) (texts deps.now)) self.new.resolved) }
        ensures texts { IfErr result (λ kind. pushes.AreTextsKept self.old.resolved (files_of (texts main.now) (texts deps.now)) kind self.new.resolved) }
        ensures rest { self.new ≡ record self.old { resolved = self.new.resolved } }
    {
        self.resolve.push_texts(main, deps)
    }

    /// Adds the packages of a text, as `push_texts` of this text alone.
    pub fn push_source(&mut self, path: &str, contents: &str) -> Result<PackageId, ResolveError>
        ensures ok { IfOk result (pushes.AreTextsPushed ⟦<PackageName as PartialEq>⟧.eq self.old.resolved (files_of (record { path = path.now; contents = contents.now } ∷ []) []) self.new.resolved) }
        ensures more { OnOk result (pushes.HasMorePackages self.old.resolved.graph self.new.resolved.graph) }
        ensures cause { IfErr result (pushes.AreTextsError ⟦<PackageName as PartialEq>⟧.eq self.old.resolved (files_of (record { path = path.now; contents = contents.now } ∷ []) [])) }
        ensures err { OnErr result (pushes.AreTextsRefused ⟦<PackageName as PartialEq>⟧.eq self.old.resolved (files_of (record { path = path.now; contents = contents.now } ∷ []) []) self.new.resolved) }
        ensures texts { IfErr result (λ kind. pushes.AreTextsKept self.old.resolved (files_of (record { path = path.now; contents = contents.now } ∷ []) []) kind self.new.resolved) }
        ensures rest { self.new ≡ record self.old { resolved = self.new.resolved } }
    {
        self.push_texts([(path, contents)].as_slice(), [].as_slice())
    }

    /// Adds the packages of groups, each of which was read from its texts, as `push_texts` does of texts.
    pub fn push_groups(
        &mut self,
        main: UnresolvedPackageGroup,
        deps: Vec<UnresolvedPackageGroup>,
    ) -> Result<PackageId, ResolveError>
        requires main { IsGroupOf main.source_map main }
        requires deps { (g : UnresolvedPackageGroup) → Has deps.items g → IsGroupOf g.source_map g }
        ensures ok { IfOk result (pushes.AreTextsPushed ⟦<PackageName as PartialEq>⟧.eq self.old.resolved (files_of_groups (main ∷ deps.items)) self.new.resolved) }
        ensures more { OnOk result (pushes.HasMorePackages self.old.resolved.graph self.new.resolved.graph) }
        ensures cause { IfErr result (pushes.AreTextsError ⟦<PackageName as PartialEq>⟧.eq self.old.resolved (files_of_groups (main ∷ deps.items))) }
        ensures err { OnErr result (pushes.AreTextsRefused ⟦<PackageName as PartialEq>⟧.eq self.old.resolved (files_of_groups (main ∷ deps.items)) self.new.resolved) }
        ensures texts { IfErr result (λ kind. pushes.AreTextsKept self.old.resolved (files_of_groups (main ∷ deps.items)) kind self.new.resolved) }
        ensures rest { self.new ≡ record self.old { resolved = self.new.resolved } }
    {
        law_parsed_packages_are_well_formed();
        self.resolve.push_groups(main, deps)
    }

    /// Adds the packages of a group that was read from its texts, as `push_groups` does without others.
    pub fn push_group(&mut self, group: UnresolvedPackageGroup) -> Result<PackageId, ResolveError>
        requires { IsGroupOf group.source_map group }
        ensures ok { IfOk result (pushes.AreTextsPushed ⟦<PackageName as PartialEq>⟧.eq self.old.resolved (group.source_map ∷ []) self.new.resolved) }
        ensures more { OnOk result (pushes.HasMorePackages self.old.resolved.graph self.new.resolved.graph) }
        ensures cause { IfErr result (pushes.AreTextsError ⟦<PackageName as PartialEq>⟧.eq self.old.resolved (group.source_map ∷ [])) }
        ensures err { OnErr result (pushes.AreTextsRefused ⟦<PackageName as PartialEq>⟧.eq self.old.resolved (group.source_map ∷ []) self.new.resolved) }
        ensures texts { IfErr result (λ kind. pushes.AreTextsKept self.old.resolved (group.source_map ∷ []) kind self.new.resolved) }
        ensures rest { self.new ≡ record self.old { resolved = self.new.resolved } }
    {
        self.push_groups(group, Vec::new(self.alloc))
    }

    /// Chooses the world of the component, and answers it: the one that a name chooses, where there are such main packages. A plain name is
    /// one of the only main package; a path is of the package that it names, one without a version also of the only version of it that
    /// there is. Without a name it is the only world of the only main package. G8 where that is no single world (WIT, Package Names).
    pub fn select_world(
        &mut self,
        main: &[PackageId],
        name: Option<&str>,
    ) -> Result<WorldId, ResolveError>
        ensures ok { IfOk result (λ id. self.new ≡ record self.old { world = Some id }) }
        ensures selected { IfOk result (IsSelected self.old.resolved.graph.tables.packages main.now (option_map (λ t. t.now) name.entry)) }
        ensures there { IfOk result (λ id. id < length (worlds_of self.old.resolved)) }
        ensures cause { IfErr result (λ e. (fault : SelectFault) × IsSelectCause self.old.resolved.graph.tables.packages main.now (option_map (λ t. t.now) name.entry) fault × (e ≡ of_selection fault)) }
        ensures err { OnErr result (self.new ≡ self.old) }
    {
        let world = self.world_named(main, name)?;
        self.world = Some(world);
        Ok(world)
    }

    /// The world that a name chooses, as `select_world` does; the choice stays.
    pub fn world_named(
        &self,
        main: &[PackageId],
        name: Option<&str>,
    ) -> Result<WorldId, ResolveError>
        ensures selected { IfOk result (IsSelected self.now.resolved.graph.tables.packages main.now (option_map (λ t. t.now) name.entry)) }
        ensures there { IfOk result (λ id. id < length (worlds_of self.now.resolved)) }
        ensures cause { IfErr result (λ e. (fault : SelectFault) × IsSelectCause self.now.resolved.graph.tables.packages main.now (option_map (λ t. t.now) name.entry) fault × (e ≡ of_selection fault)) }
    {
        self.resolve.graph().law_is_graph();
        self.resolve.select_world(main, name)
    }

    /// Takes a module whose bytes are read.
    fn hand_in(&mut self, handed: HandedModule<'a>) -> Result<(), Fault>
        requires { handed.world < length (worlds_of self.old.resolved) }
        ensures ok { OnOk result (self.new ≡ record self.old { modules = with_module (module_input handed.entry) self.old.modules }) }
        ensures read { OnOk result ((m : ModuleValue) × IsModule handed.entry.bytes.now m) }
        ensures other { OnOk result (IsDuplicate self.old.modules (module_input handed.entry) → ⊥) }
        ensures known { OnOk result (NamesUnknown self.old.modules (module_input handed.entry) → ⊥) }
        ensures only { (m : ModuleValue) → IsModule handed.entry.bytes.now m → (IsDuplicate self.old.modules (module_input handed.entry) → ⊥) → (NamesUnknown self.old.modules (module_input handed.entry) → ⊥) → MatchResult result (λ _. Unit {0}) (λ e. e ≡ Fault.OutOfMemory) }
        ensures cause { IfErr result (IsHandInCause self.old.modules (module_input handed.entry)) }
        ensures err { OnErr result (self.new ≡ self.old) }
    {
        law_modules_are_kept();
        if let Err(fault) = check_module(self.alloc, handed.bytes) {
            return Err(fault);
        }
        match self.modules.hand_in(handed) {
            Ok(()) => Ok(()),
            Err(fault) => Err(hand_refusal(fault)),
        }
    }

    /// Hands in the main module, with the world whose exports it supplies and the encoding of its strings; one handed in before is replaced.
    ///
    /// Refuses with M1, M2 or M3 (B6) where the module reader refuses the bytes, and with B24 where another module that stays has the same. A
    /// refused call changes nothing.
    pub fn module(
        &mut self,
        bytes: &'a [u8],
        world: WorldId,
        encoding: StringEncoding,
    ) -> Result<(), Fault>
        requires { world < length (worlds_of self.old.resolved) }
        ensures ok { OnOk result (self.new ≡ record self.old { modules = with_module (main_input bytes.entry.now world encoding) self.old.modules }) }
        ensures read { OnOk result ((m : ModuleValue) × IsModule bytes.entry.now m) }
        ensures other { OnOk result (IsDuplicate self.old.modules (main_input bytes.entry.now world encoding) → ⊥) }
        ensures only { (m : ModuleValue) → IsModule bytes.entry.now m → (IsDuplicate self.old.modules (main_input bytes.entry.now world encoding) → ⊥) → MatchResult result (λ _. Unit {0}) (λ e. e ≡ Fault.OutOfMemory) }
        ensures cause { IfErr result (IsHandInCause self.old.modules (main_input bytes.entry.now world encoding)) }
        ensures single { has_others self.old.modules ≡ false → IfErr result (IsModuleCause bytes.entry.now) }
        ensures err { OnErr result (self.new ≡ self.old) }
    {
        law_modules_are_kept();
        self.hand_in(HandedModule {
            name: String::new(self.alloc),
            kind: ModuleKind::Main,
            bytes,
            world,
            encoding,
            arguments: Vec::new(self.alloc),
        })
    }

    /// Hands in an adapter, which supplies what other modules import, under its name, as `module` does. Another adapter or library of that name is
    /// replaced. Nothing is linked yet where there is one.
    pub fn adapter(
        &mut self,
        name: &str,
        bytes: &'a [u8],
        world: WorldId,
        encoding: StringEncoding,
    ) -> Result<(), Fault>
        requires { world < length (worlds_of self.old.resolved) }
        ensures ok { OnOk result (self.new ≡ record self.old { modules = with_module (adapter_input name.now bytes.entry.now world encoding) self.old.modules }) }
        ensures read { OnOk result ((m : ModuleValue) × IsModule bytes.entry.now m) }
        ensures other { OnOk result (IsDuplicate self.old.modules (adapter_input name.now bytes.entry.now world encoding) → ⊥) }
        ensures only { (m : ModuleValue) → IsModule bytes.entry.now m → (IsDuplicate self.old.modules (adapter_input name.now bytes.entry.now world encoding) → ⊥) → MatchResult result (λ _. Unit {0}) (λ e. e ≡ Fault.OutOfMemory) }
        ensures cause { IfErr result (IsHandInCause self.old.modules (adapter_input name.now bytes.entry.now world encoding)) }
        ensures err { OnErr result (self.new ≡ self.old) }
    {
        let name = String::from_str(self.alloc, name)?;
        self.hand_in(HandedModule {
            name,
            kind: ModuleKind::Adapter,
            bytes,
            world,
            encoding,
            arguments: Vec::new(self.alloc),
        })
    }

    /// Hands in a library, as `adapter` does an adapter, with the instances that it is given under the texts by which its core imports name them.
    ///
    /// Refuses with B22, too, where an argument names neither the library itself nor an adapter or library that was handed in; with B24 where both
    /// are so.
    pub fn library(
        &mut self,
        name: &str,
        bytes: &'a [u8],
        world: WorldId,
        encoding: StringEncoding,
        info: LibraryInfo,
    ) -> Result<(), Fault>
        requires { world < length (worlds_of self.old.resolved) }
        ensures ok { OnOk result (self.new ≡ record self.old { modules = with_module (library_input name.now bytes.entry.now world encoding (map argument_input info.arguments.items)) self.old.modules }) }
        ensures read { OnOk result ((m : ModuleValue) × IsModule bytes.entry.now m) }
        ensures other { OnOk result (IsDuplicate self.old.modules (library_input name.now bytes.entry.now world encoding (map argument_input info.arguments.items)) → ⊥) }
        ensures known { OnOk result (NamesUnknown self.old.modules (library_input name.now bytes.entry.now world encoding (map argument_input info.arguments.items)) → ⊥) }
        ensures only { (m : ModuleValue) → IsModule bytes.entry.now m → (IsDuplicate self.old.modules (library_input name.now bytes.entry.now world encoding (map argument_input info.arguments.items)) → ⊥) → (NamesUnknown self.old.modules (library_input name.now bytes.entry.now world encoding (map argument_input info.arguments.items)) → ⊥) → MatchResult result (λ _. Unit {0}) (λ e. e ≡ Fault.OutOfMemory) }
        ensures cause { IfErr result (IsHandInCause self.old.modules (library_input name.now bytes.entry.now world encoding (map argument_input info.arguments.items))) }
        ensures err { OnErr result (self.new ≡ self.old) }
    {
        let name = String::from_str(self.alloc, name)?;
        self.hand_in(HandedModule {
            name,
            kind: ModuleKind::Library,
            bytes,
            world,
            encoding,
            arguments: info.arguments,
        })
    }

    /// Whether imported interfaces of one version track are merged; at first they are.
    pub fn merge_imports_based_on_semver(&mut self, on: bool) -> &mut Session<'a>
        ensures same_reference { result.ghost_name ≡ self.entry.ghost_name }
        ensures value { result.now ≡ record self.old { options = record self.old.options { merge_imports_based_on_semver = on } } }
    {
        self.options.merge_imports_based_on_semver = on;
        self
    }

    /// Whether imports and exports are named by version track; at first they aren't.
    pub fn emit_canonical_names(&mut self, on: bool) -> &mut Session<'a>
        ensures same_reference { result.ghost_name ≡ self.entry.ghost_name }
        ensures value { result.now ≡ record self.old { options = record self.old.options { emit_canonical_names = on } } }
    {
        self.options.emit_canonical_names = on;
        self
    }

    /// Whether core names of the legacy mangling stand for nothing; at first they stand for their items.
    pub fn reject_legacy_names(&mut self, on: bool) -> &mut Session<'a>
        ensures same_reference { result.ghost_name ≡ self.entry.ghost_name }
        ensures value { result.now ≡ record self.old { options = record self.old.options { reject_legacy_names = on } } }
    {
        self.options.reject_legacy_names = on;
        self
    }

    /// Whether stand-ins call through references; at first they don't.
    pub fn shim_return_call_ref(&mut self, on: bool) -> &mut Session<'a>
        ensures same_reference { result.ghost_name ≡ self.entry.ghost_name }
        ensures value { result.now ≡ record self.old { options = record self.old.options { shim_return_call_ref = on } } }
    {
        self.options.shim_return_call_ref = on;
        self
    }

    /// Whether generated modules carry names; at first they don't.
    pub fn debug_names(&mut self, on: bool) -> &mut Session<'a>
        ensures same_reference { result.ghost_name ≡ self.entry.ghost_name }
        ensures value { result.now ≡ record self.old { options = record self.old.options { debug_names = on } } }
    {
        self.options.debug_names = on;
        self
    }

    /// Whether the component reader looks at the bytes before they are answered; at first it doesn't.
    pub fn validate(&mut self, on: bool) -> &mut Session<'a>
        ensures same_reference { result.ghost_name ≡ self.entry.ghost_name }
        ensures value { result.now ≡ record self.old { options = record self.old.options { validate = on } } }
    {
        self.options.validate = on;
        self
    }

    /// New names of imported instances, by their keys; at first there are none.
    pub fn import_name_map(&mut self, names: HashMap<String, String>) -> &mut Session<'a>
        ensures same_reference { result.ghost_name ≡ self.entry.ghost_name }
        ensures value { result.now ≡ record self.old { options = record self.old.options { import_name_map = pairs_of names.entries } } }
    {
        self.options.import_name_map = names;
        self
    }
}
