//! What a session links: its link table, its component, and the judgement of one.

ghost use Rattle.std.specs.Prelude.{◌≡◌, ◌<◌, true, false, length, None, Some, Err, IfOk, IfErr, IfSome, OnOk, Any, map, slice_get};
ghost use Rattle.handed_modules.specs.Modules.{module_input};
ghost use Rattle.component_session.specs.Headline as headline;
ghost use Rattle.component_session.specs.Input as inputs;
ghost use Rattle.component_session.specs.Refusals as refusals;
ghost use Rattle.link_lines.specs.Line.{link_value};
ghost use Rattle.linked_components.specs.Passed.link_table-Linking.{linking_value};
ghost use Rattle.plain_imports.specs.Imports.{IsBeyond, names_of};
ghost use Rattle.plain_worlds.specs.World.{world_fits, world_meaning};
ghost use Rattle.wasm_format.specs.Module.{module_value};
ghost use Rattle.wit_component.specs.View as view;
ghost use Rattle.text_graphs.specs.Passed.wit_resolution-Names.{known_of};
ghost use Rattle.wit_types.specs.declared.world.World.{World as WitWorld};

use crate::fault::{Fault, module_refusal};
use crate::session::Session;
use binary_grammar::ReadError;
use component_audit::{Verdict, judge};
use component_sections::read_definitions;
use core_links::CoreNames;
use export_keys::exports_all;
use handed_modules::{HandedModule, law_modules_are_kept};
use labelled_worlds::{law_exported_functions_are_apart, law_worlds_have_parts_apart};
use linked_components::{Linking as WideLinking, names_change, tracks_are_apart};
use plain_imports::imports_fit;
use plain_worlds::{World, plain_world};
use std::alloc::AllocError;
use text_graphs::{law_same_names_are_equal, law_text_graphs_are_named};
use wasm_format::{CoreModule, read_module};
use wit_component::{Link, Linking, StringEncoding, encode, links_of};
use wit_types::WorldId;

/// A main module, as its bytes are read.
#[derive(Drop)]
struct MainModule<'a> {
    bytes: &'a [u8],
    encoding: StringEncoding,
    core: CoreModule<'a>,
}

impl<'a> Session<'a> {
    /// Refuses a main module whose world doesn't export exactly what the chosen one does, by keys.
    fn check_exports(&self, world: WorldId, main: &HandedModule<'_>) -> Result<(), Fault>
        requires single { inputs.HasOthers self.now → ⊥ }
        requires chosen { self.now.world ≡ Some world }
        requires main { inputs.main_in self.now ≡ Some (module_input main.now) }
        ensures ok { OnOk result (refusals.AreExportsSupplied self.now) }
        ensures cause { IfErr result (refusals.IsInputCause self.now) }
    {
        self.law_chosen_is_there();
        self.law_module_worlds_are_there();
        law_modules_are_kept();
        let worlds = self.resolve().worlds();
        let chosen = worlds.get(world);
        let handed = worlds.get(main.world);
        if !exports_all(handed, chosen) {
            return Err(Fault::ExportUnsupplied);
        }
        if !exports_all(chosen, handed) {
            return Err(Fault::ExportNotInWorld);
        }
        Ok(())
    }

    /// The chosen world, where the main module is the only one and its world exports what the chosen one does.
    fn chosen_world(&self) -> Result<WorldId, Fault>
        ensures found { IfOk result (λ w. self.now.world ≡ Some w) }
        ensures exports { OnOk result (refusals.AreExportsSupplied self.now) }
        ensures cause { IfErr result (refusals.IsInputCause self.now) }
        ensures first { inputs.main_in self.now ≡ None → result ≡ Err Fault.NoModule }
    {
        let Some(main) = self.modules().main() else {
            return Err(Fault::NoModule);
        };
        if self.modules().has_others() {
            return Err(Fault::NotYet);
        }
        let Some(world) = self.world() else {
            return Err(Fault::NoWorld);
        };
        self.check_exports(world, main)?;
        Ok(world)
    }

    /// The main module, where it is the only one, as its bytes are read.
    fn main_module(&self) -> Result<MainModule<'a>, Fault>
        requires { inputs.HasOthers self.now → ⊥ }
        ensures found { IfOk result (λ m. inputs.IsMainModule self.now m.bytes.now m.encoding (module_value m.core)) }
        ensures cause { IfErr result (refusals.IsInputCause self.now) }
    {
        let Some(handed) = self.modules().main() else {
            return Err(Fault::NoModule);
        };
        match read_module(self.allocator(), handed.bytes) {
            Ok(core) => Ok(MainModule {
                bytes: handed.bytes,
                encoding: handed.encoding,
                core,
            }),
            Err(fault) => Err(module_refusal(fault)),
        }
    }

    /// Whether each core import of a module stands for one of the plain functions of the chosen world, or for nothing.
    fn imports_fit(
        &self,
        world: WorldId,
        plain: &World,
        core: &CoreModule,
    ) -> Result<bool, AllocError>
        requires { world < length (inputs.worlds_of self.now.resolved) }
        ensures yes { IfOk result (λ b. b ≡ true → (w : WitWorld) → slice_get (inputs.worlds_of self.now.resolved) world ≡ Some w → Any (IsBeyond (known_of self.now.resolved.graph.tables) w (names_of (world_meaning plain.now).imports)) (module_value core.now).imports → ⊥) }
        ensures no { IfOk result (λ b. b ≡ false → (w : WitWorld) × (slice_get (inputs.worlds_of self.now.resolved) world ≡ Some w) × Any (IsBeyond (known_of self.now.resolved.graph.tables) w (names_of (world_meaning plain.now).imports)) (module_value core.now).imports) }
    {
        let resolve = self.resolve();
        imports_fit(
            self.allocator(),
            &resolve.tables(),
            resolve.worlds().get(world),
            &plain.imports,
            &core.imports,
        )
    }

    /// The plain functions of the chosen world, where the main module is linked with these alone; none where it is linked with all that the
    /// world has.
    #[tactic(auto, using(crate::proofs::Linked::plain_fits))]
    fn plain_functions(
        &self,
        world: WorldId,
        main: &MainModule<'a>,
    ) -> Result<Option<World>, AllocError>
        requires chosen { self.now.world ≡ Some world }
        requires there { world < length (inputs.worlds_of self.now.resolved) }
        requires main { inputs.IsMainModule self.now main.now.bytes.now main.now.encoding (module_value main.now.core) }
        ensures plain { IfOk result (λ found. IfSome found (λ w. refusals.IsPlain self.now (world_meaning w))) }
        ensures fits { IfOk result (λ found. IfSome found (λ w. world_fits (world_meaning w) ≡ true)) }
        ensures wide { IfOk result (λ found. found ≡ None → refusals.IsWide self.now) }
    {
        let Some(plain) = plain_world(self.allocator(), self.resolve().worlds().get(world))? else {
            return Ok(None);
        };
        if self.imports_fit(world, &plain, &main.core)? {
            return Ok(Some(plain));
        }
        Ok(None)
    }

    /// What is linked, where that is plain functions alone.
    fn plain_linking<'s>(&self, plain: &'s World, main: MainModule<'a>) -> Linking<'s, 'a>
        requires plain { refusals.IsPlain self.now (world_meaning plain.now) }
        requires main { inputs.IsMainModule self.now main.bytes.now main.encoding (module_value main.core) }
        ensures { inputs.IsLinkingOf self.now (view.linking result) }
    {
        Linking {
            world: plain,
            bytes: main.bytes,
            main: main.core,
            rejects_legacy: self.options().reject_legacy_names,
        }
    }

    /// What is linked, where that is all that the chosen world has.
    fn wide_linking<'s>(
        &'s self,
        world: WorldId,
        main: &'s MainModule<'a>,
    ) -> WideLinking<'s, 's, 'a>
        requires chosen { self.now.world ≡ Some world }
        requires there { world < length (inputs.worlds_of self.now.resolved) }
        requires main { inputs.IsMainModule self.now main.now.bytes.now main.now.encoding (module_value main.now.core) }
        ensures { inputs.IsWideLinkingOf self.entry.now (linking_value result) }
    {
        let resolve = self.resolve();
        let rejects_legacy = self.options().reject_legacy_names;
        WideLinking {
            names: CoreNames {
                tables: resolve.tables(),
                world: resolve.worlds().get(world),
                rejects_legacy,
            },
            main: &main.core,
            encoding: main.encoding,
        }
    }

    /// Whether options ask for canonical names, and those of the chosen world's imports are others.
    fn names_change(&self, linking: &WideLinking<'_, '_, '_>) -> Result<bool, AllocError>
        requires linking { inputs.IsWideLinkingOf self.now (linking_value linking.now) }
        ensures yes { IfOk result (λ b. b ≡ true → refusals.ChangesNames self.now (linking_value linking.now)) }
        ensures no { IfOk result (λ b. b ≡ false → refusals.ChangesNames self.now (linking_value linking.now) → ⊥) }
    {
        self.resolve().graph().law_is_graph();
        if !self.options().emit_canonical_names {
            return Ok(false);
        }
        names_change(self.allocator(), &linking.names)
    }

    /// Whether options ask for one name for interfaces of one version track, and the chosen world imports such.
    fn tracks_meet(&self, linking: &WideLinking<'_, '_, '_>) -> Result<bool, AllocError>
        requires linking { inputs.IsWideLinkingOf self.now (linking_value linking.now) }
        ensures yes { IfOk result (λ b. b ≡ true → refusals.MergesTracks self.now (linking_value linking.now)) }
        ensures no { IfOk result (λ b. b ≡ false → refusals.MergesTracks self.now (linking_value linking.now) → ⊥) }
    {
        self.resolve().graph().law_is_graph();
        if !self.options().merge_imports_based_on_semver {
            return Ok(false);
        }
        let apart = tracks_are_apart(self.allocator(), &linking.names)?;
        Ok(!apart)
    }

    /// Refuses options that are still to come where all that the chosen world has is linked: they speak of names of interfaces.
    fn check_options(&self, linking: &WideLinking<'_, '_, '_>) -> Result<(), Fault>
        requires linking { inputs.IsWideLinkingOf self.now (linking_value linking.now) }
        requires wide { refusals.IsWide self.now }
        ensures ok { OnOk result (refusals.OptionsBeyond self.now → ⊥) }
        ensures cause { IfErr result (refusals.IsCause self.now) }
    {
        if !self.options().import_name_map.is_empty() {
            return Err(Fault::NotYet);
        }
        if self.names_change(linking)? || self.tracks_meet(linking)? {
            return Err(Fault::NotYet);
        }
        Ok(())
    }

    /// The lines of plain functions.
    fn plain_links(&self, plain: &World, main: MainModule<'a>) -> Result<Vec<Link>, Fault>
        requires exports { refusals.AreExportsSupplied self.now }
        requires plain { refusals.IsPlain self.now (world_meaning plain.now) }
        requires fits { world_fits (world_meaning plain.now) ≡ true }
        requires main { inputs.IsMainModule self.now main.bytes.now main.encoding (module_value main.core) }
        ensures links { IfOk result (λ v. headline.IsLinkTable self.now (map link_value v.items)) }
        ensures cause { IfErr result (refusals.IsCause self.now) }
    {
        let linking = self.plain_linking(plain, main);
        let links = links_of(self.allocator(), &linking)?;
        Ok(links)
    }

    /// The lines of all that the chosen world has.
    fn wide_links(&self, world: WorldId, main: &MainModule<'a>) -> Result<Vec<Link>, Fault>
        requires exports { refusals.AreExportsSupplied self.now }
        requires wide { refusals.IsWide self.now }
        requires chosen { self.now.world ≡ Some world }
        requires there { world < length (inputs.worlds_of self.now.resolved) }
        requires main { inputs.IsMainModule self.now main.now.bytes.now main.now.encoding (module_value main.now.core) }
        ensures links { IfOk result (λ v. headline.IsLinkTable self.now (map link_value v.items)) }
        ensures cause { IfErr result (refusals.IsCause self.now) }
    {
        self.resolve().graph().law_is_graph();
        let linking = self.wide_linking(world, main);
        self.check_options(&linking)?;
        let links = linked_components::links(self.allocator(), &linking)?;
        Ok(links)
    }

    /// The link table: what each core import of the main module and each exported function of the world ends at,
    /// imports first, by module text and then by name.
    ///
    /// Answers B1 before any other cause, X1, which it is where adapters or libraries were handed in too, B2, B3, B5, and B7 to B17.
    pub fn links(&self) -> Result<Vec<Link>, Fault>
        ensures links { IfOk result (λ v. headline.IsLinkTable self.now (map link_value v.items)) }
        ensures cause { IfErr result (refusals.IsCause self.now) }
        ensures first { inputs.main_in self.now ≡ None → result ≡ Err Fault.NoModule }
    {
        self.law_chosen_is_there();
        let world = self.chosen_world()?;
        let main = self.main_module()?;
        match self.plain_functions(world, &main)? {
            Some(plain) => self.plain_links(&plain, main),
            None => self.wide_links(world, &main),
        }
    }

    /// The bytes of the component of plain functions.
    fn plain_build(&self, plain: &World, main: MainModule<'a>) -> Result<Vec<u8>, Fault>
        requires exports { refusals.AreExportsSupplied self.now }
        requires plain { refusals.IsPlain self.now (world_meaning plain.now) }
        requires fits { world_fits (world_meaning plain.now) ≡ true }
        requires main { inputs.IsMainModule self.now main.bytes.now main.encoding (module_value main.core) }
        ensures right { IfOk result (λ v. headline.IsBuilt self.now v.items) }
        ensures cause { IfErr result (refusals.IsBuildCause self.now) }
    {
        let linking = self.plain_linking(plain, main);
        let bytes = encode(self.allocator(), &linking)?;
        Ok(bytes)
    }

    /// The bytes of the component of all that the chosen world has.
    fn wide_build(&self, world: WorldId, main: &MainModule<'a>) -> Result<Vec<u8>, Fault>
        requires exports { refusals.AreExportsSupplied self.now }
        requires wide { refusals.IsWide self.now }
        requires chosen { self.now.world ≡ Some world }
        requires there { world < length (inputs.worlds_of self.now.resolved) }
        requires main { inputs.IsMainModule self.now main.now.bytes.now main.now.encoding (module_value main.now.core) }
        ensures right { IfOk result (λ v. headline.IsBuilt self.now v.items) }
        ensures cause { IfErr result (refusals.IsBuildCause self.now) }
    {
        self.law_packages_come_of_texts();
        law_same_names_are_equal();
        law_text_graphs_are_named();
        law_worlds_have_parts_apart();
        law_exported_functions_are_apart();
        let linking = self.wide_linking(world, main);
        self.check_options(&linking)?;
        let bytes = linked_components::build(self.allocator(), &linking, world, main.bytes)?;
        Ok(bytes)
    }

    /// The bytes of the component, before anything looks at them.
    fn built(&self) -> Result<Vec<u8>, Fault>
        ensures right { IfOk result (λ v. headline.IsBuilt self.now v.items) }
        ensures cause { IfErr result (refusals.IsBuildCause self.now) }
        ensures first { inputs.main_in self.now ≡ None → result ≡ Err Fault.NoModule }
    {
        self.law_chosen_is_there();
        let world = self.chosen_world()?;
        let main = self.main_module()?;
        match self.plain_functions(world, &main)? {
            Some(plain) => self.plain_build(&plain, main),
            None => self.wide_build(world, &main),
        }
    }

    /// The bytes of the component that joins the main module with the chosen world.
    ///
    /// Answers B1 before any other cause, X1, B2, B3, B5, B7 to B17, and B25 where none of the others holds.
    pub fn build(&self) -> Result<Vec<u8>, Fault>
        ensures right { IfOk result (λ v. headline.IsBuilt self.now v.items) }
        ensures cause { IfErr result (refusals.IsBuildCause self.now) }
        ensures first { inputs.main_in self.now ≡ None → result ≡ Err Fault.NoModule }
    {
        let bytes = self.built()?;
        if self.options().validate {
            self.validated(&bytes)?;
        }
        Ok(bytes)
    }

    /// Reads bytes that were written; what is read changes no answer.
    fn validated(&self, bytes: &[u8]) -> Result<(), Fault>
        ensures { IfErr result (λ e. e ≡ Fault.OutOfMemory) }
    {
        match read_definitions(self.allocator(), bytes) {
            Err(ReadError::Memory) => Err(Fault::OutOfMemory),
            Ok(_) | Err(_) => Ok(()),
        }
    }

    /// Judges bytes against plain functions.
    fn plain_judgement(
        &self,
        plain: &World,
        main: MainModule<'a>,
        bytes: &[u8],
    ) -> Result<Verdict, Fault>
        requires exports { refusals.AreExportsSupplied self.now }
        requires plain { refusals.IsPlain self.now (world_meaning plain.now) }
        requires fits { world_fits (world_meaning plain.now) ≡ true }
        requires main { inputs.IsMainModule self.now main.bytes.now main.encoding (module_value main.core) }
        ensures verdict { IfOk result (headline.IsJudged self.now bytes.now) }
        ensures cause { IfErr result (refusals.IsAuditCause self.now bytes.now) }
    {
        let linking = self.plain_linking(plain, main);
        let verdict = judge(self.allocator(), &linking, bytes)?;
        Ok(verdict)
    }

    /// Judges bytes against the input.
    pub(crate) fn audit(&self, bytes: &[u8]) -> Result<Verdict, Fault>
        ensures verdict { IfOk result (headline.IsJudged self.now bytes.now) }
        ensures cause { IfErr result (refusals.IsAuditCause self.now bytes.now) }
        ensures first { inputs.main_in self.now ≡ None → result ≡ Err Fault.NoModule }
    {
        self.law_chosen_is_there();
        let world = self.chosen_world()?;
        let main = self.main_module()?;
        match self.plain_functions(world, &main)? {
            Some(plain) => self.plain_judgement(&plain, main, bytes),
            None => Err(Fault::NotYet),
        }
    }
}

/// Judges any bytes against a session's input, whatever order, numbering or spare definitions they use.
///
/// Answers yes exactly where they are right for the input, and else a finding: a condition that fails of them, and
/// where, counted in bytes from the start, or their length where something is absent.
///
/// Answers X1 where the input links more than plain functions, where the bytes have a definition that isn't judged yet, or a core module that
/// wasn't handed in, and refuses as `Session::links` does.
pub fn audit(session: &Session, bytes: &[u8]) -> Result<Verdict, Fault>
    ensures verdict { IfOk result (headline.IsJudged session.now bytes.now) }
    ensures cause { IfErr result (refusals.IsAuditCause session.now bytes.now) }
    ensures first { inputs.main_in session.now ≡ None → result ≡ Err Fault.NoModule }
{
    session.audit(bytes)
}
