//! Rows that hand a session its input; they are answered where they are refused.

ghost use Rattle.std.specs.Prelude.{◌<◌, length, IfSome};
ghost use Rattle.component_linker.specs.Passed.component_session-Input.{worlds_of};

use crate::refusals::{write_fault, write_unresolved};
use component_linker::{
    Fault, Instance, LibraryInfo, MainOrAdapter, PackageId, Session, StringEncoding, WorldId,
};
use row_pages::{Page, RowFault, UNREADABLE, bytes_of, readable, unescaped};
use std::alloc::{AllocError, Global};

/// An option that is on or off.
#[derive(Clone, Copy)]
pub enum Setting {
    MergeImports,
    CanonicalNames,
    RejectLegacyNames,
    ShimReturnCallRef,
    DebugNames,
    Validate,
}

/// What a session is handed.
#[derive(Drop)]
pub enum Setup<'t> {
    /// A text, which is a package by itself.
    Text(String),
    /// The name of the world to choose, where the main package is the first that was pushed.
    World(&'t str),
    /// The main module, for the chosen world or else for the first of all.
    Main(Vec<u8>),
    /// An adapter's name and bytes, for the same world.
    Adapter(&'t str, Vec<u8>),
    /// A library's name, the adapter or library that its one argument names, and its bytes.
    Library(&'t str, &'t str, Vec<u8>),
    Option(Setting, bool),
}

/// What texts are called, in their order.
const PATHS: &[&str] = &[
    "a.wit", "b.wit", "c.wit", "d.wit", "e.wit", "f.wit", "g.wit", "h.wit",
];

/// What each text behind those is called.
const LATER: &str = "later.wit";

/// The texts that a session was handed.
#[derive(Drop)]
pub struct Texts {
    /// How many there are, with those that were refused.
    count: usize,
    /// The package of the first that wasn't.
    main: Option<PackageId>,
}

impl Texts {
    /// None.
    pub fn new() -> Texts {
        Texts {
            count: 0,
            main: None,
        }
    }

    /// The path of the next one.
    fn next_path(&self) -> &'static str {
        match PATHS.get(self.count) {
            Some(path) => path,
            None => LATER,
        }
    }

    /// Counts one more, whose package is there unless it was refused.
    fn add(&mut self, package: Option<PackageId>) {
        self.count = self.count.saturating_add(1);
        self.main = self.main.or(package);
    }
}

/// The option of this name.
fn setting_named(name: &str) -> Option<Setting> {
    match name {
        "merge_imports_based_on_semver" => Some(Setting::MergeImports),
        "emit_canonical_names" => Some(Setting::CanonicalNames),
        "reject_legacy_names" => Some(Setting::RejectLegacyNames),
        "shim_return_call_ref" => Some(Setting::ShimReturnCallRef),
        "debug_names" => Some(Setting::DebugNames),
        "validate" => Some(Setting::Validate),
        _ => None,
    }
}

/// An option's name, and whether it is on.
fn option_of<'t>(words: &str) -> Option<Setup<'t>> {
    let (name, value) = words.split_once(' ')?;
    let on = match value {
        "on" => true,
        "off" => false,
        _ => return None,
    };
    Some(Setup::Option(setting_named(name)?, on))
}

/// The adapter that the words spell.
fn adapter_of<'t>(alloc: Global, words: &'t str) -> Result<Setup<'t>, RowFault> {
    let (name, digits) = readable(words.split_once(' '))?;
    Ok(Setup::Adapter(name, bytes_of(alloc, digits)?))
}

/// The library that the words spell.
fn library_of<'t>(alloc: Global, words: &'t str) -> Result<Setup<'t>, RowFault> {
    let (name, rest) = readable(words.split_once(' '))?;
    let (other, digits) = readable(rest.split_once(' '))?;
    Ok(Setup::Library(name, other, bytes_of(alloc, digits)?))
}

/// The row of this first word, with the rest of its line.
pub fn setup_of<'t>(alloc: Global, word: &str, rest: &'t str) -> Result<Setup<'t>, RowFault> {
    match word {
        "text" => Ok(Setup::Text(unescaped(alloc, rest)?)),
        "main" => Ok(Setup::Main(bytes_of(alloc, rest)?)),
        "adapter" => adapter_of(alloc, rest),
        "library" => library_of(alloc, rest),
        "option" => readable(option_of(rest)),
        _ => Ok(Setup::World(rest)),
    }
}

/// Pushes a text, under the next path, and counts it unless memory was refused.
fn push(session: &mut Session, texts: &mut Texts, text: &str, page: &mut Page) {
    match session.push_source(texts.next_path(), text) {
        Ok(id) => texts.add(Some(id)),
        Err(error) => {
            write_unresolved(page, session, &error);
            if !page.is_refused() {
                texts.add(None);
            }
        }
    }
}

/// Chooses the world of this name of the main package, if there is one.
fn choose(session: &mut Session, main: Option<PackageId>, name: &str, page: &mut Page) {
    let chosen = match main {
        Some(id) => session.select_world(&[id], Some(name)),
        None => session.select_world(&[], Some(name)),
    };
    if let Err(error) = chosen {
        write_unresolved(page, session, &error);
    }
}

fn set(session: &mut Session, setting: Setting, on: bool) {
    match setting {
        Setting::MergeImports => session.merge_imports_based_on_semver(on),
        Setting::CanonicalNames => session.emit_canonical_names(on),
        Setting::RejectLegacyNames => session.reject_legacy_names(on),
        Setting::ShimReturnCallRef => session.shim_return_call_ref(on),
        Setting::DebugNames => session.debug_names(on),
        Setting::Validate => session.validate(on),
    };
}

/// The line of a refusal, if there is one.
fn write_refusal(page: &mut Page, outcome: Result<(), Fault>) {
    if let Err(fault) = outcome {
        write_fault(page, &fault);
    }
}

/// The chosen world, or else the first of all, if there is one.
fn world_of(session: &Session) -> Option<WorldId>
    ensures { IfSome result (λ w. w < length (worlds_of session.now.resolved)) }
{
    let world = session.world().unwrap_or(WorldId::from_index(0));
    if world.index() >= session.resolve().worlds().len() {
        return None;
    }
    Some(world)
}

/// Hands in the main module, where there is a world for it.
fn hand_in<'r>(session: &mut Session<'r>, bytes: &'r [u8], page: &mut Page) {
    match world_of(session) {
        Some(world) => write_refusal(page, session.module(bytes, world, StringEncoding::UTF8)),
        None => page.words(UNREADABLE),
    }
}

/// Hands in an adapter, where there is a world for it.
fn hand_in_adapter<'r>(session: &mut Session<'r>, name: &str, bytes: &'r [u8], page: &mut Page) {
    match world_of(session) {
        Some(world) => {
            write_refusal(
                page,
                session.adapter(name, bytes, world, StringEncoding::UTF8),
            );
        }
        None => page.words(UNREADABLE),
    }
}

/// A library that is given the instance of another module under `env`.
fn info_of(alloc: Global, other: &str) -> Result<LibraryInfo, AllocError> {
    let mut arguments = Vec::new(alloc);
    let instance = Instance::MainOrAdapter(MainOrAdapter::Adapter(String::from_str(alloc, other)?));
    arguments.push((String::from_str(alloc, "env")?, instance))?;
    Ok(LibraryInfo { arguments })
}

/// Hands in a library, where there is a world for it.
fn hand_in_library<'r>(
    session: &mut Session<'r>,
    name: &str,
    info: LibraryInfo,
    bytes: &'r [u8],
    page: &mut Page,
) {
    match world_of(session) {
        Some(world) => {
            write_refusal(
                page,
                session.library(name, bytes, world, StringEncoding::UTF8, info),
            );
        }
        None => page.words(UNREADABLE),
    }
}

/// Hands a session what the row says, and writes the line of a refusal.
pub fn hand_over<'r>(
    alloc: Global,
    session: &mut Session<'r>,
    texts: &mut Texts,
    setup: &'r Setup<'_>,
    page: &mut Page,
) {
    match setup {
        Setup::Text(text) => push(session, texts, text, page),
        Setup::World(name) => choose(session, texts.main, name, page),
        Setup::Main(bytes) => hand_in(session, bytes, page),
        Setup::Adapter(name, bytes) => hand_in_adapter(session, name, bytes, page),
        Setup::Library(name, other, bytes) => match info_of(alloc, other) {
            Ok(info) => hand_in_library(session, name, info, bytes, page),
            Err(_) => page.refuse(),
        },
        Setup::Option(setting, on) => set(session, *setting, *on),
    }
}
