//! The words of the program's command line.

ghost use Rattle.std.specs.Prelude.{◌≡◌, ◌≢◌, ◌++◌, ◌∷◌, false, codes, map, filter, length, IfOk, IfErr, IfSome, IfNone, MatchOption, option_map, string_bytes, Some};
ghost use Rattle.clap.specs.Words.{new_app, rule_of, app_of, rows_of, found_of, first_of, all_of, matches_of};
ghost use Rattle.command_line.specs.declared.line.LineFault.TheVariants.{OutOfMemory};
ghost use Rattle.command_line.specs.Line.{action_rule, world_rule, option_rule, flag_rule, out_rule, input_rule, unnamed, with_rules, choice_rules, reading_rules, writing_rules, line_app, action_named, encoding_named, encoding_text, features_named, is_given, HasNoEquals, IsInput, AreInputs, HasFields, IsLine, IsTaken, IsClapCause, IsLineCause, IsUsageCause, is_text, is_component, components_of};

use clap::error::ErrorKind;
use clap::{Arg, ArgAction, ArgMatches, Command};
use std::alloc::{AllocError, AllocFailed, Global};
use thiserror::Error;

/// What the program is asked to do.
#[derive(Clone, Copy, Debug, PartialEq, Eq)]
pub enum Action {
    /// To write the component.
    Build,
    /// To write the link table.
    Links,
    /// To judge a component.
    Audit,
}

/// How the modules' strings are encoded.
#[derive(Clone, Copy, Debug, PartialEq, Eq)]
pub enum Encoding {
    /// UTF-8, which holds where the line names no encoding.
    Utf8,
    /// UTF-16.
    Utf16,
    /// Latin-1 or UTF-16, by the string.
    Compact,
}

/// A file that the line names.
#[derive(Debug, Drop)]
pub enum Input {
    /// A text of the main package, by its path.
    Text(String),
    /// A text of another package, by its path.
    Dep(String),
    /// The main module, by the text of its world, which is empty for the chosen one, and its path.
    Main { world: String, path: String },
    /// The component to judge, by its path.
    Component(String),
}

/// A command line.
#[derive(Debug, Drop)]
pub struct Line {
    pub action: Action,
    /// The text of the chosen world.
    pub world: String,
    /// The features that are active: the parts of the list, in its order, or none.
    pub features: Vec<String>,
    /// Whether all features are active.
    pub all_features: bool,
    /// Whether imported interfaces of one version track are kept apart.
    pub no_merge: bool,
    /// Whether imports and exports are named by their version track.
    pub canonical: bool,
    /// Whether core names of the legacy mangling stand for nothing.
    pub reject_legacy: bool,
    /// Whether stand-ins call through references.
    pub return_call_ref: bool,
    /// Whether generated modules carry names.
    pub debug_names: bool,
    /// Whether the component is read before it is answered.
    pub validate: bool,
    /// The encoding of the modules' strings.
    pub encoding: Encoding,
    /// Where the answer goes; `None` is standard output.
    pub out: Option<String>,
    /// The files, in the order of the line.
    pub inputs: Vec<Input>,
}

/// Why words are no command line.
#[derive(Debug, Drop, Error)]
pub enum LineFault {
    /// The words don't fit the options and positionals, or ask for help; with the text for the user.
    #[error("{0}")]
    Clap(String),
    /// The action, the encoding or an input is none, or the inputs don't fit the action.
    #[error("usage")]
    Usage,
    /// A request for memory was refused.
    #[error("out of memory")]
    OutOfMemory,
}

impl From<AllocError> for LineFault {
    ghost use Rattle.command_line.specs.declared.line.LineFault.TheVariants.{OutOfMemory};

    ghost from_gives = { λ _ e. e ≡ OutOfMemory };

    fn from(_e: AllocError) -> LineFault {
        LineFault::OutOfMemory
    }
}

impl<T: Drop> From<AllocFailed<T>> for LineFault {
    ghost use Rattle.command_line.specs.declared.line.LineFault.TheVariants.{OutOfMemory};

    ghost from_gives = { λ _ e. e ≡ OutOfMemory };

    fn from(_e: AllocFailed<T>) -> LineFault {
        LineFault::OutOfMemory
    }
}

fn action_arg<'a>(alloc: Global) -> Arg<'a>
    ensures rule { rule_of result ≡ action_rule }
    ensures local { result.global ≡ false }
{
    Arg::new(alloc, "action")
        .required(true)
        .action(ArgAction::Set)
        .help("build, links or audit")
}

fn world_arg<'a>(alloc: Global) -> Arg<'a>
    ensures rule { rule_of result ≡ world_rule }
    ensures local { result.global ≡ false }
{
    Arg::new(alloc, "world")
        .long("world")
        .required(true)
        .action(ArgAction::Set)
        .help("the world of the component")
}

/// An option with a value, by its name.
fn option_arg<'a>(alloc: Global, name: &'a str, help: &'a str) -> Arg<'a>
    ensures rule { rule_of result ≡ option_rule name.now }
    ensures local { result.global ≡ false }
{
    Arg::new(alloc, name)
        .long(name)
        .action(ArgAction::Set)
        .help(help)
}

/// A flag, by its name.
fn flag_arg<'a>(alloc: Global, name: &'a str, help: &'a str) -> Arg<'a>
    ensures rule { rule_of result ≡ flag_rule name.now }
    ensures local { result.global ≡ false }
{
    Arg::new(alloc, name)
        .long(name)
        .action(ArgAction::SetTrue)
        .help(help)
}

fn out_arg<'a>(alloc: Global) -> Arg<'a>
    ensures rule { rule_of result ≡ out_rule }
    ensures local { result.global ≡ false }
{
    Arg::new(alloc, "out")
        .short('o')
        .action(ArgAction::Set)
        .help("the file to write, in place of standard output")
}

fn input_arg<'a>(alloc: Global) -> Arg<'a>
    ensures rule { rule_of result ≡ input_rule }
    ensures local { result.global ≡ false }
{
    Arg::new(alloc, "input")
        .required(true)
        .action(ArgAction::Append)
        .help("text=PATH, dep=PATH, main=WORLD=PATH or component=PATH")
}

/// The command with the action, the world and the features.
fn choices<'a>(alloc: Global) -> Result<Command<'a>, AllocError>
    ensures { IfOk result (λ c. app_of c ≡ with_rules (unnamed (new_app (codes "component_linker"))) choice_rules) }
{
    Command::new(alloc, "component_linker")
        .no_binary_name(true)
        .arg(action_arg(alloc))?
        .arg(world_arg(alloc))?
        .arg(option_arg(
            alloc,
            "features",
            "features that are active, split at commas",
        ))?
        .arg(flag_arg(alloc, "all-features", "all features are active"))
}

/// The command, with the flags on how worlds are merged and modules are read.
fn with_reading<'a>(alloc: Global, command: Command<'a>) -> Result<Command<'a>, AllocError>
    ensures { IfOk result (λ c. app_of c ≡ with_rules (app_of command.entry) reading_rules) }
{
    command
        .arg(flag_arg(
            alloc,
            "no-merge",
            "keep imported interfaces of one version track apart",
        ))?
        .arg(flag_arg(
            alloc,
            "canonical",
            "name imports and exports by version track",
        ))?
        .arg(flag_arg(
            alloc,
            "reject-legacy",
            "core names of the legacy mangling stand for nothing",
        ))
}

/// The command, with the options on how the component is written.
fn with_writing<'a>(alloc: Global, command: Command<'a>) -> Result<Command<'a>, AllocError>
    ensures { IfOk result (λ c. app_of c ≡ with_rules (app_of command.entry) writing_rules) }
{
    command
        .arg(flag_arg(
            alloc,
            "return-call-ref",
            "stand-ins call through references",
        ))?
        .arg(flag_arg(alloc, "debug-names", "generated modules carry names"))?
        .arg(flag_arg(
            alloc,
            "validate",
            "read the component before it is answered",
        ))?
        .arg(option_arg(
            alloc,
            "encoding",
            "utf8, utf16 or compact: the encoding of the modules' strings",
        ))
}

#[tactic(auto, unfolding(crate::specs::Line::line_app))]
fn command<'a>(alloc: Global) -> Result<Command<'a>, AllocError>
    ensures { IfOk result (λ c. app_of c ≡ line_app) }
{
    with_writing(alloc, with_reading(alloc, choices(alloc)?)?)?
        .arg(out_arg(alloc))?
        .arg(input_arg(alloc))
}

fn matches<'a>(alloc: Global, words: &'a [&'a str]) -> Result<ArgMatches<'a>, LineFault>
    ensures ok { IfOk result (λ m. rows_of (found_of m) ≡ matches_of line_app (map (λ w. w.now) words.entry.now)) }
    ensures taken { IfOk result (λ _. IsTaken (map (λ w. w.now) words.entry.now)) }
    ensures err { IfErr result (IsClapCause (map (λ w. w.now) words.entry.now)) }
{
    let command = command(alloc)?;
    match command.try_get_matches_from(words) {
        Ok(matches) => Ok(matches),
        Err(error) => {
            if error.kind() == ErrorKind::OutOfMemory {
                return Err(LineFault::OutOfMemory);
            }
            Err(LineFault::Clap(format!(in alloc; "{error}")?))
        }
    }
}

/// The first value under a name.
fn value_at<'a>(found: &ArgMatches<'a>, id: &str) -> Option<&'a str>
    ensures { option_map (λ s. s.now) result ≡ first_of id.now (rows_of (found_of found.now)) }
{
    found.get_str(id)
}

/// A copy of a text that may be there.
fn owned(alloc: Global, text: Option<&str>) -> Result<Option<String>, AllocError>
    ensures { IfOk result (λ o. option_map string_bytes o ≡ option_map (λ s. s.now) text.entry) }
{
    match text {
        Some(text) => Ok(Some(String::from_str(alloc, text)?)),
        None => Ok(None),
    }
}

/// The parts before and behind the first `=`.
fn cut(text: &str) -> Option<(&str, &str)>
    ensures { MatchOption result (HasNoEquals text.now) (λ x. (text.now ≡ x.0.now ++ 61 ∷ x.1.now) × HasNoEquals x.0.now) }
{
    text.split_once('=')
}

/// The input that is a main module, from what stands behind `main=`.
fn main_of(alloc: Global, rest: &str) -> Result<Input, LineFault>
    ensures ok { IfOk result (IsInput (codes "main=" ++ rest.now)) }
    ensures err { IfErr result (IsUsageCause (IsInput (codes "main=" ++ rest.now))) }
{
    let Some((world, path)) = cut(rest) else {
        return Err(LineFault::Usage);
    };
    Ok(Input::Main {
        world: String::from_str(alloc, world)?,
        path: String::from_str(alloc, path)?,
    })
}

/// The input that a word is.
fn input_of(alloc: Global, word: &str) -> Result<Input, LineFault>
    ensures ok { IfOk result (IsInput word.now) }
    ensures err { IfErr result (IsUsageCause (IsInput word.now)) }
{
    let Some((kind, rest)) = cut(word) else {
        return Err(LineFault::Usage);
    };
    match kind {
        "text" => Ok(Input::Text(String::from_str(alloc, rest)?)),
        "dep" => Ok(Input::Dep(String::from_str(alloc, rest)?)),
        "main" => main_of(alloc, rest),
        "component" => Ok(Input::Component(String::from_str(alloc, rest)?)),
        _ => Err(LineFault::Usage),
    }
}

/// The inputs that words are, in order.
fn inputs_of(alloc: Global, words: &[&str]) -> Result<Vec<Input>, LineFault>
    ensures ok { IfOk result (λ v. AreInputs (map (λ w. w.now) words.now) v.items) }
    ensures err { IfErr result (IsUsageCause (AreInputs (map (λ w. w.now) words.now))) }
{
    let mut inputs = Vec::new(alloc);
    for word in words {
        inputs.push(input_of(alloc, word)?)?;
    }
    Ok(inputs)
}

fn action_of(text: &str) -> Option<Action>
    ensures some { IfSome result (λ a. action_named a ≡ text.now) }
    ensures none { IfNone result ((a : Action) → action_named a ≢ text.now) }
{
    match text {
        "build" => Some(Action::Build),
        "links" => Some(Action::Links),
        "audit" => Some(Action::Audit),
        _ => None,
    }
}

fn encoding_of(text: &str) -> Option<Encoding>
    ensures some { IfSome result (λ e. encoding_named e ≡ text.now) }
    ensures none { IfNone result ((e : Encoding) → encoding_named e ≢ text.now) }
{
    match text {
        "utf8" => Some(Encoding::Utf8),
        "utf16" => Some(Encoding::Utf16),
        "compact" => Some(Encoding::Compact),
        _ => None,
    }
}

/// The encoding that matches name, which is UTF-8 where they name none; `None` where what they name is no encoding.
fn encoding_at(found: &ArgMatches<'_>) -> Option<Encoding>
    ensures some { IfSome result (λ e. encoding_named e ≡ encoding_text (first_of (codes "encoding") (rows_of (found_of found.now)))) }
    ensures none { IfNone result ((e : Encoding) → encoding_named e ≢ encoding_text (first_of (codes "encoding") (rows_of (found_of found.now)))) }
{
    match value_at(found, "encoding") {
        Some(text) => encoding_of(text),
        None => Some(Encoding::Utf8),
    }
}

/// The parts of a text between its commas.
fn parts_of(alloc: Global, text: &str) -> Result<Vec<&str>, AllocError>
    ensures { IfOk result (λ v. map (λ s. s.now) v.items ≡ features_named (Some text.now)) }
{
    text.split(',').collect(alloc)
}

/// Copies of texts, in order.
fn copies(alloc: Global, texts: &[&str]) -> Result<Vec<String>, LineFault>
    ensures ok { IfOk result (λ v. map string_bytes v.items ≡ map (λ s. s.now) texts.now) }
    ensures err { IfErr result (λ e. e ≡ OutOfMemory) }
{
    let mut copies = Vec::new(alloc);
    for text in texts {
        copies.push(String::from_str(alloc, text)?)?;
    }
    Ok(copies)
}

/// The features that a list names, if it is there.
fn features_of(alloc: Global, list: Option<&str>) -> Result<Vec<String>, LineFault>
    ensures ok { IfOk result (λ v. map string_bytes v.items ≡ features_named (option_map (λ s. s.now) list.entry)) }
    ensures err { IfErr result (λ e. e ≡ OutOfMemory) }
{
    match list {
        Some(list) => copies(alloc, &parts_of(alloc, list)?),
        None => Ok(Vec::new(alloc)),
    }
}

/// Whether a flag is given.
fn flag_at(found: &ArgMatches<'_>, id: &str) -> bool
    ensures { result ≡ is_given id.now (rows_of (found_of found.now)) }
{
    found.get_one::<bool>(id).unwrap_or(false)
}

/// The values under a name.
fn values_at<'a, 'f>(found: &'f ArgMatches<'a>, id: &str) -> Option<&'f [&'a str]>
    ensures { option_map (λ s. map (λ v. v.now) s.now) result ≡ all_of id.now (rows_of (found_of found.now)) }
{
    found.get_strs(id)
}

/// The line that matches hold.
fn line_of(alloc: Global, found: &ArgMatches<'_>) -> Result<Line, LineFault>
    ensures ok { IfOk result (HasFields (rows_of (found_of found.now))) }
    ensures err { IfErr result (IsUsageCause (HasFields (rows_of (found_of found.now)))) }
{
    let Some(action) = value_at(found, "action") else {
        return Err(LineFault::Usage);
    };
    let Some(action) = action_of(action) else {
        return Err(LineFault::Usage);
    };
    let Some(world) = value_at(found, "world") else {
        return Err(LineFault::Usage);
    };
    let Some(inputs) = values_at(found, "input") else {
        return Err(LineFault::Usage);
    };
    let Some(encoding) = encoding_at(found) else {
        return Err(LineFault::Usage);
    };
    Ok(Line {
        action,
        world: String::from_str(alloc, world)?,
        features: features_of(alloc, value_at(found, "features"))?,
        all_features: flag_at(found, "all-features"),
        no_merge: flag_at(found, "no-merge"),
        canonical: flag_at(found, "canonical"),
        reject_legacy: flag_at(found, "reject-legacy"),
        return_call_ref: flag_at(found, "return-call-ref"),
        debug_names: flag_at(found, "debug-names"),
        validate: flag_at(found, "validate"),
        encoding,
        out: owned(alloc, value_at(found, "out"))?,
        inputs: inputs_of(alloc, inputs)?,
    })
}

fn texts_in(inputs: &[Input]) -> usize
    ensures { result ≡ length (filter is_text inputs.now) }
{
    inputs
        .iter()
        .filter(|input| matches!(input, Input::Text(_)))
        .count()
}

fn components_in(inputs: &[Input]) -> usize
    ensures { result ≡ length (filter is_component inputs.now) }
{
    inputs
        .iter()
        .filter(|input| matches!(input, Input::Component(_)))
        .count()
}

/// How many components an action wants.
fn wanted(action: Action) -> usize
    ensures { result ≡ components_of action }
{
    match action {
        Action::Build | Action::Links => 0,
        Action::Audit => 1,
    }
}

/// The line that the words of a command line are, without the program's name, or why they are none.
pub fn read_line<'a>(alloc: Global, words: &'a [&'a str]) -> Result<Line, LineFault>
    ensures ok { IfOk result (IsLine (map (λ w. w.now) words.entry.now)) }
    ensures err { IfErr result (IsLineCause (map (λ w. w.now) words.entry.now)) }
{
    let found = matches(alloc, words)?;
    let line = line_of(alloc, &found)?;
    if texts_in(&line.inputs) == 0 || components_in(&line.inputs) != wanted(line.action) {
        return Err(LineFault::Usage);
    }
    Ok(line)
}
