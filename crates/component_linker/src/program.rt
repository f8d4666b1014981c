//! The program over two writers and the files that could be read.

ghost use Rattle.std.specs.Prelude.{◌≡◌, ◌<◌, ◌⊎◌, ℕ, [], false, None, Some, string_bytes, IfErr, OnErr, IfOk, OnOk, option_map};
ghost use Rattle.std.specs.List.{flat_map};
ghost use Rattle.std.specs.Io.KnownBytes.{Appends};
ghost use Rattle.component_linker.specs.Program as spec;
ghost use Rattle.component_linker.specs.Stops as stops;
ghost use Rattle.component_session.specs.Refusals.{IsCause, IsBuildCause, IsAuditCause};
ghost use Rattle.component_session.specs.GroupView.{texts};
ghost use Rattle.component_session.specs.Passed.handed_modules-Modules.{has_others};
ghost use Rattle.component_session.specs.Texts.{files_of};
ghost use Rattle.component_session.specs.Pushes.{AreTextsPushed};

use command_line::{Action, Encoding, Input, Line, LineFault};
use component_builder::{EmitFault, emit};
use component_session::{Fault, ResolveError, Session, Verdict, audit};
use std::alloc::{AllocError, AllocFailed, Global};
use std::io::Write;
use std::str;
use wit_component::{StringEncoding, lines_of};
use wit_types::{PackageId, PackageName};

/// Why the program ends without its answer.
#[derive(Drop)]
enum Stop<'a> {
    /// A call is refused.
    Refused(Fault),
    /// Packages aren't resolved, or have no such world; with the place of that in the texts of the session, if it has one.
    Unresolved(ResolveError, Option<String>),
    /// A file can't be read, is no text, or can't be written.
    File(&'a str),
    /// The inputs don't fit the action.
    Usage,
}

impl<'a> From<Fault> for Stop<'a> {
    ghost use Rattle.component_linker.specs.declared.program.Stop.TheVariants.{Refused};

    ghost from_gives = { λ fault e. e ≡ Refused fault };

    fn from(fault: Fault) -> Stop<'a> {
        Stop::Refused(fault)
    }
}

impl<'a> From<AllocError> for Stop<'a> {
    ghost use Rattle.component_linker.specs.declared.program.Stop.TheVariants.{Refused};
    ghost use Rattle.component_session.specs.declared.fault.Fault.TheVariants.{OutOfMemory};

    ghost from_gives = { λ _ e. e ≡ Refused OutOfMemory };

    fn from(_e: AllocError) -> Stop<'a> {
        Stop::Refused(Fault::OutOfMemory)
    }
}

impl<'a, T: Drop> From<AllocFailed<T>> for Stop<'a> {
    ghost use Rattle.component_linker.specs.declared.program.Stop.TheVariants.{Refused};
    ghost use Rattle.component_session.specs.declared.fault.Fault.TheVariants.{OutOfMemory};

    ghost from_gives = { λ _ e. e ≡ Refused OutOfMemory };

    fn from(_e: AllocFailed<T>) -> Stop<'a> {
        Stop::Refused(Fault::OutOfMemory)
    }
}

/// The bytes of the file at a path.
fn bytes_at<'a>(files: &'a [(&'a str, &'a [u8])], path: &'a str) -> Result<&'a [u8], Stop<'a>>
    ensures ok { IfOk result (λ b. spec.IsFile files.entry.now path.entry.now b.now) }
    ensures err { IfErr result (stops.IsFileStop (λ p. spec.missing_path path.entry.now (spec.file_at files.entry.now path.entry.now) ≡ Some p)) }
{
    for (name, bytes) in files {
        if *name == path {
            return Ok(bytes);
        }
    }
    Err(Stop::File(path))
}

/// The text of the file at a path.
fn text_at<'a>(files: &'a [(&'a str, &'a [u8])], path: &'a str) -> Result<&'a str, Stop<'a>>
    ensures ok { IfOk result (λ t. spec.IsFile files.entry.now path.entry.now t.now) }
    ensures text { IfOk result (λ _. spec.textless_path path.entry.now (spec.file_at files.entry.now path.entry.now) ≡ None) }
    ensures err { IfErr result (stops.IsFileStop (λ p. spec.textless_path path.entry.now (spec.file_at files.entry.now path.entry.now) ≡ Some p)) }
{
    let bytes = bytes_at(files, path)?;
    match str::from_utf8(bytes) {
        Ok(text) => Ok(text),
        Err(_) => Err(Stop::File(path)),
    }
}

/// Looks at the file of an input.
fn look_at<'a>(input: &'a Input, files: &'a [(&'a str, &'a [u8])]) -> Result<(), Stop<'a>>
    ensures ok { OnOk result (spec.input_fault files.entry.now input.entry.now ≡ None) }
    ensures err { IfErr result (stops.IsFileStop (λ p. spec.input_fault files.entry.now input.entry.now ≡ Some p)) }
{
    match input {
        Input::Text(path) | Input::Dep(path) => {
            text_at(files, path.as_str())?;
        }
        Input::Main { path, .. } | Input::Component(path) => {
            bytes_at(files, path.as_str())?;
        }
    }
    Ok(())
}

/// Looks at all files of the line, in order.
fn look_at_files<'a>(inputs: &'a [Input], files: &'a [(&'a str, &'a [u8])]) -> Result<(), Stop<'a>>
    ensures ok { OnOk result (spec.file_fault files.entry.now inputs.entry.now ≡ None) }
    ensures err { IfErr result (stops.IsFileStop (λ p. spec.file_fault files.entry.now inputs.entry.now ≡ Some p)) }
{
    for input in inputs {
        look_at(input, files)?;
    }
    Ok(())
}

/// The place of what isn't resolved in the texts of the session, as `a.wit:2:5`, if it has one.
fn place_of(session: &Session<'_>, error: &ResolveError) -> Result<Option<String>, AllocError>
    ensures { IfOk result (stops.IsPlaceOf session.now.resolved.texts error.now) }
{
    match error.span() {
        Some(span) => {
            let place = session.resolve().render_location(span)?;
            Ok(Some(place))
        }
        None => Ok(None),
    }
}

/// The end for packages that aren't resolved.
fn unresolved<'a>(session: &Session<'_>, error: ResolveError) -> Stop<'a>
    ensures { stops.IsResolveStop (λ e place. (e ≡ error) × stops.IsPlaceOf session.now.resolved.texts e place) result }
{
    match place_of(session, &error) {
        Ok(place) => Stop::Unresolved(error, place),
        Err(_) => Stop::Refused(Fault::OutOfMemory),
    }
}

/// The files of the main package.
fn main_texts<'a>(
    alloc: Global,
    inputs: &'a [Input],
    files: &'a [(&'a str, &'a [u8])],
) -> Result<Vec<(&'a str, &'a str)>, Stop<'a>>
    ensures ok { IfOk result (λ v. texts v.items ≡ flat_map (spec.main_text files.entry.now) inputs.entry.now) }
    ensures err { IfErr result (stops.IsTextsStop files.entry.now (λ _ _. ⊥) inputs.entry.now) }
{
    let mut found = Vec::new(alloc);
    for input in inputs {
        if let Input::Text(path) = input {
            found.push((path.as_str(), text_at(files, path.as_str())?))?;
        }
    }
    Ok(found)
}

/// The texts of the other packages.
fn dep_texts<'a>(
    alloc: Global,
    inputs: &'a [Input],
    files: &'a [(&'a str, &'a [u8])],
) -> Result<Vec<(&'a str, &'a str)>, Stop<'a>>
    ensures ok { IfOk result (λ v. texts v.items ≡ flat_map (spec.dep_text files.entry.now) inputs.entry.now) }
    ensures err { IfErr result (stops.IsTextsStop files.entry.now (λ _ _. ⊥) inputs.entry.now) }
{
    let mut found = Vec::new(alloc);
    for input in inputs {
        if let Input::Dep(path) = input {
            found.push((path.as_str(), text_at(files, path.as_str())?))?;
        }
    }
    Ok(found)
}

/// Pushes the package of some texts and packages of one text each, and answers the first.
fn take_texts<'a>(
    session: &mut Session<'a>,
    main: &[(&str, &str)],
    deps: &[(&str, &str)],
) -> Result<PackageId, Stop<'a>>
    ensures ok { IfOk result (AreTextsPushed ⟦<PackageName as PartialEq>⟧.eq session.old.resolved (files_of (texts main.now) (texts deps.now)) session.new.resolved) }
    ensures rest { OnOk result (session.new ≡ record session.old { resolved = session.new.resolved }) }
    ensures err { IfErr result (stops.IsResolveStop (stops.AreTextsNotTaken ⟦<PackageName as PartialEq>⟧.eq session.old.resolved (files_of (texts main.now) (texts deps.now)))) }
{
    match session.push_texts(main, deps) {
        Ok(id) => Ok(id),
        Err(error) => Err(unresolved(session, error)),
    }
}

/// Pushes the packages of all texts together, and answers the main one.
fn push_texts<'a>(
    alloc: Global,
    session: &mut Session<'a>,
    inputs: &'a [Input],
    files: &'a [(&'a str, &'a [u8])],
) -> Result<PackageId, Stop<'a>>
    ensures ok { IfOk result (AreTextsPushed ⟦<PackageName as PartialEq>⟧.eq session.old.resolved (spec.packages_of files.entry.now inputs.entry.now) session.new.resolved) }
    ensures rest { OnOk result (session.new ≡ record session.old { resolved = session.new.resolved }) }
    ensures err { IfErr result (stops.IsTextsStop files.entry.now (stops.AreTextsNotTaken ⟦<PackageName as PartialEq>⟧.eq session.old.resolved (spec.packages_of files.entry.now inputs.entry.now)) inputs.entry.now) }
{
    let main = main_texts(alloc, inputs, files)?;
    let deps = dep_texts(alloc, inputs, files)?;
    take_texts(session, &main, &deps)
}

/// Chooses the world of a name.
fn choose<'a>(session: &mut Session<'a>, package: PackageId, world: &str) -> Result<(), Stop<'a>>
    ensures ok { OnOk result ((w : ℕ) × (session.new ≡ record session.old { world = Some w }) × spec.Names session.old.resolved «package» world.now w) }
    ensures err { IfErr result (stops.IsResolveStop (stops.IsNameError session.old.resolved «package» world.now)) }
{
    match session.select_world([package].as_slice(), Some(world)) {
        Ok(_) => Ok(()),
        Err(error) => Err(unresolved(session, error)),
    }
}

/// A text, or the chosen one where it is empty.
fn text_or<'t>(text: &'t str, chosen: &'t str) -> &'t str
    ensures { result.now ≡ spec.text_or text.now chosen.now }
{
    if text.is_empty() { chosen } else { text }
}

fn encoding_of(encoding: Encoding) -> StringEncoding
    ensures { result ≡ spec.encoding_of encoding }
{
    match encoding {
        Encoding::Utf8 => StringEncoding::UTF8,
        Encoding::Utf16 => StringEncoding::UTF16,
        Encoding::Compact => StringEncoding::CompactUTF16,
    }
}

/// Hands in the module that an input may be; an empty world is the chosen one.
fn hand_in_one<'a>(
    session: &mut Session<'a>,
    package: PackageId,
    line: &'a Line,
    input: &'a Input,
    files: &'a [(&'a str, &'a [u8])],
) -> Result<(), Stop<'a>>
    requires { has_others session.old.modules ≡ false }
    ensures modules { OnOk result (spec.HandsIn files.entry.now session.old.resolved «package» line.entry.now input.entry.now session.old.modules session.new.modules) }
    ensures rest { OnOk result (session.new ≡ record session.old { modules = session.new.modules }) }
    ensures err { IfErr result (stops.IsInputStop files.entry.now session.old.resolved «package» (string_bytes line.entry.now.world) input.entry.now) }
{
    let Input::Main { world, path } = input else {
        return Ok(());
    };
    let name = text_or(world.as_str(), line.world.as_str());
    let world = match session.world_named([package].as_slice(), Some(name)) {
        Ok(world) => world,
        Err(error) => return Err(unresolved(session, error)),
    };
    let bytes = bytes_at(files, path.as_str())?;
    match session.module(bytes, world, encoding_of(line.encoding)) {
        Ok(()) => Ok(()),
        Err(fault) => Err(Stop::Refused(fault)),
    }
}

/// Hands in the modules in order.
fn hand_in<'a>(
    session: &mut Session<'a>,
    package: PackageId,
    line: &'a Line,
    files: &'a [(&'a str, &'a [u8])],
) -> Result<(), Stop<'a>>
    requires { session.old.modules ≡ [] }
    ensures modules { OnOk result (spec.AreModules files.entry.now session.old.resolved «package» line.entry.now (spec.last_main line.entry.now.inputs.items) session.new.modules) }
    ensures rest { OnOk result (session.new ≡ record session.old { modules = session.new.modules }) }
    ensures err { IfErr result (stops.IsHandStop files.entry.now session.old.resolved «package» (string_bytes line.entry.now.world) line.entry.now.inputs.items) }
{
    for input in &line.inputs {
        hand_in_one(session, package, line, input, files)?;
    }
    Ok(())
}

/// The bytes of the first component.
fn component_in<'a>(
    inputs: &'a [Input],
    files: &'a [(&'a str, &'a [u8])],
) -> Result<&'a [u8], Stop<'a>>
    ensures ok { IfOk result (λ b. spec.HasComponent files.entry.now inputs.entry.now b.now) }
    ensures err { IfErr result (stops.IsComponentStop files.entry.now inputs.entry.now) }
{
    for input in inputs {
        if let Input::Component(path) = input {
            return bytes_at(files, path.as_str());
        }
    }
    Err(Stop::Usage)
}

/// Writes an answer, whose fault is one of OUT.
fn put<'a, O: Write>(bytes: &[u8], line: &'a Line, out: &mut O) -> Result<(), Stop<'a>>
    ensures ok { OnOk result (Appends (O.contents out.old) (O.contents out.new) bytes.now) }
    ensures err { IfErr result (stops.IsFileStop (λ p. p ≡ stops.out_path line.entry.now)) }
    ensures part { OnErr result (stops.AppendsPart (O.contents out.old) (O.contents out.new) bytes.now) }
{
    match emit(bytes, out) {
        Ok(()) => Ok(()),
        Err(EmitFault { .. }) => match &line.out {
            Some(path) => Err(Stop::File(path.as_str())),
            None => Err(Stop::File("-")),
        },
    }
}

/// Writes the component.
fn build<'a, O: Write>(session: &Session<'a>, line: &'a Line, out: &mut O) -> Result<u8, Stop<'a>>
    ensures ok { IfOk result (λ s. spec.Writes (spec.IsComponentAnswer session.now s) (O.contents out.old) (O.contents out.new)) }
    ensures err { IfErr result (stops.IsWriteStop (IsBuildCause session.now) (stops.out_path line.entry.now) (out.new ≡ out.old) (stops.WritesPart (spec.IsComponentAnswer session.now) (O.contents out.old) (O.contents out.new))) }
{
    let bytes = session.build()?;
    put(&bytes, line, out)?;
    Ok(0)
}

/// Writes the lines of the links.
fn list<'a, O: Write>(
    alloc: Global,
    session: &Session<'a>,
    line: &'a Line,
    out: &mut O,
) -> Result<u8, Stop<'a>>
    ensures ok { IfOk result (λ s. spec.Writes (spec.IsLinksAnswer session.now s) (O.contents out.old) (O.contents out.new)) }
    ensures err { IfErr result (stops.IsWriteStop (IsCause session.now) (stops.out_path line.entry.now) (out.new ≡ out.old) (stops.WritesPart (spec.IsLinksAnswer session.now) (O.contents out.old) (O.contents out.new))) }
{
    let links = session.links()?;
    let text = lines_of(alloc, &links)?;
    put(text.as_bytes(), line, out)?;
    Ok(0)
}

fn status_of(verdict: Verdict) -> u8
    ensures { result ≡ spec.verdict_status verdict }
{
    match verdict {
        Verdict::Yes => 0,
        Verdict::Finding(_, _) => 1,
    }
}

/// Judges a component, and writes the verdict.
fn judge<'a, O: Write>(
    alloc: Global,
    session: &Session<'a>,
    component: &[u8],
    line: &'a Line,
    out: &mut O,
) -> Result<u8, Stop<'a>>
    ensures ok { IfOk result (λ s. spec.Writes (spec.IsVerdictAnswer session.now component.now s) (O.contents out.old) (O.contents out.new)) }
    ensures err { IfErr result (stops.IsWriteStop (IsAuditCause session.now component.now) (stops.out_path line.entry.now) (out.new ≡ out.old) (stops.WritesPart (spec.IsVerdictAnswer session.now component.now) (O.contents out.old) (O.contents out.new))) }
{
    let verdict = audit(session, component)?;
    let mut text = verdict.to_text(alloc)?;
    text.push('\n')?;
    put(text.as_bytes(), line, out)?;
    Ok(status_of(verdict))
}

/// Does what the line asks of a session, and answers the exit status.
fn act<'a, O: Write>(
    alloc: Global,
    session: &Session<'a>,
    line: &'a Line,
    files: &'a [(&'a str, &'a [u8])],
    out: &mut O,
) -> Result<u8, Stop<'a>>
    requires { spec.file_fault files.now line.now.inputs.items ≡ None }
    ensures ok { IfOk result (λ s. spec.Writes (spec.IsAnswer files.entry.now line.entry.now.inputs.items session.now line.entry.now.action s) (O.contents out.old) (O.contents out.new)) }
    ensures err { IfErr result (stops.IsAnswerStop files.entry.now line.entry.now session.now (out.new ≡ out.old) (O.contents out.old) (O.contents out.new)) }
{
    match line.action {
        Action::Build => build(session, line, out),
        Action::Links => list(alloc, session, line, out),
        Action::Audit => {
            let component = component_in(&line.inputs, files)?;
            judge(alloc, session, component, line, out)
        }
    }
}

/// Sets the options of a line.
fn set_options(session: &mut Session<'_>, line: &Line)
    requires { session.old.options.import_name_map ≡ [] }
    ensures { session.new ≡ record session.old { options = spec.options_of line.now } }
{
    session.merge_imports_based_on_semver(!line.no_merge);
    session.emit_canonical_names(line.canonical);
    session.reject_legacy_names(line.reject_legacy);
    session.shim_return_call_ref(line.return_call_ref);
    session.debug_names(line.debug_names);
    session.validate(line.validate);
}

/// Makes the features of a line active.
fn activate(session: &mut Session<'_>, line: &Line) -> Result<(), AllocError>
    requires { session.old.resolved.features.names ≡ [] }
    ensures { OnOk result (session.new ≡ record session.old { resolved = record session.old.resolved { features = spec.features_of line.now } }) }
{
    for feature in &line.features {
        session.add_feature(feature.as_str())?;
    }
    session.all_features(line.all_features);
    Ok(())
}

/// A session with the options and features of a line.
fn opened<'a>(alloc: Global, line: &Line) -> Result<Session<'a>, AllocError>
    ensures { IfOk result (λ s. s ≡ spec.opened line.now) }
{
    let mut session = Session::new(alloc);
    set_options(&mut session, line);
    activate(&mut session, line)?;
    Ok(session)
}

/// Chooses the world of a line, and hands in its modules.
fn complete<'a>(
    session: &mut Session<'a>,
    package: PackageId,
    line: &'a Line,
    files: &'a [(&'a str, &'a [u8])],
) -> Result<(), Stop<'a>>
    requires { session.old.modules ≡ [] }
    ensures ok { OnOk result (spec.IsCompleted files.entry.now «package» line.entry.now session.old session.new) }
    ensures err { IfErr result (stops.IsCompleteStop files.entry.now session.old.resolved «package» line.entry.now) }
{
    choose(session, package, line.world.as_str())?;
    hand_in(session, package, line, files)
}

/// Looks at the files, and hands the texts, the chosen world and the modules to a session.
fn prepare<'a>(
    alloc: Global,
    line: &'a Line,
    files: &'a [(&'a str, &'a [u8])],
) -> Result<Session<'a>, Stop<'a>>
    ensures ok { IfOk result (spec.Handed ⟦<PackageName as PartialEq>⟧.eq files.entry.now line.entry.now) }
    ensures err { IfErr result (stops.IsPrepareStop ⟦<PackageName as PartialEq>⟧.eq files.entry.now line.entry.now) }
{
    look_at_files(&line.inputs, files)?;
    let mut session = opened(alloc, line)?;
    let package = push_texts(alloc, &mut session, &line.inputs, files)?;
    complete(&mut session, package, line, files)?;
    Ok(session)
}

/// Does what the line asks, and answers the exit status.
fn perform<'a, O: Write>(
    alloc: Global,
    line: &'a Line,
    files: &'a [(&'a str, &'a [u8])],
    out: &mut O,
) -> Result<u8, Stop<'a>>
    ensures ok { IfOk result (λ s. spec.IsOutcome ⟦<PackageName as PartialEq>⟧.eq files.entry.now line.entry.now s (O.contents out.old) (O.contents out.new)) }
    ensures err { IfErr result (stops.IsStop ⟦<PackageName as PartialEq>⟧.eq files.entry.now line.entry.now (out.new ≡ out.old) (O.contents out.old) (O.contents out.new)) }
{
    let session = prepare(alloc, line, files)?;
    act(alloc, &session, line, files, out)
}

/// Writes texts in order, as far as the writer takes them.
fn write_texts<E: Write>(texts: &[&str], err: &mut E)
    ensures { stops.AppendsFront (E.contents err.old) (E.contents err.new) (flat_map (λ t. t.now) texts.now) }
{
    for text in texts {
        if emit(text.as_bytes(), err).is_err() {
            return;
        }
    }
}

/// Writes the line of a refusal that has a code.
fn report_coded<'a, E: Write>(code: &'a str, name: &'a str, place: Option<&'a str>, err: &mut E)
    ensures { stops.AppendsFront (E.contents err.old) (E.contents err.new) (stops.refusal_text (Some code.now) name.now (option_map (λ p. p.now) place.entry)) }
{
    match place {
        Some(place) => write_texts(&["error: ", code, " ", name, " at ", place, "\n"], err),
        None => write_texts(&["error: ", code, " ", name, "\n"], err),
    }
}

/// Writes the line of a refusal.
fn report_fault<E: Write>(fault: &Fault, err: &mut E)
    ensures { stops.AppendsFront (E.contents err.old) (E.contents err.new) (stops.fault_text fault.now) }
{
    match fault.code() {
        Some(code) => report_coded(code, fault.name(), fault.place(), err),
        None => write_texts(&["error: out of memory\n"], err),
    }
}

/// Writes the line of what isn't resolved.
fn report_error<E: Write>(error: &ResolveError, place: &Option<String>, err: &mut E)
    ensures { stops.AppendsFront (E.contents err.old) (E.contents err.new) (stops.error_text error.now place.now) }
{
    let kind = error.kind();
    let place = match place {
        Some(place) => Some(place.as_str()),
        None => None,
    };
    match kind.code() {
        Some(code) => report_coded(code, kind.name(), place, err),
        None => write_texts(&["error: out of memory\n"], err),
    }
}

/// Writes why the program ends, and answers the exit status.
fn report<E: Write>(stop: &Stop<'_>, err: &mut E) -> u8
    ensures status { result ≡ stops.stop_status stop.now }
    ensures text { stops.AppendsFront (E.contents err.old) (E.contents err.new) (stops.stop_text stop.now) }
{
    match stop {
        Stop::Refused(fault) => {
            report_fault(fault, err);
            1
        }
        Stop::Unresolved(error, place) => {
            report_error(error, place, err);
            1
        }
        Stop::File(path) => {
            write_texts(&["error: file ", path, "\n"], err);
            3
        }
        Stop::Usage => {
            write_texts(&["error: usage\n"], err);
            2
        }
    }
}

/// Writes why the words are no line, and answers the exit status.
fn report_line<E: Write>(fault: &LineFault, err: &mut E) -> u8
    ensures status { result ≡ spec.line_status fault.now }
    ensures text { stops.AppendsFront (E.contents err.old) (E.contents err.new) (stops.line_fault_text fault.now) }
{
    match fault {
        LineFault::Clap(text) => {
            write_texts(&[text.as_str()], err);
            2
        }
        LineFault::Usage => {
            write_texts(&["error: usage\n"], err);
            2
        }
        LineFault::OutOfMemory => {
            write_texts(&["error: out of memory\n"], err);
            1
        }
    }
}

/// Runs a command line over the files that could be read, each by its path, and answers the exit status: 0 done,
/// 1 refused, a finding or want of memory, 2 usage, 3 a file that isn't there, isn't text or can't be written.
///
/// The answer goes to `out`, whatever OUT the line names, and why there is none goes to `err`.
pub fn run<O: Write, E: Write>(
    alloc: Global,
    line: &Result<Line, LineFault>,
    files: &[(&str, &[u8])],
    out: &mut O,
    err: &mut E,
) -> u8
    ensures status { result < 4 }
    ensures done { result ≡ 0 → IfOk line.now (λ l. spec.IsOutcome ⟦<PackageName as PartialEq>⟧.eq files.now l 0 (O.contents out.old) (O.contents out.new)) }
    ensures line { IfErr line.now (λ fault. result ≡ spec.line_status fault) }
    ensures silent { OnErr line.now (out.new ≡ out.old) }
    ensures says { IfErr line.now (λ fault. stops.AppendsFront (E.contents err.old) (E.contents err.new) (stops.line_fault_text fault)) }
    ensures ends { IfOk line.now (λ l. (spec.IsOutcome ⟦<PackageName as PartialEq>⟧.eq files.now l result (O.contents out.old) (O.contents out.new) × (err.new ≡ err.old)) ⊎ stops.IsStopped ⟦<PackageName as PartialEq>⟧.eq files.now l (out.new ≡ out.old) (O.contents out.old) (O.contents out.new) result (E.contents err.old) (E.contents err.new)) }
{
    let line = match line {
        Ok(line) => line,
        Err(fault) => return report_line(fault, err),
    };
    match perform(alloc, line, files, out) {
        Ok(status) => status,
        Err(stop) => report(&stop, err),
    }
}
