//! The program `component_linker`: its words, files and streams.
#![tactic(auto)]

ghost use Rattle.std.specs.Prelude.{◌<◌};

mod sample;

use crate::sample::example;
use component_linker::{Input, Line, LineFault, read_line, run};
use std::alloc::Global;
use std::io::{ErrorKind, Write};
use std::process::ExitCode;
use std::rt::{Env, Files};
use std::{env, fs, io};

/// The file of an answer, which is made at its first write.
#[derive(Drop)]
struct OutFile<'r, R: Files> {
    rt: &'r R,
    path: &'r str,
    file: Option<R::File>,
}

impl<'r, R: Files> Write for OutFile<'r, R> {
    fn write(&mut self, bytes: &[u8]) -> io::Result<usize> {
        if self.file.is_none() {
            self.file = Some(fs::create(self.rt, self.path)?);
        }
        match &mut self.file {
            Some(file) => file.write(bytes),
            None => Ok(0),
        }
    }

    fn flush(&mut self) -> io::Result<()> {
        match &mut self.file {
            Some(file) => file.flush(),
            None => Ok(()),
        }
    }
}

/// The words behind the program's name.
fn words_of<R: Env + AllocGlobal>(rt: &R) -> io::Result<Vec<String>> {
    let mut words = Vec::new(rt.alloc());
    for word in env::args(rt)?.skip(1) {
        words.push(word)?;
    }
    Ok(words)
}

/// The path that an input names.
fn path_of(input: &Input) -> &str {
    match input {
        Input::Text(path) | Input::Dep(path) | Input::Main { path, .. } | Input::Component(path) =>
            path.as_str(),
    }
}

/// The files of the inputs that can be read, each with its path.
fn read_files<'a, R: Files + AllocGlobal>(
    rt: &R,
    inputs: &'a [Input],
) -> io::Result<Vec<(&'a str, Vec<u8>)>> {
    let mut found = Vec::new(rt.alloc());
    for input in inputs {
        let path = path_of(input);
        match fs::read(rt, path) {
            Ok(bytes) => found.push((path, bytes))?,
            Err(error) => {
                if error.kind() == ErrorKind::OutOfMemory {
                    return Err(error);
                }
            }
        }
    }
    Ok(found)
}

/// The files as the program takes them.
fn lent<'a>(
    alloc: Global,
    found: &'a [(&'a str, Vec<u8>)],
) -> io::Result<Vec<(&'a str, &'a [u8])>> {
    let mut files: Vec<(&'a str, &'a [u8])> = Vec::new(alloc);
    for (path, bytes) in found {
        files.push((*path, bytes.as_slice()))?;
    }
    Ok(files)
}

/// Runs a line that names OUT: its file is made where the answer has no bytes too.
fn run_to_file<R: Files + AllocGlobal, E: Write>(
    rt: &R,
    line: &Result<Line, LineFault>,
    files: &[(&str, &[u8])],
    path: &str,
    err: &mut E,
) -> u8
    ensures status { result < 4 }
{
    let mut out = OutFile {
        rt,
        path,
        file: None,
    };
    let status = run(rt.alloc(), line, files, &mut out, err);
    if status == 0 && out.file.is_none() && fs::create(rt, path).is_err() {
        let _ = writeln!(err, "error: file {path}");
        return 3;
    }
    status
}

/// The words, lent.
fn texts_of(alloc: Global, words: &[String]) -> io::Result<Vec<&str>> {
    let mut texts: Vec<&str> = Vec::new(alloc);
    for word in words {
        texts.push(word.as_str())?;
    }
    Ok(texts)
}

/// Does what a line asks for with these files, and answers the exit status.
fn run_on<R: Files + AllocGlobal, O: Write, E: Write>(
    rt: &R,
    line: &Result<Line, LineFault>,
    named: &Line,
    files: &[(&str, &[u8])],
    out: &mut O,
    err: &mut E,
) -> u8 {
    match &named.out {
        Some(path) => run_to_file(rt, line, files, path.as_str(), err),
        None => run(rt.alloc(), line, files, out, err),
    }
}

/// Does what a line asks for, or says what is wrong with it, and answers the exit status.
fn run_line<R: Files + AllocGlobal, O: Write, E: Write>(
    rt: &R,
    line: &Result<Line, LineFault>,
    out: &mut O,
    err: &mut E,
) -> io::Result<u8> {
    let Ok(named) = line else {
        return Ok(run(rt.alloc(), line, &[], out, err));
    };
    let found = read_files(rt, &named.inputs)?;
    let files = lent(rt.alloc(), &found)?;
    Ok(run_on(rt, line, named, &files, out, err))
}

/// Runs the program on texts, and answers the exit status.
fn run_texts<R: Files + AllocGlobal, O: Write, E: Write>(
    rt: &R,
    texts: &[&str],
    out: &mut O,
    err: &mut E,
) -> io::Result<u8> {
    let line = read_line(rt.alloc(), texts);
    run_line(rt, &line, out, err)
}

/// The same on words.
fn run_words<R: Files + AllocGlobal, O: Write, E: Write>(
    rt: &R,
    words: &[String],
    out: &mut O,
    err: &mut E,
) -> io::Result<u8> {
    let texts = texts_of(rt.alloc(), words)?;
    run_texts(rt, &texts, out, err)
}

/// Runs the example without words, and the program with some; answers the exit status.
fn start<R: Env + Files + AllocGlobal, O: Write, E: Write>(
    rt: &R,
    out: &mut O,
    err: &mut E,
) -> io::Result<u8> {
    let words = words_of(rt)?;
    if words.is_empty() {
        return Ok(example(rt.alloc(), out, err));
    }
    run_words(rt, &words, out, err)
}

fn main(rt: HostRuntime) -> ExitCode {
    let mut out = rt.stdout();
    let mut err = rt.stderr();
    let status = match start(&rt, &mut out, &mut err) {
        Ok(status) => status,
        Err(error) => {
            if error.kind() == ErrorKind::OutOfMemory {
                let _ = writeln!(err, "error: out of memory");
                1
            } else {
                let _ = writeln!(err, "error: usage");
                2
            }
        }
    };
    ExitCode::from(status)
}
