//! The command line of the component linker: its words, and what they say.
//!
//! `component_linker build|links|audit --world W [--features LIST] [--all-features] [--no-merge]
//! [--canonical] [--reject-legacy] [--return-call-ref] [--debug-names] [--validate]
//! [--encoding utf8|utf16|compact] [-o OUT] INPUT..`
//!
//! An INPUT is `text=PATH`, `dep=PATH`, `main=WORLD=PATH` or `component=PATH`. Each line has a text;
//! `audit` has one component, and the others none.
#![tactic(auto)]

mod line;

pub use line::{Action, Encoding, Input, Line, LineFault, read_line};
