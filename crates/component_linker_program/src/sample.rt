//! The program's own example: a world that imports one function, and a module that imports it.

ghost use Rattle.std.specs.Prelude.{◌<◌};

use component_linker::{read_line, run};
use std::alloc::Global;
use std::io::Write;

/// A world that imports one function.
const TEXT: &[u8] = b"package a:b; world w { import f: func(); }";

/// A module that imports this function.
const MODULE: &[u8] = &[
    0x00, 0x61, 0x73, 0x6d, 0x01, 0x00, 0x00, 0x00, 0x01, 0x04, 0x01, 0x60, 0x00, 0x00, 0x02, 0x0b,
    0x01, 0x05, 0x24, 0x72, 0x6f, 0x6f, 0x74, 0x01, 0x66, 0x00, 0x00,
];

/// Runs the program on words and the bytes of a component, over the text and the module; answers the exit status.
fn run_over<O: Write, E: Write>(
    alloc: Global,
    words: &[&str],
    component: &[u8],
    out: &mut O,
    err: &mut E,
) -> u8
    ensures status { result < 4 }
{
    let files = [("a.wit", TEXT), ("m.wasm", MODULE), ("c.wasm", component)];
    run(alloc, &read_line(alloc, words), &files, out, err)
}

/// Writes the links of a small example and the verdict on the component that is built of it, and answers the exit status: 0, or that
/// of the first run that is refused.
pub fn example<O: Write, E: Write>(alloc: Global, out: &mut O, err: &mut E) -> u8
    ensures status { result < 4 }
{
    let links = ["links", "--world", "w", "text=a.wit", "main==m.wasm"];
    let status = run_over(alloc, &links, &[], out, err);
    if status != 0 {
        return status;
    }
    let build = ["build", "--world", "w", "text=a.wit", "main==m.wasm"];
    let mut component = Vec::new(alloc);
    let status = run_over(alloc, &build, &[], &mut component, err);
    if status != 0 {
        return status;
    }
    let audit = [
        "audit",
        "--world",
        "w",
        "text=a.wit",
        "main==m.wasm",
        "component=c.wasm",
    ];
    run_over(alloc, &audit, &component, out, err)
}
