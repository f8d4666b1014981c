//! Functions that stand in an export, a segment or a global.

ghost use Rattle.std.specs.Prelude.{◌≡◌, ◌==◌, ◌++◌, ◌<◌, ℕ, Some, map, flat_map, length, slice_get, OnOk, IfOk};
ghost use Rattle.std.specs.List.{list_any};
ghost use Rattle.wasm_types.specs.Entries.{export_value};
ghost use Rattle.wasm_bodies.specs.Segments.{element_value, function_value, functions_in};
ghost use Rattle.generated_modules.specs.Parts.{parts_value};
ghost use Rattle.generated_modules.specs.Shape as spec;

use crate::parts::Parts;
use std::alloc::{AllocError, Global};
use wasm_bodies::{ElementSegment, FunctionIndex};
use wasm_types::{Export, ExportKind};

fn push_functions(out: &mut Vec<u32>, functions: &[FunctionIndex]) -> Result<(), AllocError>
    ensures { OnOk result (out.new.items ≡ out.old.items ++ map function_value functions.now) }
{
    for function in functions {
        out.push(function.0)?;
    }
    Ok(())
}

fn push_exported(out: &mut Vec<u32>, exports: &[Export<'_>]) -> Result<(), AllocError>
    ensures { OnOk result (out.new.items ≡ out.old.items ++ flat_map spec.exported_in (map export_value exports.now)) }
{
    for export in exports {
        if export.kind == ExportKind::Func {
            out.push(export.index)?;
        }
    }
    Ok(())
}

fn push_elements(out: &mut Vec<u32>, elements: &[ElementSegment]) -> Result<(), AllocError>
    ensures { OnOk result (out.new.items ≡ out.old.items ++ flat_map functions_in (map element_value elements.now)) }
{
    for element in elements {
        match element {
            ElementSegment::Active(_, functions)
            | ElementSegment::ActiveIn(_, _, functions)
            | ElementSegment::Declared(functions) => push_functions(out, functions)?,
        }
    }
    Ok(())
}

/// Each of them, some more than once.
fn named(alloc: Global, parts: &Parts<'_>) -> Result<Vec<u32>, AllocError>
    ensures { IfOk result (λ v. v.items ≡ spec.named (parts_value parts.now)) }
{
    let mut found = Vec::new(alloc);
    push_exported(&mut found, &parts.exports)?;
    push_elements(&mut found, &parts.elements)?;
    for global in parts.globals.as_slice() {
        found.push(global.stub)?;
    }
    Ok(found)
}

/// Marks a function, if it is there.
#[tactic(auto, using(crate::proofs::Marks::set_is_mark, crate::proofs::Marks::past_end))]
fn mark(marks: &mut Vec<bool>, function: u32)
    ensures { marks.new.items ≡ spec.with_mark marks.old.items function }
{
    if (function as usize) < marks.len() {
        marks[function as usize] = true;
    }
}

/// Whether each of so many functions is one of these.
fn marks_at(alloc: Global, count: usize, named: &[u32]) -> Result<Vec<bool>, AllocError>
    ensures { IfOk result (λ v. (f : ℕ) → f < count → slice_get v.items f ≡ Some (list_any (λ g. g == f) named.now)) }
{
    let mut marks = vec![in alloc; false; count]?;
    for function in named {
        mark(&mut marks, *function);
    }
    Ok(marks)
}

/// Whether each function is one of them.
pub fn marks(alloc: Global, parts: &Parts<'_>) -> Result<Vec<bool>, AllocError>
    ensures { IfOk result (λ v. spec.AreMarks (parts_value parts.now) v.items) }
{
    let named = named(alloc, parts)?;
    marks_at(alloc, parts.function_space.len(), &named)
}
