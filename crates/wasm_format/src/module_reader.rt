//! Reading a core module.

ghost use Rattle.std.specs.Prelude.{◌≡◌, List, map, IfOk, IfErr, OnOk, MatchResult};
ghost use Rattle.wasm_types.specs.Entries.{import_value, type_index_value};
ghost use Rattle.wasm_sections.specs.Module as whole;
ghost use Rattle.wasm_format.specs.Grammar.{IsModule, IsModuleFault, fault_of};
ghost use Rattle.wasm_format.specs.Module.{ModuleValue, module_value, module_of, function_space_of, with_section};

use crate::core_module::{CoreModule, Section};
use crate::fault::ModuleFault;
use binary_grammar::{Fault, ReadError, Rule};
use std::alloc::{AllocError, Global};
use wasm_sections::{Holding, Section as WholeSection, read_sections};
use wasm_types::{EntityType, Import, TypeIndex};

impl<'a> CoreModule<'a> {
    /// Adds a section, and what it holds.
    fn add(&mut self, section: WholeSection<'a>) -> Result<(), AllocError>
        ensures { OnOk result (module_value self.new ≡ with_section (module_value self.old) (whole.section_value section.entry)) }
    {
        let WholeSection { id, content, holds } = section;
        self.sections.push(Section { id, content })?;
        match holds {
            Holding::Types(mut types) => self.types.append(&mut types),
            Holding::Imports(mut imports) => self.imports.append(&mut imports),
            Holding::Functions(mut functions) => self.functions.append(&mut functions),
            Holding::Tables(mut tables) => self.tables.append(&mut tables),
            Holding::Memories(mut memories) => self.memories.append(&mut memories),
            Holding::Globals(mut globals) => self.globals.append(&mut globals),
            Holding::Exports(mut exports) => self.exports.append(&mut exports),
            Holding::Framed => Ok(()),
        }
    }
}

/// The place of the type of each function, imported ones first (Modules, Indices).
fn function_space(
    alloc: Global,
    imports: &[Import],
    functions: &[TypeIndex],
) -> Result<Vec<u32>, AllocError>
    ensures { IfOk result (λ v. v.items ≡ function_space_of (map import_value imports.now) (map type_index_value functions.now)) }
{
    let mut space = Vec::new(alloc);
    for import in imports {
        if let EntityType::Function(ty) = import.ty {
            space.push(ty)?;
        }
    }
    for function in functions {
        space.push(function.0)?;
    }
    Ok(space)
}

/// The module that has these sections.
fn module_of<'a>(
    alloc: Global,
    sections: Vec<WholeSection<'a>>,
) -> Result<CoreModule<'a>, AllocError>
    ensures { IfOk result (λ m. module_value m ≡ module_of (map whole.section_value sections.entry.items)) }
{
    let mut found = CoreModule {
        types: Vec::new(alloc),
        imports: Vec::new(alloc),
        functions: Vec::new(alloc),
        tables: Vec::new(alloc),
        memories: Vec::new(alloc),
        globals: Vec::new(alloc),
        exports: Vec::new(alloc),
        sections: Vec::new(alloc),
        function_space: Vec::new(alloc),
    };
    for section in sections {
        found.add(section)?;
    }
    found.function_space = function_space(alloc, &found.imports, &found.functions)?;
    Ok(found)
}

/// What a broken rule is called.
fn module_fault(rule: Rule) -> ModuleFault
    ensures { result ≡ fault_of rule }
{
    match rule {
        Rule::Unsupported => ModuleFault::Unsupported,
        _ => ModuleFault::Malformed,
    }
}

/// The one core module that the bytes are; its names and contents are slices of them.
///
/// Answers M3 for more than 4,294,967,295 bytes. Where the bytes break a rule, the first part that breaks decides: M2
/// for a form of the standard that is never read, M1 for any other rule (WebAssembly Core, Binary Format, Modules).
pub fn read_module(alloc: Global, bytes: &[u8]) -> Result<CoreModule<'_>, ModuleFault>
    // What is read is this module by the grammar.
    ensures found { IfOk result (λ m. IsModule bytes.now (module_value m)) }
    // A module of the grammar is read, as this one and no other, unless memory runs out.
    ensures only { (m : ModuleValue) → IsModule bytes.now m → MatchResult result (λ found. module_value found ≡ m) (λ e. e ≡ ModuleFault.OutOfMemory) }
    // A refusal is M3 for too many bytes alone; M1 and M2 name a rule that the bytes break where the parts of a module
    // stand in them up to there.
    ensures fault { IfErr result (IsModuleFault bytes.now) }
{
    if bytes.len() > u32::MAX as usize {
        return Err(ModuleFault::TooLarge);
    }
    match read_sections(alloc, bytes) {
        Ok(sections) => Ok(module_of(alloc, sections)?),
        Err(ReadError::Memory) => Err(ModuleFault::OutOfMemory),
        Err(ReadError::Malformed(Fault { rule, .. })) => Err(module_fault(rule)),
    }
}
