//! The names of a module and of its functions.

ghost use Rattle.std.specs.Prelude.{◌≡◌, ◌++◌, map, OnOk, Err};
ghost use Rattle.binary_grammar.specs.Fault.{Gives};
ghost use Rattle.binary_grammar.specs.Syntax.{meaning, bytes, IsTyped, sized, exactly, vec, some_name};
ghost use Rattle.wasm_types.specs.declared.spaces.Spaces.{Spaces};
ghost use Rattle.wasm_sections.specs.Module.{no_spaces};
ghost use Rattle.wasm_bodies.specs.Names as spec;

use crate::bodies::Bounded;
use binary_grammar::{
    Content, Part, ReadError, Reader, Rule, WriteFault, bounded_of, broken_at, put_name,
    put_number, put_vec, put_with_length,
};
use wasm_sections::{Items, SectionId, SectionWriter};
use wasm_types::Spaces;

/// The name of a function.
#[derive(Clone, Copy, Debug, PartialEq, Eq)]
pub struct FunctionName<'a> {
    /// Its place.
    pub index: u32,
    /// Its name.
    pub name: &'a str,
}

/// A name that is all of some bytes.
#[derive(Clone, Copy, Debug, PartialEq, Eq)]
struct ModuleName<'a> {
    name: &'a str,
}

/// The names of a module and of its functions (WebAssembly Core, Custom Sections, Name Section).
#[derive(Debug, Drop)]
pub struct NameSection<'a> {
    /// The module's name.
    pub module: &'a str,
    /// Those of functions.
    pub functions: Vec<FunctionName<'a>>,
}

impl<'a> Part<'a> for FunctionName<'a> {
    type Context = Spaces;

    ghost use Rattle.wasm_types.specs.declared.spaces.Spaces.{Spaces};
    ghost use Rattle.wasm_bodies.specs.Names as spec;

    ghost Value = { spec.FunctionNameValue };

    ghost Known = { Spaces };

    ghost syntax = { spec.function_name };

    ghost known = { λ s. s };

    ghost value = { spec.function_name_value };

    #[tactic(auto, unfolding(crate::specs::Names::function_name))]
    fn read(_there: Spaces, from: &mut Reader<'a>) -> Result<FunctionName<'a>, ReadError> {
        let index = from.number()?;
        let name = from.name()?;
        Ok(FunctionName { index, name })
    }

    #[tactic(auto, unfolding(crate::specs::Names::function_name))]
    fn put(&self, out: &mut Vec<u8>) -> Result<(), WriteFault> {
        put_number(out, self.index)?;
        put_name(out, self.name)?;
        Ok(())
    }
}

impl<'a> Content<'a> for ModuleName<'a> {
    type Context = Spaces;

    ghost use Rattle.std.specs.Prelude.{ℕ, List};
    ghost use Rattle.binary_grammar.specs.Syntax.{exactly, some_name};
    ghost use Rattle.wasm_types.specs.declared.spaces.Spaces.{Spaces};

    ghost Value = { List ℕ };

    ghost Known = { Spaces };

    ghost content = { exactly some_name };

    ghost known = { λ s. s };

    ghost value = { λ n. n.name.now };

    fn read_all(_there: Spaces, from: Reader<'a>) -> Result<ModuleName<'a>, ReadError> {
        let mut from = from;
        let name = from.name()?;
        from.ended()?;
        Ok(ModuleName { name })
    }

    fn put_all(&self, out: &mut Vec<u8>) -> Result<(), WriteFault> {
        put_name(out, self.name)?;
        Ok(())
    }
}

/// Adds the module's name behind its size.
fn put_module(name: &str, out: &mut Vec<u8>) -> Result<(), WriteFault>
    ensures bytes { OnOk result (out.new.items ≡ out.old.items ++ bytes (sized (exactly (some_name {C = Spaces}))) name.now) }
    ensures typed { OnOk result (IsTyped (sized (exactly (some_name {C = Spaces}))) name.now) }
    ensures large { result ≡ Err WriteFault.TooLarge → IsTyped (sized (exactly (some_name {C = Spaces}))) name.now → ⊥ }
{
    Bounded(ModuleName { name }).put(out)
}

/// Adds names of functions behind their size.
fn put_functions(functions: &[FunctionName<'_>], out: &mut Vec<u8>) -> Result<(), WriteFault>
    ensures bytes { OnOk result (out.new.items ≡ out.old.items ++ bytes (sized (exactly (vec spec.function_name))) (map spec.function_name_value functions.now)) }
    ensures typed { OnOk result (IsTyped (sized (exactly (vec spec.function_name))) (map spec.function_name_value functions.now)) }
    ensures large { result ≡ Err WriteFault.TooLarge → IsTyped (sized (exactly (vec spec.function_name))) (map spec.function_name_value functions.now) → ⊥ }
{
    let mut content = Vec::new(*out.allocator());
    put_vec(functions, &mut content)?;
    put_with_length(out, &content)
}

/// Takes the section's own name.
fn title(from: &mut Reader<'_>) -> Result<(), ReadError>
    ensures gives { Gives (λ _. (spec.title, from.new.left)) result ((meaning (spec.own_name) no_spaces).read from.old.left) }
    ensures end { from.new.end ≡ from.old.end }
{
    let at = from.left();
    if from.name()? != "name" {
        return Err(broken_at(Rule::Unsupported, at));
    }
    Ok(())
}

impl<'a> Content<'a> for NameSection<'a> {
    type Context = Spaces;

    ghost use Rattle.wasm_types.specs.declared.spaces.Spaces.{Spaces};
    ghost use Rattle.wasm_bodies.specs.Names as spec;

    ghost Value = { spec.NamesValue };

    ghost Known = { Spaces };

    ghost content = { spec.names };

    ghost known = { λ s. s };

    ghost value = { spec.names_value };

    #[tactic(auto, unfolding(crate::specs::Names::names))]
    fn read_all(there: Spaces, from: Reader<'a>) -> Result<NameSection<'a>, ReadError> {
        let mut from = from;
        title(&mut from)?;
        from.byte_is(Rule::Unsupported, 0)?;
        let module: ModuleName<'a> = bounded_of(there, &mut from)?;
        from.byte_is(Rule::Unsupported, 1)?;
        let functions: Items<FunctionName<'a>> = bounded_of(there, &mut from)?;
        from.ended()?;
        Ok(NameSection {
            module: module.name,
            functions: functions.items,
        })
    }

    #[tactic(auto, unfolding(crate::specs::Names::names))]
    fn put_all(&self, out: &mut Vec<u8>) -> Result<(), WriteFault> {
        put_name(out, "name")?;
        out.push(0)?;
        put_module(self.module, out)?;
        out.push(1)?;
        put_functions(&self.functions, out)
    }
}

impl<'a> SectionWriter<'a> for NameSection<'a> {
    ghost use Rattle.wasm_sections.specs.declared.section.SectionId.TheVariants as ids;

    ghost id = { ids.Custom };

    fn id(&self) -> SectionId {
        SectionId::Custom
    }
}
