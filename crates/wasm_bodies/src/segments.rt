//! Segments of elements and of data.

ghost use Rattle.std.specs.Prelude.{◌≡◌, ◌++◌, map, OnOk, Err};
ghost use Rattle.binary_grammar.specs.Fault.{Gives};
ghost use Rattle.binary_grammar.specs.Syntax.{meaning, bytes, IsTyped};
ghost use Rattle.wasm_bodies.specs.Segments as spec;

use binary_grammar::{
    Part, ReadError, Reader, Rule, WriteFault, broken_at, put_number, put_signed, put_vec,
    put_with_length, vec_of,
};
use wasm_sections::{Items, SectionId, SectionItem};
use wasm_types::{Spaces, signed_32};

/// The place of a function.
#[derive(Clone, Copy, Debug, PartialEq, Eq)]
pub struct FunctionIndex(pub u32);

/// A segment of functions (WebAssembly Core, Binary Format, Modules, Element Section).
#[derive(Debug, Drop)]
pub enum ElementSegment {
    /// They go into the first table, from this place on.
    Active(i32, Vec<FunctionIndex>),
    /// They go into the table at this index, from this place on.
    ActiveIn(u32, i32, Vec<FunctionIndex>),
    /// `ref.func` may name them.
    Declared(Vec<FunctionIndex>),
}

/// Bytes that go into the first memory, from this place on (WebAssembly Core, Binary Format, Modules, Data Section).
#[derive(Clone, Copy, Debug, PartialEq, Eq)]
pub struct DataSegment<'a> {
    /// The place.
    pub offset: i32,
    /// The bytes.
    pub bytes: &'a [u8],
}

/// A constant place.
#[tactic(auto, unfolding(crate::specs::Segments::offset))]
fn offset_of(there: Spaces, from: &mut Reader<'_>) -> Result<i32, ReadError>
    ensures gives { Gives (λ x. (x, from.new.left)) result ((meaning spec.offset there).read from.old.left) }
    ensures end { from.new.end ≡ from.old.end }
{
    let _there = there;
    from.byte_is(Rule::Unsupported, 0x41)?;
    let offset = signed_32(from)?;
    from.byte_is(Rule::Unsupported, 0x0b)?;
    Ok(offset)
}

#[tactic(auto, unfolding(crate::specs::Segments::offset))]
fn put_offset(offset: i32, out: &mut Vec<u8>) -> Result<(), WriteFault>
    ensures bytes { OnOk result (out.new.items ≡ out.old.items ++ bytes spec.offset offset) }
    ensures typed { OnOk result (IsTyped spec.offset offset) }
    ensures large { result ≡ Err WriteFault.TooLarge → IsTyped spec.offset offset → ⊥ }
{
    out.push(0x41)?;
    put_signed(out, 32, i64::from(offset))?;
    out.push(0x0b)?;
    Ok(())
}

impl<'a> Part<'a> for FunctionIndex {
    type Context = Spaces;

    ghost use Rattle.std.specs.Prelude.{ℕ};
    ghost use Rattle.wasm_types.specs.declared.spaces.Spaces.{Spaces};
    ghost use Rattle.wasm_bodies.specs.Segments as spec;

    ghost Value = { ℕ };

    ghost Known = { Spaces };

    ghost syntax = { spec.function };

    ghost known = { λ s. s };

    ghost value = { spec.function_value };

    #[tactic(auto, unfolding(crate::specs::Segments::function))]
    fn read(there: Spaces, from: &mut Reader<'a>) -> Result<FunctionIndex, ReadError> {
        Ok(FunctionIndex(from.index(there.functions)?))
    }

    #[tactic(auto, unfolding(crate::specs::Segments::function))]
    fn put(&self, out: &mut Vec<u8>) -> Result<(), WriteFault> {
        put_number(out, self.0)?;
        Ok(())
    }
}

fn active(there: Spaces, from: &mut Reader<'_>) -> Result<ElementSegment, ReadError>
    ensures gives { Gives (λ x. (spec.element_value x, from.new.left)) result ((meaning (spec.element_behind spec.active_form) there).read from.old.left) }
    ensures end { from.new.end ≡ from.old.end }
{
    let offset = offset_of(there, from)?;
    let functions = vec_of(there, from)?;
    Ok(ElementSegment::Active(offset, functions))
}

fn active_in(there: Spaces, from: &mut Reader<'_>) -> Result<ElementSegment, ReadError>
    ensures gives { Gives (λ x. (spec.element_value x, from.new.left)) result ((meaning (spec.element_behind spec.active_in_form) there).read from.old.left) }
    ensures end { from.new.end ≡ from.old.end }
{
    let table = from.index(there.tables)?;
    let offset = offset_of(there, from)?;
    from.byte_is(Rule::Unsupported, 0)?;
    let functions = vec_of(there, from)?;
    Ok(ElementSegment::ActiveIn(table, offset, functions))
}

fn declared(there: Spaces, from: &mut Reader<'_>) -> Result<ElementSegment, ReadError>
    ensures gives { Gives (λ x. (spec.element_value x, from.new.left)) result ((meaning (spec.element_behind spec.declared_form) there).read from.old.left) }
    ensures end { from.new.end ≡ from.old.end }
{
    from.byte_is(Rule::Unsupported, 0)?;
    let functions = vec_of(there, from)?;
    Ok(ElementSegment::Declared(functions))
}

fn put_active(offset: i32, functions: &[FunctionIndex], out: &mut Vec<u8>) -> Result<(), WriteFault>
    ensures bytes { OnOk result (out.new.items ≡ out.old.items ++ bytes (spec.element_behind spec.active_form) (spec.active offset (map spec.function_value functions.now))) }
    ensures typed { OnOk result (IsTyped (spec.element_behind spec.active_form) (spec.active offset (map spec.function_value functions.now))) }
    ensures large { result ≡ Err WriteFault.TooLarge → IsTyped (spec.element_behind spec.active_form) (spec.active offset (map spec.function_value functions.now)) → ⊥ }
{
    put_offset(offset, out)?;
    put_vec(functions, out)?;
    Ok(())
}

fn put_active_in(
    table: u32,
    offset: i32,
    functions: &[FunctionIndex],
    out: &mut Vec<u8>,
) -> Result<(), WriteFault>
    ensures bytes { OnOk result (out.new.items ≡ out.old.items ++ bytes (spec.element_behind spec.active_in_form) (spec.active_in table offset (map spec.function_value functions.now))) }
    ensures typed { OnOk result (IsTyped (spec.element_behind spec.active_in_form) (spec.active_in table offset (map spec.function_value functions.now))) }
    ensures large { result ≡ Err WriteFault.TooLarge → IsTyped (spec.element_behind spec.active_in_form) (spec.active_in table offset (map spec.function_value functions.now)) → ⊥ }
{
    put_number(out, table)?;
    put_offset(offset, out)?;
    out.push(0)?;
    put_vec(functions, out)?;
    Ok(())
}

fn put_declared(functions: &[FunctionIndex], out: &mut Vec<u8>) -> Result<(), WriteFault>
    ensures bytes { OnOk result (out.new.items ≡ out.old.items ++ bytes (spec.element_behind spec.declared_form) (spec.declared (map spec.function_value functions.now))) }
    ensures typed { OnOk result (IsTyped (spec.element_behind spec.declared_form) (spec.declared (map spec.function_value functions.now))) }
    ensures large { result ≡ Err WriteFault.TooLarge → IsTyped (spec.element_behind spec.declared_form) (spec.declared (map spec.function_value functions.now)) → ⊥ }
{
    out.push(0)?;
    put_vec(functions, out)?;
    Ok(())
}

impl<'a> Part<'a> for ElementSegment {
    type Context = Spaces;

    ghost use Rattle.wasm_types.specs.declared.spaces.Spaces.{Spaces};
    ghost use Rattle.wasm_bodies.specs.Segments as spec;

    ghost Value = { spec.ElementValue };

    ghost Known = { Spaces };

    ghost syntax = { spec.element };

    ghost known = { λ s. s };

    ghost value = { spec.element_value };

    #[tactic(auto, unfolding(crate::specs::Segments::element, crate::specs::Segments::form_of))]
    fn read(there: Spaces, from: &mut Reader<'a>) -> Result<ElementSegment, ReadError> {
        match from.number()? {
            0 => active(there, from),
            2 => active_in(there, from),
            3 => declared(there, from),
            _ => Err(from.broken(Rule::Unsupported)),
        }
    }

    #[tactic(auto, unfolding(crate::specs::Segments::element, crate::specs::Segments::form_of))]
    fn put(&self, out: &mut Vec<u8>) -> Result<(), WriteFault> {
        match self {
            ElementSegment::Active(offset, functions) => {
                put_number(out, 0)?;
                put_active(*offset, functions, out)
            }
            ElementSegment::ActiveIn(table, offset, functions) => {
                put_number(out, 2)?;
                put_active_in(*table, *offset, functions, out)
            }
            ElementSegment::Declared(functions) => {
                put_number(out, 3)?;
                put_declared(functions, out)
            }
        }
    }
}

impl<'a> Part<'a> for DataSegment<'a> {
    type Context = Spaces;

    ghost use Rattle.wasm_types.specs.declared.spaces.Spaces.{Spaces};
    ghost use Rattle.wasm_bodies.specs.Segments as spec;

    ghost Value = { spec.DataValue };

    ghost Known = { Spaces };

    ghost syntax = { spec.data_segment };

    ghost known = { λ s. s };

    ghost value = { spec.data_value };

    #[tactic(auto, unfolding(crate::specs::Segments::data_segment))]
    fn read(there: Spaces, from: &mut Reader<'a>) -> Result<DataSegment<'a>, ReadError> {
        let at = from.left();
        if from.number()? != 0 {
            return Err(broken_at(Rule::Unsupported, at));
        }
        let offset = offset_of(there, from)?;
        let bytes = from.inside()?.rest();
        Ok(DataSegment { offset, bytes })
    }

    #[tactic(auto, unfolding(crate::specs::Segments::data_segment))]
    fn put(&self, out: &mut Vec<u8>) -> Result<(), WriteFault> {
        put_number(out, 0)?;
        put_offset(self.offset, out)?;
        put_with_length(out, self.bytes)?;
        Ok(())
    }
}

impl SectionItem for ElementSegment {
    ghost use Rattle.wasm_sections.specs.declared.section.SectionId.TheVariants as ids;

    ghost id = { ids.Element };

    fn id() -> SectionId {
        SectionId::Element
    }
}

impl<'a> SectionItem for DataSegment<'a> {
    ghost use Rattle.wasm_sections.specs.declared.section.SectionId.TheVariants as ids;

    ghost id = { ids.Data };

    fn id() -> SectionId
        ensures { result ≡ ids.Data }
    {
        SectionId::Data
    }
}

/// Segments of functions.
pub type ElementSection = Items<ElementSegment>;

/// Segments of bytes.
pub type DataSection<'a> = Items<DataSegment<'a>>;
