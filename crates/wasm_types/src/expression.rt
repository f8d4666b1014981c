//! Constant expressions.

ghost use Rattle.std.specs.Prelude.{◌≡◌, ◌^◌, true, option_map};
ghost use Rattle.binary_grammar.specs.Fault.{Gives};
ghost use Rattle.binary_grammar.specs.Signed.{signed, lies_in};
ghost use Rattle.binary_grammar.specs.Syntax.{meaning};
ghost use Rattle.wasm_types.specs.Expression as spec;

use crate::spaces::Spaces;
use binary_grammar::{
    Instruction, Part, ReadError, Reader, Rule, WriteFault, broken_at, put_number, put_signed,
    put_up_to, up_to_of,
};

/// What a reference may refer to (WebAssembly Core, Types, Heap Types).
#[derive(Clone, Copy, Debug, PartialEq, Eq)]
pub enum HeapType {
    /// One of the standard's own, by its byte: from `69` to `74`.
    Abstract(u8),
    /// The type at this index.
    Concrete(u32),
}

/// An instruction of a constant expression (WebAssembly Core, Validation, Constant Expressions). A number with a fraction
/// and a vector are the bytes that stand there.
#[derive(Clone, Copy, Debug, PartialEq, Eq)]
pub enum ConstantInstruction<'a> {
    /// `global.get`: the value of an imported global, or of one of the module's own that stands before.
    GlobalGet(u32),
    /// `i32.const`
    I32Const(i32),
    /// `i64.const`
    I64Const(i64),
    /// `f32.const`, by its 4 bytes.
    F32Const(&'a [u8]),
    /// `f64.const`, by its 8 bytes.
    F64Const(&'a [u8]),
    /// `v128.const`, by its 16 bytes.
    V128Const(&'a [u8]),
    /// `i32.add`
    I32Add,
    /// `i32.sub`
    I32Sub,
    /// `i32.mul`
    I32Mul,
    /// `i64.add`
    I64Add,
    /// `i64.sub`
    I64Sub,
    /// `i64.mul`
    I64Mul,
    /// `ref.null`
    RefNull(HeapType),
    /// `ref.func`
    RefFunc(u32),
}

/// Instructions whose last one leaves a value (WebAssembly Core, Binary Format, Expressions).
#[derive(Debug, Drop)]
pub struct Expression<'a> {
    /// The instructions, without the end.
    pub instructions: Vec<ConstantInstruction<'a>>,
}

/// A signed number of 32 bits (WebAssembly Core, Binary Format, Integers).
pub fn signed_32(from: &mut Reader<'_>) -> Result<i32, ReadError>
    ensures gives { Gives (λ x. (x, from.new.left)) result ((signed 32).read from.old.left) }
    ensures end { from.new.end ≡ from.old.end }
{
    let number = from.signed(32)?;
    Ok(number as i32)
}

fn global_get<'a>(
    there: Spaces,
    from: &mut Reader<'a>,
) -> Result<ConstantInstruction<'a>, ReadError>
    ensures gives { Gives (λ x. (spec.instruction_value x, from.new.left)) result ((meaning (spec.behind spec.global_index) there).read from.old.left) }
    ensures end { from.new.end ≡ from.old.end }
{
    Ok(ConstantInstruction::GlobalGet(from.index(there.globals)?))
}

fn ref_func<'a>(there: Spaces, from: &mut Reader<'a>) -> Result<ConstantInstruction<'a>, ReadError>
    ensures gives { Gives (λ x. (spec.instruction_value x, from.new.left)) result ((meaning (spec.behind spec.function_index) there).read from.old.left) }
    ensures end { from.new.end ≡ from.old.end }
{
    Ok(ConstantInstruction::RefFunc(from.index(there.functions)?))
}

fn i32_const<'a>(there: Spaces, from: &mut Reader<'a>) -> Result<ConstantInstruction<'a>, ReadError>
    ensures gives { Gives (λ x. (spec.instruction_value x, from.new.left)) result ((meaning (spec.behind spec.integer_32) there).read from.old.left) }
    ensures end { from.new.end ≡ from.old.end }
{
    Ok(ConstantInstruction::I32Const(signed_32(from)?))
}

fn i64_const<'a>(there: Spaces, from: &mut Reader<'a>) -> Result<ConstantInstruction<'a>, ReadError>
    ensures gives { Gives (λ x. (spec.instruction_value x, from.new.left)) result ((meaning (spec.behind spec.integer_64) there).read from.old.left) }
    ensures end { from.new.end ≡ from.old.end }
{
    Ok(ConstantInstruction::I64Const(from.signed(64)?))
}

fn f32_const<'a>(there: Spaces, from: &mut Reader<'a>) -> Result<ConstantInstruction<'a>, ReadError>
    ensures gives { Gives (λ x. (spec.instruction_value x, from.new.left)) result ((meaning (spec.behind spec.float_32) there).read from.old.left) }
    ensures end { from.new.end ≡ from.old.end }
{
    Ok(ConstantInstruction::F32Const(from.bytes(4)?))
}

fn f64_const<'a>(there: Spaces, from: &mut Reader<'a>) -> Result<ConstantInstruction<'a>, ReadError>
    ensures gives { Gives (λ x. (spec.instruction_value x, from.new.left)) result ((meaning (spec.behind spec.float_64) there).read from.old.left) }
    ensures end { from.new.end ≡ from.old.end }
{
    Ok(ConstantInstruction::F64Const(from.bytes(8)?))
}

/// Of the vector instructions this is the only one, by a number behind its byte.
fn v128_const<'a>(
    there: Spaces,
    from: &mut Reader<'a>,
) -> Result<ConstantInstruction<'a>, ReadError>
    ensures gives { Gives (λ x. (spec.instruction_value x, from.new.left)) result ((meaning (spec.behind spec.vector) there).read from.old.left) }
    ensures end { from.new.end ≡ from.old.end }
{
    let at = from.left();
    if from.number()? != 0x0c {
        return Err(broken_at(Rule::Unsupported, at));
    }
    Ok(ConstantInstruction::V128Const(from.bytes(16)?))
}

/// What a number stands for where a heap type is asked.
fn heap_at(there: Spaces, number: i64) -> Result<HeapType, Rule>
    requires { lies_in (2 ^ 32) number ≡ true }
    ensures { result ≡ spec.heap_of there number }
{
    if number >= 0 {
        if number as usize >= there.types {
            return Err(Rule::Index);
        }
        return Ok(HeapType::Concrete(number as u32));
    }
    match -1 - number {
        below @ 11..=22 => Ok(HeapType::Abstract(127 - below as u8)),
        _ => Err(Rule::Tag),
    }
}

/// Whether so many bytes may stand for a heap type.
fn fits(size: usize, heap: HeapType) -> bool
    ensures { result ≡ spec.fits_heap size heap }
{
    match heap {
        HeapType::Abstract(_) => size == 1,
        HeapType::Concrete(_) => true,
    }
}

#[tactic(auto, unfolding(crate::specs::Expression::heap_type))]
fn heap_type(there: Spaces, from: &mut Reader<'_>) -> Result<HeapType, ReadError>
    ensures gives { Gives (λ x. (x, from.new.left)) result ((meaning spec.heap_type there).read from.old.left) }
    ensures end { from.new.end ≡ from.old.end }
{
    let at = from.left();
    let number = from.signed(33)?;
    let size = at - from.left();
    match heap_at(there, number) {
        Ok(heap) if fits(size, heap) => Ok(heap),
        Ok(_) => Err(broken_at(Rule::Tag, at)),
        Err(rule) => Err(broken_at(rule, at)),
    }
}

fn ref_null<'a>(there: Spaces, from: &mut Reader<'a>) -> Result<ConstantInstruction<'a>, ReadError>
    ensures gives { Gives (λ x. (spec.instruction_value x, from.new.left)) result ((meaning (spec.behind spec.null) there).read from.old.left) }
    ensures end { from.new.end ≡ from.old.end }
{
    Ok(ConstantInstruction::RefNull(heap_type(there, from)?))
}

/// The operation that a byte stands for.
fn operation_at<'a>(kind: u8) -> Option<ConstantInstruction<'a>>
    ensures { option_map spec.instruction_value result ≡ spec.operation_at kind }
{
    match kind {
        0x6a => Some(ConstantInstruction::I32Add),
        0x6b => Some(ConstantInstruction::I32Sub),
        0x6c => Some(ConstantInstruction::I32Mul),
        0x7c => Some(ConstantInstruction::I64Add),
        0x7d => Some(ConstantInstruction::I64Sub),
        0x7e => Some(ConstantInstruction::I64Mul),
        _ => None,
    }
}

impl HeapType {
    /// The number that stands for it.
    fn number(self) -> i64
        ensures { result ≡ spec.heap_number self }
    {
        match self {
            HeapType::Abstract(byte) => -1 - i64::from(127u8.saturating_sub(byte)),
            HeapType::Concrete(index) => i64::from(index),
        }
    }
}

impl<'a> Instruction<'a> for ConstantInstruction<'a> {
    type Context = Spaces;

    ghost use Rattle.wasm_types.specs.declared.spaces.Spaces.{Spaces};
    ghost use Rattle.wasm_types.specs.Expression as spec;
    ghost use Rattle.wasm_types.specs.Expression.{InstructionValue};

    ghost Value = { InstructionValue };

    ghost Known = { Spaces };

    ghost which = { spec.which };

    ghost next = { spec.next };

    ghost known = { λ s. s };

    ghost value = { spec.instruction_value };

    #[tactic(auto, unfolding(crate::specs::Expression::next, crate::specs::Expression::opcode_of))]
    fn read_behind(
        kind: u8,
        there: Spaces,
        from: &mut Reader<'a>,
    ) -> Result<ConstantInstruction<'a>, ReadError> {
        match kind {
            0x23 => global_get(there, from),
            0x41 => i32_const(there, from),
            0x42 => i64_const(there, from),
            0x43 => f32_const(there, from),
            0x44 => f64_const(there, from),
            0xd0 => ref_null(there, from),
            0xd2 => ref_func(there, from),
            0xfd => v128_const(there, from),
            _ => match operation_at(kind) {
                Some(operation) => Ok(operation),
                None => Err(from.broken(Rule::Unsupported)),
            },
        }
    }

    fn kind(&self) -> u8 {
        match self {
            ConstantInstruction::GlobalGet(_) => 0x23,
            ConstantInstruction::I32Const(_) => 0x41,
            ConstantInstruction::I64Const(_) => 0x42,
            ConstantInstruction::F32Const(_) => 0x43,
            ConstantInstruction::F64Const(_) => 0x44,
            ConstantInstruction::V128Const(_) => 0xfd,
            ConstantInstruction::I32Add => 0x6a,
            ConstantInstruction::I32Sub => 0x6b,
            ConstantInstruction::I32Mul => 0x6c,
            ConstantInstruction::I64Add => 0x7c,
            ConstantInstruction::I64Sub => 0x7d,
            ConstantInstruction::I64Mul => 0x7e,
            ConstantInstruction::RefNull(_) => 0xd0,
            ConstantInstruction::RefFunc(_) => 0xd2,
        }
    }

    #[tactic(auto, unfolding(crate::specs::Expression::next, crate::specs::Expression::opcode_of, crate::specs::Expression::heap_type))]
    fn put_behind(&self, out: &mut Vec<u8>) -> Result<(), WriteFault> {
        match self {
            ConstantInstruction::GlobalGet(index) | ConstantInstruction::RefFunc(index) => {
                put_number(out, *index)?;
            }
            ConstantInstruction::I32Const(number) => put_signed(out, 32, i64::from(*number))?,
            ConstantInstruction::I64Const(number) => put_signed(out, 64, *number)?,
            ConstantInstruction::F32Const(bytes) | ConstantInstruction::F64Const(bytes) => {
                out.extend_from_slice(bytes)?;
            }
            ConstantInstruction::V128Const(bytes) => {
                put_number(out, 0x0c)?;
                out.extend_from_slice(bytes)?;
            }
            ConstantInstruction::RefNull(heap) => put_signed(out, 33, heap.number())?,
            _ => {}
        }
        Ok(())
    }
}

impl<'a> Part<'a> for Expression<'a> {
    type Context = Spaces;

    ghost use Rattle.std.specs.Prelude.{List, map};
    ghost use Rattle.wasm_types.specs.declared.spaces.Spaces.{Spaces};
    ghost use Rattle.wasm_types.specs.Expression as spec;
    ghost use Rattle.wasm_types.specs.Expression.{InstructionValue};

    ghost Value = { List InstructionValue };

    ghost Known = { Spaces };

    ghost syntax = { spec.expression };

    ghost known = { λ s. s };

    ghost value = { spec.expression_value };

    #[tactic(auto, unfolding(crate::specs::Expression::expression))]
    fn read(there: Spaces, from: &mut Reader<'a>) -> Result<Expression<'a>, ReadError> {
        let instructions = up_to_of(0x0b, there, from)?;
        Ok(Expression { instructions })
    }

    #[tactic(auto, unfolding(crate::specs::Expression::expression))]
    fn put(&self, out: &mut Vec<u8>) -> Result<(), WriteFault> {
        put_up_to(0x0b, &self.instructions, out)
    }
}
