//! Instructions.

ghost use Rattle.std.specs.Prelude.{◌≡◌};
ghost use Rattle.binary_grammar.specs.Fault.{Gives};
ghost use Rattle.binary_grammar.specs.Syntax.{meaning};
ghost use Rattle.wasm_bodies.specs.Instructions as spec;

use binary_grammar::{Instruction, ReadError, Reader, Rule, WriteFault, put_number, put_signed};
use wasm_types::{Spaces, signed_32};

/// An instruction of a generated function (WebAssembly Core, Binary Format, Instructions).
#[derive(Clone, Copy, Debug, PartialEq, Eq)]
pub enum BodyInstruction {
    /// `unreachable`
    Unreachable,
    /// `call`, of the function at this index.
    Call(u32),
    /// `call_indirect`, of a function of the type at this index, through the table at this index.
    CallIndirect(u32, u32),
    /// `call_ref`, of a function of the type at this index.
    CallRef(u32),
    /// `local.get`
    LocalGet(u32),
    /// `global.get`
    GlobalGet(u32),
    /// `global.set`
    GlobalSet(u32),
    /// `i32.const`
    I32Const(i32),
    /// `ref.func`
    RefFunc(u32),
}

fn call_indirect(there: Spaces, from: &mut Reader<'_>) -> Result<BodyInstruction, ReadError>
    ensures gives { Gives (λ x. (x, from.new.left)) result ((meaning (spec.behind spec.call_indirect_form) there).read from.old.left) }
    ensures end { from.new.end ≡ from.old.end }
{
    let ty = from.index(there.types)?;
    let table = from.index(there.tables)?;
    Ok(BodyInstruction::CallIndirect(ty, table))
}

impl<'a> Instruction<'a> for BodyInstruction {
    type Context = Spaces;

    ghost use Rattle.wasm_types.specs.declared.spaces.Spaces.{Spaces};
    ghost use Rattle.wasm_bodies.specs.declared.instructions.BodyInstruction.{BodyInstruction};
    ghost use Rattle.wasm_bodies.specs.Instructions as spec;

    ghost Value = { BodyInstruction };

    ghost Known = { Spaces };

    ghost which = { spec.which };

    ghost next = { spec.next };

    ghost known = { λ s. s };

    ghost value = { λ i. i };

    #[tactic(auto, unfolding(crate::specs::Instructions::next, crate::specs::Instructions::opcode_of))]
    fn read_behind(
        kind: u8,
        there: Spaces,
        from: &mut Reader<'a>,
    ) -> Result<BodyInstruction, ReadError> {
        match kind {
            0x00 => Ok(BodyInstruction::Unreachable),
            0x10 => Ok(BodyInstruction::Call(from.index(there.functions)?)),
            0x11 => call_indirect(there, from),
            0x15 => Ok(BodyInstruction::CallRef(from.index(there.types)?)),
            0x20 => Ok(BodyInstruction::LocalGet(from.number()?)),
            0x23 => Ok(BodyInstruction::GlobalGet(from.index(there.globals)?)),
            0x24 => Ok(BodyInstruction::GlobalSet(from.index(there.globals)?)),
            0x41 => Ok(BodyInstruction::I32Const(signed_32(from)?)),
            0xd2 => Ok(BodyInstruction::RefFunc(from.index(there.functions)?)),
            _ => Err(from.broken(Rule::Unsupported)),
        }
    }

    fn kind(&self) -> u8 {
        match self {
            BodyInstruction::Unreachable => 0x00,
            BodyInstruction::Call(_) => 0x10,
            BodyInstruction::CallIndirect(_, _) => 0x11,
            BodyInstruction::CallRef(_) => 0x15,
            BodyInstruction::LocalGet(_) => 0x20,
            BodyInstruction::GlobalGet(_) => 0x23,
            BodyInstruction::GlobalSet(_) => 0x24,
            BodyInstruction::I32Const(_) => 0x41,
            BodyInstruction::RefFunc(_) => 0xd2,
        }
    }

    #[tactic(auto, unfolding(crate::specs::Instructions::next, crate::specs::Instructions::opcode_of))]
    fn put_behind(&self, out: &mut Vec<u8>) -> Result<(), WriteFault> {
        match self {
            BodyInstruction::Unreachable => {}
            BodyInstruction::CallIndirect(ty, table) => {
                put_number(out, *ty)?;
                put_number(out, *table)?;
            }
            BodyInstruction::I32Const(number) => put_signed(out, 32, i64::from(*number))?,
            BodyInstruction::Call(index)
            | BodyInstruction::CallRef(index)
            | BodyInstruction::LocalGet(index)
            | BodyInstruction::GlobalGet(index)
            | BodyInstruction::GlobalSet(index)
            | BodyInstruction::RefFunc(index) => put_number(out, *index)?,
        }
        Ok(())
    }
}
