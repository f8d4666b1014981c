//! Instructions of constant expressions, as the text format writes them.

use crate::page::Page;
use wasm_format::{ConstantInstruction, HeapType};

/// The name of an instruction, and a space where something stands behind it.
fn operation(instruction: &ConstantInstruction) -> &'static str {
    match instruction {
        ConstantInstruction::GlobalGet(_) => "global.get ",
        ConstantInstruction::I32Const(_) => "i32.const ",
        ConstantInstruction::I64Const(_) => "i64.const ",
        ConstantInstruction::F32Const(_) => "f32.const ",
        ConstantInstruction::F64Const(_) => "f64.const ",
        ConstantInstruction::V128Const(_) => "v128.const ",
        ConstantInstruction::RefNull(_) => "ref.null ",
        ConstantInstruction::RefFunc(_) => "ref.func ",
        ConstantInstruction::I32Add => "i32.add",
        ConstantInstruction::I32Sub => "i32.sub",
        ConstantInstruction::I32Mul => "i32.mul",
        ConstantInstruction::I64Add => "i64.add",
        ConstantInstruction::I64Sub => "i64.sub",
        ConstantInstruction::I64Mul => "i64.mul",
    }
}

fn write_heap(page: &mut Page, heap: HeapType) {
    match heap {
        HeapType::Abstract(byte) => page.hexadecimal(&[byte]),
        HeapType::Concrete(index) => {
            page.words("type ");
            page.shown(&index);
        }
    }
}

/// An instruction; bytes that stand behind it are written in hexadecimal.
fn write_instruction(page: &mut Page, instruction: &ConstantInstruction) {
    page.words(operation(instruction));
    match instruction {
        ConstantInstruction::GlobalGet(index) | ConstantInstruction::RefFunc(index) => {
            page.shown(index)
        }
        ConstantInstruction::I32Const(number) => page.shown(number),
        ConstantInstruction::I64Const(number) => page.shown(number),
        ConstantInstruction::F32Const(bytes) => page.hexadecimal(bytes),
        ConstantInstruction::F64Const(bytes) => page.hexadecimal(bytes),
        ConstantInstruction::V128Const(bytes) => page.hexadecimal(bytes),
        ConstantInstruction::RefNull(heap) => write_heap(page, *heap),
        _ => {}
    }
}

/// Instructions, each behind a sign.
pub fn write(page: &mut Page, instructions: &[ConstantInstruction]) {
    for (place, instruction) in instructions.iter().enumerate() {
        page.words(if place == 0 { " = " } else { "; " });
        write_instruction(page, instruction);
    }
}
