//! What generated functions do.

ghost use Rattle.std.specs.Prelude.{◌≡◌, ◌++◌, ◌∷◌, IfOk, OnOk};
ghost use Rattle.std.specs.List.{flat_map};
ghost use Rattle.wasm_bodies.specs.declared.instructions.BodyInstruction.TheVariants as code;
ghost use Rattle.wasm_bodies.specs.Bodies.{body_value};
ghost use Rattle.wasm_bodies.specs.Generated as spec;

use crate::bodies::Body;
use crate::instructions::BodyInstruction;
use std::alloc::{AllocError, Global};

/// A call that tells a hook a number.
#[derive(Clone, Copy, Debug, PartialEq, Eq)]
pub struct HookCall {
    /// The number.
    pub number: i32,
    /// The hook.
    pub hook: u32,
}

/// What start code does at a time.
#[derive(Clone, Copy, Debug, PartialEq, Eq)]
pub enum StartStep {
    /// This function goes into this global.
    InitGlobal(u32, u32),
    /// This function is called.
    Call(u32),
    /// A hook is told a number.
    CallHook(HookCall),
}

/// What a generated function does, of as many parameters as its type has.
#[derive(Debug, Drop)]
pub enum GeneratedBody {
    /// It stops.
    TrapStub,
    /// It hands its parameters to the function in this slot of the first table, which is of this type.
    TableStandIn(i32, u32),
    /// It hands its parameters to the function that this global refers to, which is of this type.
    ReferenceStandIn(u32, u32),
    /// It hands its parameters to this function, between two calls of a hook, if they are asked.
    HookedCall(Option<HookCall>, u32, Option<HookCall>),
    /// It prepares a module.
    StartCode(Vec<StartStep>),
}

/// Adds each parameter.
fn push_parameters(out: &mut Vec<BodyInstruction>, count: u32) -> Result<(), AllocError>
    ensures { OnOk result (out.new.items ≡ out.old.items ++ spec.parameters count) }
{
    for parameter in 0..count {
        out.push(BodyInstruction::LocalGet(parameter))?;
    }
    Ok(())
}

fn push_told(out: &mut Vec<BodyInstruction>, call: HookCall) -> Result<(), AllocError>
    ensures { OnOk result (out.new.items ≡ out.old.items ++ spec.told call) }
{
    out.push(BodyInstruction::I32Const(call.number))?;
    out.push(BodyInstruction::Call(call.hook))?;
    Ok(())
}

fn push_perhaps_told(
    out: &mut Vec<BodyInstruction>,
    call: Option<HookCall>,
) -> Result<(), AllocError>
    ensures { OnOk result (out.new.items ≡ out.old.items ++ spec.perhaps_told call) }
{
    match call {
        Some(call) => push_told(out, call),
        None => Ok(()),
    }
}

fn push_step(out: &mut Vec<BodyInstruction>, step: StartStep) -> Result<(), AllocError>
    ensures { OnOk result (out.new.items ≡ out.old.items ++ spec.step_instructions step) }
{
    match step {
        StartStep::InitGlobal(function, global) => {
            out.push(BodyInstruction::RefFunc(function))?;
            out.push(BodyInstruction::GlobalSet(global))?;
        }
        StartStep::Call(function) => out.push(BodyInstruction::Call(function))?,
        StartStep::CallHook(call) => push_told(out, call)?,
    }
    Ok(())
}

fn push_steps(out: &mut Vec<BodyInstruction>, steps: &[StartStep]) -> Result<(), AllocError>
    ensures { OnOk result (out.new.items ≡ out.old.items ++ flat_map spec.step_instructions steps.now) }
{
    for step in steps {
        push_step(out, *step)?;
    }
    Ok(())
}

fn push_hooked(
    out: &mut Vec<BodyInstruction>,
    before: Option<HookCall>,
    count: u32,
    function: u32,
    after: Option<HookCall>,
) -> Result<(), AllocError>
    ensures { OnOk result (out.new.items ≡ out.old.items ++ spec.perhaps_told before ++ spec.parameters count ++ code.Call function ∷ spec.perhaps_told after) }
{
    push_perhaps_told(out, before)?;
    push_parameters(out, count)?;
    out.push(BodyInstruction::Call(function))?;
    push_perhaps_told(out, after)
}

impl GeneratedBody {
    fn push(&self, count: u32, out: &mut Vec<BodyInstruction>) -> Result<(), AllocError>
        ensures { OnOk result (out.new.items ≡ out.old.items ++ spec.instructions_of count (spec.body_shape self.now)) }
    {
        match self {
            GeneratedBody::TrapStub => out.push(BodyInstruction::Unreachable)?,
            GeneratedBody::TableStandIn(slot, ty) => {
                push_parameters(out, count)?;
                out.push(BodyInstruction::I32Const(*slot))?;
                out.push(BodyInstruction::CallIndirect(*ty, 0))?;
            }
            GeneratedBody::ReferenceStandIn(global, ty) => {
                push_parameters(out, count)?;
                out.push(BodyInstruction::GlobalGet(*global))?;
                out.push(BodyInstruction::CallRef(*ty))?;
            }
            GeneratedBody::HookedCall(before, function, after) => {
                push_hooked(out, *before, count, *function, *after)?;
            }
            GeneratedBody::StartCode(steps) => push_steps(out, steps)?,
        }
        Ok(())
    }

    /// Its code, where it has so many parameters.
    pub fn body(&self, parameters: u32, alloc: Global) -> Result<Body, AllocError>
        ensures { IfOk result (λ b. body_value b ≡ spec.instructions_of parameters (spec.body_shape self.now)) }
    {
        let mut instructions = Vec::new(alloc);
        self.push(parameters, &mut instructions)?;
        Ok(Body { instructions })
    }
}
