//! What generated functions do, by their instructions.

ghost use Rattle.std.specs.Prelude.{◌≡◌, ◌++◌, ◌∷◌, ℕ, List, Some, false, option_map, IfSome, IfOk};
ghost use Rattle.wasm_bodies.specs.declared.generated.StartStep.{StartStep as StepValue};
ghost use Rattle.wasm_bodies.specs.declared.instructions.BodyInstruction.TheVariants as code;
ghost use Rattle.wasm_bodies.specs.Generated as spec;

use crate::generated::{GeneratedBody, HookCall, StartStep};
use crate::instructions::BodyInstruction;
use std::alloc::{AllocError, Global};

/// What stands behind this parameter, where it is handed on first.
fn behind_one(parameter: usize, instructions: &[BodyInstruction]) -> Option<&[BodyInstruction]>
    ensures value { option_map (λ r. r.now) result ≡ spec.behind_one parameter instructions.now }
    ensures front { IfSome result (λ r. instructions.now ≡ code.LocalGet parameter ∷ r.now) }
{
    match instructions {
        [BodyInstruction::LocalGet(local), rest @ ..] if *local as usize == parameter => Some(rest),
        _ => None,
    }
}

/// What stands behind so many parameters that are handed on, where they stand first.
fn behind_parameters(instructions: &[BodyInstruction], count: usize) -> Option<&[BodyInstruction]>
    ensures value { option_map (λ r. r.now) result ≡ spec.behind count instructions.now }
    ensures front { IfSome result (λ r. instructions.now ≡ spec.parameters count ++ r.now) }
{
    let mut rest = instructions;
    for parameter in 0..count {
        rest = behind_one(parameter, rest)?;
    }
    Some(rest)
}

/// The hook that is told a number last, if one is, where nothing else stands.
fn told_last(instructions: &[BodyInstruction]) -> Option<Option<HookCall>>
    ensures value { result ≡ spec.told_last instructions.now }
    ensures found { IfSome result (λ after. instructions.now ≡ spec.perhaps_told after) }
{
    match instructions {
        [] => Some(None),
        [
            BodyInstruction::I32Const(number),
            BodyInstruction::Call(hook),
        ] => Some(Some(HookCall {
            number: *number,
            hook: *hook,
        })),
        _ => None,
    }
}

/// A call, and what a hook is told behind it.
fn call_at(before: Option<HookCall>, instructions: &[BodyInstruction]) -> Option<GeneratedBody>
    ensures value { option_map spec.body_shape result ≡ spec.call_at before instructions.now }
    ensures written { (n : ℕ) → IfSome result (λ b. spec.instructions_of n (spec.body_shape b) ≡ spec.perhaps_told before ++ spec.parameters n ++ instructions.now) }
    ensures plain { IfSome result (λ b. spec.is_start_code (spec.body_shape b) ≡ false) }
{
    match instructions {
        [BodyInstruction::Call(function), after @ ..] => {
            let after = told_last(after)?;
            Some(GeneratedBody::HookedCall(before, *function, after))
        }
        _ => None,
    }
}

/// What takes the parameters, which stand before.
fn handing_at(instructions: &[BodyInstruction]) -> Option<GeneratedBody>
    ensures value { option_map spec.body_shape result ≡ spec.handing_at instructions.now }
    ensures written { (n : ℕ) → IfSome result (λ b. spec.instructions_of n (spec.body_shape b) ≡ spec.parameters n ++ instructions.now) }
    ensures plain { IfSome result (λ b. spec.is_start_code (spec.body_shape b) ≡ false) }
{
    match instructions {
        [
            BodyInstruction::I32Const(slot),
            BodyInstruction::CallIndirect(ty, 0),
        ] => { Some(GeneratedBody::TableStandIn(*slot, *ty)) }
        [
            BodyInstruction::GlobalGet(global),
            BodyInstruction::CallRef(ty),
        ] => { Some(GeneratedBody::ReferenceStandIn(*global, *ty)) }
        _ => call_at(None, instructions),
    }
}

fn body_at(parameters: usize, instructions: &[BodyInstruction]) -> Option<GeneratedBody>
    ensures value { option_map spec.body_shape result ≡ spec.body_at parameters instructions.now }
    ensures found { IfSome result (λ b. spec.IsBody parameters instructions.now (spec.body_shape b)) }
{
    match instructions {
        [BodyInstruction::Unreachable] => Some(GeneratedBody::TrapStub),
        [
            BodyInstruction::I32Const(number),
            BodyInstruction::Call(hook),
            rest @ ..,
        ] => {
            let before = Some(HookCall {
                number: *number,
                hook: *hook,
            });
            call_at(before, behind_parameters(rest, parameters)?)
        }
        _ => handing_at(behind_parameters(instructions, parameters)?),
    }
}

impl GeneratedBody {
    /// What a function of so many parameters does that has these instructions and isn't the one that starts its module; none
    /// where no generated function has them.
    pub fn of_instructions(
        instructions: &[BodyInstruction],
        parameters: usize,
    ) -> Option<GeneratedBody>
        ensures found { IfSome result (λ b. spec.IsBody parameters instructions.now (spec.body_shape b)) }
        ensures only { (b : spec.BodyShape) → spec.IsBody parameters instructions.now b → option_map spec.body_shape result ≡ Some b }
    {
        body_at(parameters, instructions)
    }
}

/// What start code does first, and what stands behind that.
fn step_at(instructions: &[BodyInstruction]) -> Option<(StartStep, &[BodyInstruction])>
    ensures value { option_map (λ r. (r.0, r.1.now)) result ≡ spec.step_at instructions.now }
    ensures found { IfSome result (λ r. instructions.now ≡ spec.step_instructions r.0 ++ r.1.now) }
{
    match instructions {
        [
            BodyInstruction::RefFunc(function),
            BodyInstruction::GlobalSet(global),
            rest @ ..,
        ] => { Some((StartStep::InitGlobal(*function, *global), rest)) }
        [BodyInstruction::Call(function), rest @ ..] => Some((StartStep::Call(*function), rest)),
        [
            BodyInstruction::I32Const(number),
            BodyInstruction::Call(hook),
            rest @ ..,
        ] => {
            let call = HookCall {
                number: *number,
                hook: *hook,
            };
            Some((StartStep::CallHook(call), rest))
        }
        _ => None,
    }
}

/// The steps of start code that has these instructions; none where no start code has them.
pub fn start_steps(
    alloc: Global,
    instructions: &[BodyInstruction],
) -> Result<Option<Vec<StartStep>>, AllocError>
    ensures found { IfOk result (λ r. IfSome r (λ v. spec.IsStartCode instructions.now v.items)) }
    ensures only { (ss : List StepValue) → spec.IsStartCode instructions.now ss → IfOk result (λ r. option_map (λ v. v.items) r ≡ Some ss) }
{
    let mut steps = Vec::new(alloc);
    let mut rest = instructions;
    while !rest.is_empty() {
        match step_at(rest) {
            Some((step, more)) => {
                steps.push(step)?;
                rest = more;
            }
            None => return Ok(None),
        }
    }
    Ok(Some(steps))
}
