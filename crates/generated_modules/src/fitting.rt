//! How all of a generated module hangs together.

ghost use Rattle.std.specs.Prelude.{◌≡◌, option_map, slice_get};
ghost use Rattle.std.specs.List.{list_all};
ghost use Rattle.wasm_types.specs.Types.{func_type_value};
ghost use Rattle.wasm_bodies.specs.declared.generated.StartStep.TheVariants as steps;
ghost use Rattle.wasm_bodies.specs.Generated.{body_shape};
ghost use Rattle.generated_modules.specs.Parts.{parts_value};
ghost use Rattle.generated_modules.specs.Shape as spec;

use crate::parts::Parts;
use generated_sections::Held;
use wasm_bodies::{GeneratedBody, HookCall, StartStep};
use wasm_types::{Code, FuncType, ValType};

/// Whether value types are equal, in the same order.
fn same_values(a: &[ValType], b: &[ValType]) -> bool
    ensures { result ≡ spec.same_values a.now b.now }
{
    if a.len() != b.len() {
        return false;
    }
    for (place, value) in a.iter().enumerate() {
        if value.byte() != b[place].byte() {
            return false;
        }
    }
    true
}

fn same_function(a: &FuncType, b: &FuncType) -> bool
    ensures { result ≡ spec.same_function (func_type_value a.now) (func_type_value b.now) }
{
    same_values(&a.params, &b.params) && same_values(&a.results, &b.results)
}

/// Whether something is there that is of this type.
pub fn is_type(found: Option<&FuncType>, asked: &FuncType) -> bool
    ensures { result ≡ spec.is_type (option_map (λ t. func_type_value t.now) found.entry) (func_type_value asked.now) }
{
    match found {
        Some(found) => same_function(found, asked),
        None => false,
    }
}

/// Whether a function is there that takes nothing and gives nothing.
pub fn is_plain(found: Option<&FuncType>) -> bool
    ensures { result ≡ spec.is_type (option_map (λ t. func_type_value t.now) found.entry) spec.plain_type }
{
    match found {
        Some(found) => same_values(&found.params, &[]) && same_values(&found.results, &[]),
        None => false,
    }
}

/// Whether a function is there that takes a number and gives nothing.
fn is_hook_type(found: Option<&FuncType>) -> bool
    ensures { result ≡ spec.is_type (option_map (λ t. func_type_value t.now) found.entry) spec.hook_type }
{
    match found {
        Some(found) => {
            same_values(&found.params, &[ValType::I32]) && same_values(&found.results, &[])
        }
        None => false,
    }
}

impl Parts<'_> {
    /// The type at an index.
    pub fn type_at(&self, ty: u32) -> Option<&FuncType>
        ensures { option_map (λ t. func_type_value t.now) result ≡ spec.type_at (parts_value self.now) ty }
    {
        self.types.get(ty as usize)
    }

    /// The type of the function at an index.
    pub fn type_of(&self, function: u32) -> Option<&FuncType>
        ensures { option_map (λ t. func_type_value t.now) result ≡ spec.type_of (parts_value self.now) function }
    {
        let ty = self.function_space.get(function as usize)?;
        self.types.get(*ty as usize)
    }

    /// Whether the first table has this slot.
    fn is_slot(&self, slot: i32) -> bool
        ensures { result ≡ spec.is_slot (parts_value self.now) slot }
    {
        match self.table_space.first() {
            Some(table) => slot >= 0 && (slot as u32) < table.size,
            None => false,
        }
    }

    /// Whether a global refers to functions of this type.
    fn refers_to(&self, global: u32, ty: &FuncType) -> bool
        ensures { result ≡ spec.refers_to (parts_value self.now) global (func_type_value ty.now) }
    {
        match self.global_space.get(global as usize) {
            Some(global) => match global.held {
                Held::Reference(held) => is_type(self.type_at(held), ty),
                Held::Value(_) => false,
            },
            None => false,
        }
    }

    fn can_change(&self, global: u32) -> bool
        ensures { result ≡ spec.can_change (slice_get (parts_value self.now).global_space global) }
    {
        match self.global_space.get(global as usize) {
            Some(global) => global.mutability.byte() == 1,
            None => false,
        }
    }

    fn is_hook(&self, call: Option<HookCall>) -> bool
        ensures { result ≡ spec.is_hook (parts_value self.now) call }
    {
        match call {
            Some(call) => is_hook_type(self.type_of(call.hook)),
            None => true,
        }
    }

    /// Whether a function goes into a global of its type, and stands in an export, a segment or a global.
    fn inits(&self, marks: &[bool], function: u32, global: u32) -> bool
        requires { spec.AreMarks (parts_value self.now) marks.now }
        ensures { result ≡ spec.step_fits (parts_value self.now) (steps.InitGlobal function global) }
    {
        match self.type_of(function) {
            Some(ty) => {
                self.refers_to(global, ty) && self.can_change(global) && marks[function as usize]
            }
            None => false,
        }
    }

    fn step_fits(&self, marks: &[bool], step: StartStep) -> bool
        requires { spec.AreMarks (parts_value self.now) marks.now }
        ensures { result ≡ spec.step_fits (parts_value self.now) step }
    {
        match step {
            StartStep::InitGlobal(function, global) => self.inits(marks, function, global),
            StartStep::Call(function) => is_plain(self.type_of(function)),
            StartStep::CallHook(call) => is_hook_type(self.type_of(call.hook)),
        }
    }

    fn steps_fit(&self, marks: &[bool], steps: &[StartStep]) -> bool
        requires { spec.AreMarks (parts_value self.now) marks.now }
        ensures { result ≡ list_all (spec.step_fits (parts_value self.now)) steps.now }
    {
        for step in steps {
            if !self.step_fits(marks, *step) {
                return false;
            }
        }
        true
    }

    /// Whether what a function of this type names has its type.
    pub fn body_fits(&self, marks: &[bool], ty: &FuncType, body: &GeneratedBody) -> bool
        requires { spec.AreMarks (parts_value self.now) marks.now }
        ensures { result ≡ spec.body_fits (parts_value self.now) (func_type_value ty.now) (body_shape body.now) }
    {
        match body {
            GeneratedBody::TrapStub => true,
            GeneratedBody::TableStandIn(slot, called) => {
                is_type(self.type_at(*called), ty) && self.is_slot(*slot)
            }
            GeneratedBody::ReferenceStandIn(global, called) => {
                is_type(self.type_at(*called), ty) && self.refers_to(*global, ty)
            }
            GeneratedBody::HookedCall(before, function, after) => {
                self.is_hook(*before)
                    && is_type(self.type_of(*function), ty)
                    && self.is_hook(*after)
            }
            GeneratedBody::StartCode(steps) => is_plain(Some(ty)) && self.steps_fit(marks, steps),
        }
    }
}
