//! Generated modules.

ghost use Rattle.std.specs.Prelude.{◌≡◌, [], List, Some, map, option_map, option_and_then, IfOk, IfSome};
ghost use Rattle.std.specs.List.{list_all};
ghost use Rattle.wasm_types.specs.Types.{func_type_value};
ghost use Rattle.wasm_types.specs.Entries.{export_value};
ghost use Rattle.distinct_names.specs.Names.{all_new};
ghost use Rattle.wasm_bodies.specs.Generated.{BodyShape, body_shape};
ghost use Rattle.wasm_bodies.specs.Segments.{element_value};
ghost use Rattle.generated_modules.specs.Parts.{parts_value};
ghost use Rattle.generated_modules.specs.Shape as spec;
ghost use Rattle.generated_modules.specs.Shape.{Shape, shape_value};

use crate::fitting::{is_plain, is_type};
use crate::named::marks;
use crate::parts::Parts;
use distinct_names::Names;
use generated_sections::SlotGlobal;
use std::alloc::{AllocError, Global};
use wasm_bodies::{BodyInstruction, ElementSegment, GeneratedBody, start_steps};
use wasm_types::{Export, FuncType};

/// A generated module: what it is made of, and what each of its functions does.
#[derive(Drop)]
pub struct GeneratedModule<'a> {
    /// What it is made of.
    pub parts: Parts<'a>,
    /// What each function of its own does, in their order.
    pub bodies: Vec<GeneratedBody>,
}

/// What a function of so many parameters does that has these instructions, if a generated one has them: start code where the
/// module starts with it, and something else where it doesn't.
fn body_of(
    alloc: Global,
    starts: bool,
    parameters: usize,
    instructions: &[BodyInstruction],
) -> Result<Option<GeneratedBody>, AllocError>
    ensures found { IfOk result (λ r. IfSome r (λ b. spec.Does starts parameters instructions.now (body_shape b))) }
    ensures only { (b : BodyShape) → spec.Does starts parameters instructions.now b → IfOk result (λ r. option_map body_shape r ≡ Some b) }
{
    if !starts {
        return Ok(GeneratedBody::of_instructions(instructions, parameters));
    }
    match start_steps(alloc, instructions)? {
        Some(steps) => Ok(Some(GeneratedBody::StartCode(steps))),
        None => Ok(None),
    }
}

impl Parts<'_> {
    /// The place among the module's own functions; none of an imported one.
    fn own_place(&self, function: u32) -> Option<usize>
        ensures { result ≡ spec.own_place (parts_value self.now) function }
    {
        let imported = self
            .function_space
            .len()
            .saturating_sub(self.functions.len());
        (function as usize).checked_sub(imported)
    }

    /// Whether the module starts with its own function at this place.
    fn starts_at(&self, place: usize) -> bool
        ensures { result ≡ spec.starts_at (parts_value self.now) place }
    {
        match self.start {
            Some(function) => match self.own_place(function) {
                Some(own) => own == place,
                None => false,
            },
            None => false,
        }
    }

    /// The type of its own function at this place.
    fn function_at(&self, place: usize) -> Option<&FuncType>
        ensures { option_map (λ t. func_type_value t.now) result ≡ spec.function_at (parts_value self.now) place }
    {
        match self.functions.get(place) {
            Some(ty) => self.type_at(ty.0),
            None => self.type_at(0),
        }
    }

    /// The instructions of its own function at this place.
    fn code_at(&self, place: usize) -> &[BodyInstruction]
        ensures { result.now ≡ spec.code_at (parts_value self.now) place }
    {
        match self.code.get(place) {
            Some(body) => body.0.instructions.as_slice(),
            None => &[],
        }
    }

    /// What its own function at this place does.
    fn own_body(
        &self,
        alloc: Global,
        marks: &[bool],
        place: usize,
    ) -> Result<Option<GeneratedBody>, AllocError>
        requires { spec.AreMarks (parts_value self.now) marks.now }
        ensures found { IfOk result (λ r. IfSome r (λ b. spec.IsOwn (parts_value self.now) place (spec.function_at (parts_value self.now) place) (spec.code_at (parts_value self.now) place) (body_shape b))) }
        ensures only { (b : BodyShape) → spec.IsOwn (parts_value self.now) place (spec.function_at (parts_value self.now) place) (spec.code_at (parts_value self.now) place) b → IfOk result (λ r. option_map body_shape r ≡ Some b) }
    {
        let Some(ty) = self.function_at(place) else {
            return Ok(None);
        };
        let starts = self.starts_at(place);
        match body_of(alloc, starts, ty.params.len(), self.code_at(place))? {
            Some(body) if self.body_fits(marks, ty, &body) => Ok(Some(body)),
            _ => Ok(None),
        }
    }

    /// What each of its own functions does.
    fn bodies(
        &self,
        alloc: Global,
        marks: &[bool],
    ) -> Result<Option<Vec<GeneratedBody>>, AllocError>
        requires { spec.AreMarks (parts_value self.now) marks.now }
        ensures found { IfOk result (λ r. IfSome r (λ v. spec.AreOwn (parts_value self.now) 0 (parts_value self.now).functions (parts_value self.now).code (map body_shape v.items))) }
        ensures only { (bs : List BodyShape) → spec.AreOwn (parts_value self.now) 0 (parts_value self.now).functions (parts_value self.now).code bs → IfOk result (λ r. option_map (λ v. map body_shape v.items) r ≡ Some bs) }
    {
        let count = self.functions.as_slice().len();
        if count != self.code.as_slice().len() {
            return Ok(None);
        }
        let mut bodies = Vec::new(alloc);
        for place in 0..count {
            match self.own_body(alloc, marks, place)? {
                Some(body) => bodies.push(body)?,
                None => return Ok(None),
            }
        }
        Ok(Some(bodies))
    }

    /// Whether a segment begins the first table, and is no longer than it.
    fn element_fits(&self, element: &ElementSegment) -> bool
        ensures { result ≡ spec.element_fits (parts_value self.now) (element_value element.now) }
    {
        match element {
            ElementSegment::Active(offset, functions) => match self.table_space.first() {
                Some(table) => *offset == 0 && functions.len() <= table.size as usize,
                None => false,
            },
            ElementSegment::ActiveIn(_, _, _) => false,
            ElementSegment::Declared(_) => true,
        }
    }

    fn elements_fit(&self) -> bool
        ensures { result ≡ list_all (spec.element_fits (parts_value self.now)) (parts_value self.now).elements }
    {
        for element in self.elements.as_slice() {
            if !self.element_fits(element) {
                return false;
            }
        }
        true
    }

    fn start_fits(&self) -> bool
        ensures { result ≡ spec.start_fits (parts_value self.now) }
    {
        match self.start {
            Some(function) => is_plain(self.type_of(function)),
            None => true,
        }
    }
}

fn are_distinct(alloc: Global, exports: &[Export<'_>]) -> Result<bool, AllocError>
    ensures { IfOk result (λ b. b ≡ all_new [] (map (λ e. e.name) (map export_value exports.now))) }
{
    let mut names = Names::new(alloc);
    for export in exports {
        if !names.is_new(export.name) {
            return Ok(false);
        }
        names.add(export.name)?;
    }
    Ok(true)
}

impl GeneratedModule<'_> {
    fn is_trap_stub(&self, function: u32) -> bool
        ensures { result ≡ spec.is_trap (spec.own_body (shape_value self.now) function) }
    {
        match self.parts.own_place(function) {
            Some(place) => matches!(self.bodies.get(place), Some(GeneratedBody::TrapStub)),
            None => false,
        }
    }

    /// Whether a global begins at a trap stub of its type.
    fn slot_fits(&self, global: SlotGlobal) -> bool
        ensures { result ≡ spec.slot_fits (shape_value self.now) global }
    {
        match self.parts.type_at(global.ty) {
            Some(ty) => self.is_trap_stub(global.stub)
                && is_type(self.parts.type_of(global.stub), ty),
            None => false,
        }
    }

    fn slots_fit(&self) -> bool
        ensures { result ≡ list_all (spec.slot_fits (shape_value self.now)) (parts_value self.now.parts).globals }
    {
        for global in self.parts.globals.as_slice() {
            if !self.slot_fits(*global) {
                return false;
            }
        }
        true
    }

    /// Whether globals, segments and the start fit, and names are distinct.
    fn hangs_together(&self, alloc: Global) -> Result<bool, AllocError>
        ensures { IfOk result (λ b. b ≡ spec.hangs_together (shape_value self.now)) }
    {
        if !self.slots_fit() || !self.parts.elements_fit() || !self.parts.start_fits() {
            return Ok(false);
        }
        are_distinct(alloc, &self.parts.exports)
    }
}

/// The generated module that has these parts, if one has.
pub fn module_of<'a>(
    alloc: Global,
    parts: Parts<'a>,
) -> Result<Option<GeneratedModule<'a>>, AllocError>
    ensures found { IfOk result (λ r. IfSome r (λ m. spec.IsShape (parts_value parts.entry) (shape_value m))) }
    ensures only { (s : Shape) → spec.IsShape (parts_value parts.entry) s → IfOk result (λ r. option_map shape_value r ≡ Some s) }
{
    let marks = marks(alloc, &parts)?;
    let Some(bodies) = parts.bodies(alloc, &marks)? else {
        return Ok(None);
    };
    let module = GeneratedModule { parts, bodies };
    if module.hangs_together(alloc)? {
        Ok(Some(module))
    } else {
        Ok(None)
    }
}
