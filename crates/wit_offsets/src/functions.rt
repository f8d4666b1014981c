//! Functions.

use crate::shift::{Placed, Shift, move_all};
use wit_types::{Function, Param};

impl Placed for Param {
    ghost use Rattle.wit_offsets.specs.Offsets.{param_by, param_spans};

    ghost by = { param_by };

    ghost spans = { param_spans };

    fn move_by(&mut self, shift: &mut Shift) {
        self.span.move_by(shift);
    }
}

impl Placed for Function {
    ghost use Rattle.wit_offsets.specs.Offsets.{function_by, function_spans};

    ghost by = { function_by };

    ghost spans = { function_spans };

    fn move_by(&mut self, shift: &mut Shift) {
        self.span.move_by(shift);
        move_all(self.params.as_mut_slice(), shift);
    }
}
