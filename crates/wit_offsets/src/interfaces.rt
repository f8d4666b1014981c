//! Interfaces.

use crate::shift::{Placed, Shift, move_values};
use wit_types::Interface;

impl Placed for Interface {
    ghost use Rattle.wit_offsets.specs.Offsets.{interface_by, interface_spans};

    ghost by = { interface_by };

    ghost spans = { interface_spans };

    fn move_by(&mut self, shift: &mut Shift) {
        self.span.move_by(shift);
        move_values(&mut self.functions, shift);
    }
}
