//! Worlds.

use crate::shift::{Placed, Shift, move_all, move_values};
use wit_types::{World, WorldInclude, WorldItem};

impl Placed for WorldInclude {
    ghost use Rattle.wit_offsets.specs.Offsets.{include_by, include_spans};

    ghost by = { include_by };

    ghost spans = { include_spans };

    fn move_by(&mut self, shift: &mut Shift) {
        self.span.move_by(shift);
    }
}

impl Placed for WorldItem {
    ghost use Rattle.wit_offsets.specs.Offsets.{item_by, item_spans};

    ghost by = { item_by };

    ghost spans = { item_spans };

    fn move_by(&mut self, shift: &mut Shift) {
        match self {
            WorldItem::Interface { span, .. } => span.move_by(shift),
            WorldItem::Function(function) => function.move_by(shift),
            WorldItem::TypeItem { span, .. } => span.move_by(shift),
        }
    }
}

impl Placed for World {
    ghost use Rattle.wit_offsets.specs.Offsets.{world_by, world_spans};

    ghost by = { world_by };

    ghost spans = { world_spans };

    fn move_by(&mut self, shift: &mut Shift) {
        self.span.move_by(shift);
        move_values(&mut self.imports, shift);
        move_values(&mut self.exports, shift);
        move_all(self.includes.as_mut_slice(), shift);
    }
}
