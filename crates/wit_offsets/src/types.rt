//! Definitions of types.

use crate::shift::{Placed, Shift, move_all};
use wit_types::{Case, EnumCase, Field, Flag, TypeDef, TypeDefKind};

impl Placed for Field {
    ghost use Rattle.wit_offsets.specs.Offsets.{field_by, field_spans};

    ghost by = { field_by };

    ghost spans = { field_spans };

    fn move_by(&mut self, shift: &mut Shift) {
        self.span.move_by(shift);
    }
}

impl Placed for Case {
    ghost use Rattle.wit_offsets.specs.Offsets.{case_by, case_spans};

    ghost by = { case_by };

    ghost spans = { case_spans };

    fn move_by(&mut self, shift: &mut Shift) {
        self.span.move_by(shift);
    }
}

impl Placed for Flag {
    ghost use Rattle.wit_offsets.specs.Offsets.{flag_by, flag_spans};

    ghost by = { flag_by };

    ghost spans = { flag_spans };

    fn move_by(&mut self, shift: &mut Shift) {
        self.span.move_by(shift);
    }
}

impl Placed for EnumCase {
    ghost use Rattle.wit_offsets.specs.Offsets.{enum_case_by, enum_case_spans};

    ghost by = { enum_case_by };

    ghost spans = { enum_case_spans };

    fn move_by(&mut self, shift: &mut Shift) {
        self.span.move_by(shift);
    }
}

impl Placed for TypeDefKind {
    ghost use Rattle.wit_offsets.specs.Offsets.{kind_by, kind_spans};

    ghost by = { kind_by };

    ghost spans = { kind_spans };

    fn move_by(&mut self, shift: &mut Shift) {
        match self {
            TypeDefKind::Record(record) => move_all(record.fields.as_mut_slice(), shift),
            TypeDefKind::Flags(flags) => move_all(flags.flags.as_mut_slice(), shift),
            TypeDefKind::Variant(variant) => move_all(variant.cases.as_mut_slice(), shift),
            TypeDefKind::Enum(labels) => move_all(labels.cases.as_mut_slice(), shift),
            TypeDefKind::Resource
            | TypeDefKind::Handle(_)
            | TypeDefKind::Tuple(_)
            | TypeDefKind::Option(_)
            | TypeDefKind::Result(_)
            | TypeDefKind::List(_)
            | TypeDefKind::FixedLengthList(_, _)
            | TypeDefKind::Future(_)
            | TypeDefKind::Stream(_)
            | TypeDefKind::Alias(_)
            | TypeDefKind::Unknown => {}
        }
    }
}

impl Placed for TypeDef {
    ghost use Rattle.wit_offsets.specs.Offsets.{type_def_by, type_def_spans};

    ghost by = { type_def_by };

    ghost spans = { type_def_spans };

    fn move_by(&mut self, shift: &mut Shift) {
        self.span.move_by(shift);
        self.kind.move_by(shift);
    }
}
