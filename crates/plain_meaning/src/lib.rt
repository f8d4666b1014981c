//! Laws: the few definitions that the linker writes stand for the same among all definitions.
#![tactic(auto)]

mod law;

pub use law::{
    law_exports_are_the_same, law_imports_are_the_same, law_modules_are_right_in_both,
    law_plain_definitions_stand_for_the_same, law_read_modules_have_types,
};
