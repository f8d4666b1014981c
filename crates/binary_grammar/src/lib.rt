//! Binary grammars: what they are made of, and how what they relate is read and written.
#![tactic(auto)]

mod content;
mod fault;
mod law;
mod part;
mod reader;
mod reading;
mod signed_number;
mod steps;
mod writing;

pub use content::{Content, bounded_of, exactly_of, put_content, whole_vec_of};
pub use fault::{Fault, ReadError, Rule};
pub use law::{
    law_a_break_is_one, law_a_break_stays, law_a_content_break_is_one, law_a_content_break_stays,
    law_content_written_is_read, law_offset_is_the_front, law_written_is_read,
};
pub use part::{Part, put_section, put_vec, vec_of};
pub use reader::{Reader, broken_at};
pub use reading::moved;
pub use signed_number::{put_signed, signed_of};
pub use steps::{
    Instruction, Step, bounded_growing_of, growing_of, put_up_to, steps_of, up_to_of,
    whole_growing_of,
};
pub use writing::{WriteFault, put_name, put_number, put_with_length};
