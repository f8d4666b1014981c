//! Laws: worlds of a graph, with all that they import in the end, are as the link table asks.
#![tactic(auto)]

mod law;

pub use law::{
    law_asked_are_imported, law_functions_are_there, law_needed_are_linked, law_own_are_imported,
    law_own_types_are_listed, law_remembered_may_be_taken, law_worlds_are_importable,
    law_worlds_are_writable, law_worlds_have_texts_apart,
};
pub use wit_graph::law_types_use_earlier;
