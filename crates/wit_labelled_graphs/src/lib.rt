//! Laws: names of one scope differ in a graph of packages.
#![tactic(auto)]

mod law;

pub use law::{
    law_empty_graphs_are_labelled, law_empty_graphs_have_named_worlds,
    law_pushed_graphs_are_labelled, law_pushed_graphs_have_named_worlds,
};
