//! Laws: a package that a graph takes had no cause to be refused.
#![tactic(auto)]

mod asked;
mod law;

pub use asked::{
    law_deps_ask_for_one, law_moved_packages_ask_for_one, law_parsed_packages_ask_for_one,
    law_resolved_packages_ask_for_one,
};
pub use law::{
    law_groups_together_have_no_cause, law_groups_together_say_the_same,
    law_pushed_graphs_say_the_same, law_pushed_packages_have_no_cause,
    law_pushed_packages_have_no_cause_elsewhere, law_saying_the_same_is_an_equivalence,
};
