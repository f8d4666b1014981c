//! Laws: what the texts of a package mean is what its names stand for in a graph to which it was pushed.
#![tactic(auto)]

mod law;

pub use law::{
    law_asked_items_are_found_by_name, law_asked_types_stand_for_the_same,
    law_empty_graphs_are_meant, law_empty_graphs_are_owned, law_empty_graphs_have_names_stand,
    law_empty_graphs_have_types_known, law_empty_worlds_are_meant, law_empty_worlds_are_said,
    law_equal_names_are_the_same, law_graphs_give_their_names, law_known_types_stand_alone,
    law_moved_packages_ask_by_name, law_moved_packages_have_owners,
    law_moved_packages_have_their_items, law_moved_packages_mean_their_texts,
    law_moved_types_are_known, law_moved_worlds_are_named_apart, law_pushed_graphs_are_owned,
    law_pushed_graphs_have_names_stand, law_pushed_graphs_have_trees,
    law_pushed_graphs_keep_what_was, law_pushed_graphs_mean_their_texts,
    law_pushed_interfaces_mean_their_texts, law_pushed_packages_are_agreed,
    law_pushed_packages_are_said, law_pushed_packages_list_their_items, law_pushed_types_are_known,
    law_pushed_types_stand_for_the_same, law_pushed_worlds_are_meant, law_pushed_worlds_are_said,
    law_pushed_worlds_mean_their_texts, law_resolved_packages_are_of_texts,
    law_resolved_packages_ask_by_name, law_resolved_packages_have_owners,
    law_resolved_packages_have_their_items, law_resolved_packages_mean_their_texts,
    law_resolved_types_are_known, law_resolved_worlds_are_named_apart,
};
