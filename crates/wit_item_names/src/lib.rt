//! Laws: items of a graph of packages have names that tell them apart.
#![tactic(auto)]

mod law;

pub use law::{
    law_added_worlds_are_plain, law_added_worlds_use_named, law_found_are_named,
    law_names_tell_interfaces_apart, law_placed_are_named_apart, law_placed_tables_name_named,
    law_placed_use_named, law_placed_worlds_are_plain, law_pushed_are_used_named,
    law_pushed_items_are_named,
};
