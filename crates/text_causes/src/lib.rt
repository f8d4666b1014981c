//! Laws: packages and texts that are there had no cause to be refused.
#![tactic(auto)]

mod law;

pub use law::{
    law_pushed_groups_have_no_cause, law_pushed_packages_have_no_cause,
    law_pushed_texts_have_no_cause,
};
