//! Laws: names in texts have none of the marks that stand between names.
#![tactic(auto)]

mod law;

pub use law::{
    law_identifiers_are_plain, law_names_of_texts_are_plain, law_nested_files_are_plain,
    law_packages_are_plain, law_scopes_are_plain,
};
