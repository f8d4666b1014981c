//! Productions over the tokens of WIT texts: a cursor, lists, names of packages, paths and types.
#![tactic(auto)]

mod cursor;
mod fault;
mod list;
mod names;
mod parse_names;
mod parse_types;
mod text;
mod types;

pub use cursor::{Cursor, fault_at};
pub use fault::{Fault, ReadError};
pub use list::{Part, all, commas, until};
pub use names::{Id, PackageName, UsePath, Version};
pub use parse_names::{package_name, path_behind, use_path};
pub use parse_types::any_type;
pub use text::{end_of, parse_type, parse_use_path, placed};
pub use types::{Type, TypeKind};
pub use wit_tokens::{
    Comment, Docs, DocumentedToken, Kind, NameKey, Rule, SourceFault, SourceMap, Span,
    SpannedToken, SyntaxFault, Token, Tokens, is_identifier, is_read_by_semver, law_a_break_is_one,
    law_name_keys_fold_as_names_do, law_one_list_of_tokens, law_semver_reads_versions,
    law_tokens_are_slices, read_tokens, validate_id,
};
