//! What WIT texts are made of: kinds of tokens, identifiers, versions, docs, the keys of names, places in texts, and why a
//! text isn't taken.
#![tactic(auto)]

mod docs;
mod fault;
mod identifier;
mod keywords;
mod law;
mod name_key;
mod source_map;
mod token;
mod version;

pub use docs::Docs;
pub use fault::{Rule, SyntaxFault};
pub use identifier::{is_identifier, validate_id};
pub use keywords::keyword;
pub use law::law_semver_reads_versions;
pub use name_key::{NameKey, law_name_keys_fold_as_names_do};
pub use source_map::{SourceFault, SourceMap, SourceNames, Span};
pub use token::{Comment, DocumentedToken, Kind, Token, same_kind};
pub use version::{is_read_by_semver, version_len};
