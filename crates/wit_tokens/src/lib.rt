//! The tokens of WIT texts. What they are made of, which `wit_words` has, is offered here too.
#![tactic(auto)]

mod law;
mod lex;
mod token_iterator;
mod tokens;

pub use law::{law_a_break_is_one, law_one_list_of_tokens, law_tokens_are_slices};
pub use token_iterator::{SpannedToken, Tokens};
pub use tokens::read_tokens;
pub use wit_words::{
    Comment, Docs, DocumentedToken, Kind, NameKey, Rule, SourceFault, SourceMap, Span, SyntaxFault,
    Token, is_identifier, is_read_by_semver, law_name_keys_fold_as_names_do,
    law_semver_reads_versions, same_kind, validate_id,
};
