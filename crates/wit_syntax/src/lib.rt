//! WIT texts and their trees. Tokens are read in `wit_tokens`, types and names of packages in `wit_productions`, items in
//! `wit_items`.
#![tactic(auto)]

mod ast;
mod law;
mod parse_files;
mod parse_worlds;
mod paths;
mod text;

pub use ast::{
    AstItem, ExternKind, File, FileItem, Include, IncludeName, Package, PackageHeader, World,
    WorldItem,
};
pub use law::{law_a_fault_denies_a_tree, law_one_reading};
pub use paths::{FilePath, PathRole};
pub use text::parse_file;
pub use wit_items::{
    Attribute, Case, EnumCase, Field, Flag, Func, Gate, Gated, Interface, InterfaceItem, NamedFunc,
    Param, ResourceFunc, ToplevelUse, TypeDef, TypeDefKind, Use, UseName,
};
pub use wit_productions::{
    Comment, Docs, Id, Kind, NameKey, PackageName, Rule, SourceFault, SourceMap, Span,
    SpannedToken, SyntaxFault, Token, Tokens, Type, TypeKind, UsePath, Version, is_identifier,
    is_read_by_semver, law_a_break_is_one, law_name_keys_fold_as_names_do, law_one_list_of_tokens,
    law_semver_reads_versions, law_tokens_are_slices, parse_type, parse_use_path, validate_id,
};
