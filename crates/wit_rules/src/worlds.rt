//! The paths in worlds.

ghost use Rattle.std.specs.Prelude.{◌≡◌, IfOk};
ghost use Rattle.std.specs.Cow.{cow_str_bytes};
ghost use Rattle.wit_scopes.specs.View as scope_view;
ghost use Rattle.wit_rules.specs.Labels as names;

use std::alloc::{AllocError, Global};
use std::borrow::CowStr;
use wit_scopes::Target;

/// What a path names, in full.
pub fn target_text<'a>(alloc: Global, target: &Target<'a>) -> Result<CowStr<'a>, AllocError>
    ensures { IfOk result (λ t. cow_str_bytes t ≡ names.target_text (scope_view.target target.now)) }
{
    match target {
        Target::Own(name) => Ok(CowStr::Borrowed(name.name)),
        Target::Foreign { package, name } => {
            let namespace = package.namespace.name;
            let id = package.name.name;
            let name = name.name;
            let text = match package.version {
                None => format!(in alloc; "{namespace}:{id}/{name}")?,
                Some(version) => {
                    let version = version.text;
                    format!(in alloc; "{namespace}:{id}/{name}@{version}")?
                }
            };
            Ok(CowStr::Owned(text))
        }
    }
}
