//! Docs.

ghost use Rattle.std.specs.Prelude.{◌≡◌, IfOk};
ghost use Rattle.wit_type_names.specs.Passed.wit_productions-NameView.{docs as written};
ghost use Rattle.wit_arena.specs.Docs.{said, contents_of};

use std::alloc::{AllocError, Global};
use wit_types::Docs;

/// What is said of something, without the marks of its comments: nothing where it has none.
pub fn docs_of(alloc: Global, docs: &wit_type_names::Docs<'_>) -> Result<Docs, AllocError>
    ensures { IfOk result (λ d. contents_of d ≡ said (written docs.now)) }
{
    if docs.is_empty() {
        return Ok(Docs { contents: None });
    }
    let contents = docs.contents(alloc)?;
    Ok(Docs {
        contents: Some(contents),
    })
}
