//! What is found under a name.

ghost use Rattle.std.specs.Prelude.{◌≡◌, OnOk, IfErr};
ghost use Rattle.wit_syntax.specs.AstView as view;
ghost use Rattle.wit_rules.specs.Breaks.{IsKept, IsFaultOf};
ghost use Rattle.wit_lookups.specs.Lookups as spec;

use wit_lookups::Found;
use wit_rules::{PackageFault, PackageRule};
use wit_syntax::Id;

/// Refuses a name under which something else is found than what is asked for, or nothing.
pub fn check_found(found: Found, name: &Id<'_>) -> Result<(), PackageFault>
    ensures ok { OnOk result (IsKept (spec.NameBreaks found (view.id name.now))) }
    ensures cause { IfErr result (IsFaultOf (spec.NameBreaks found (view.id name.now))) }
{
    let rule = match found {
        Found::There => return Ok(()),
        Found::OfAnotherKind => PackageRule::WrongKind,
        Found::Missing => PackageRule::NameNotFound,
    };
    Err(PackageFault::Broken {
        rule,
        span: name.span,
    })
}
