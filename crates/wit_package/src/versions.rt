//! Versions of the packages that a package names.

ghost use Rattle.std.specs.Prelude.{◌∷◌, OnOk, IfErr};
ghost use Rattle.wit_syntax.specs.AstView as view;
ghost use Rattle.wit_rules.specs.Breaks.{IsKept, IsFaultOf, VersionWhereBreaks};
ghost use Rattle.wit_placeholders.specs.Passed.wit_foreign-View as asked;
ghost use Rattle.wit_package.specs.Faults.{VersionsBreak, packages_in};

use wit_placeholders::Need;
use wit_rules::{PackageFault, check_version};
use wit_syntax::PackageName;

/// Refuses a name of a package whose version `semver` doesn't read.
fn check_name(name: &PackageName<'_>) -> Result<(), PackageFault>
    ensures ok { OnOk result (IsKept (VersionWhereBreaks (view.package_name name.now).version)) }
    ensures cause { IfErr result (IsFaultOf (VersionWhereBreaks (view.package_name name.now).version)) }
{
    match &name.version {
        Some(version) => check_version(version),
        None => Ok(()),
    }
}

/// Refuses a need whose package has a version that `semver` doesn't read.
fn check_need(need: &Need<'_>) -> Result<(), PackageFault>
    ensures ok { OnOk result (IsKept (VersionWhereBreaks (asked.need need.now).«package».version)) }
    ensures cause { IfErr result (IsFaultOf (VersionWhereBreaks (asked.need need.now).«package».version)) }
{
    check_name(&need.package)
}

/// Refuses names of other packages of which `semver` doesn't read a version.
fn check_needs(needs: &[Need<'_>]) -> Result<(), PackageFault>
    ensures ok { OnOk result (IsKept (VersionsBreak (packages_in (asked.needs needs.now)))) }
    ensures cause { IfErr result (IsFaultOf (VersionsBreak (packages_in (asked.needs needs.now)))) }
{
    for need in needs {
        if let Err(fault) = check_need(need) {
            return Err(fault);
        }
    }
    Ok(())
}

/// Refuses a package of that name which asks that of others, where `semver` doesn't read the version of one of them: S5 at the
/// version.
pub fn check_versions(me: &PackageName<'_>, needs: &[Need<'_>]) -> Result<(), PackageFault>
    ensures ok { OnOk result (IsKept (VersionsBreak (view.package_name me.now ∷ packages_in (asked.needs needs.now)))) }
    ensures cause { IfErr result (IsFaultOf (VersionsBreak (view.package_name me.now ∷ packages_in (asked.needs needs.now)))) }
{
    match check_name(me) {
        Ok(()) => check_needs(needs),
        Err(fault) => Err(fault),
    }
}
