//! How stable items are, by the gates in front of them.

ghost use Rattle.std.specs.Prelude.{◌≡◌, map, Option, option_map, IfOk};
ghost use Rattle.wit_rules.specs.Passed.wit_syntax-AstView as view;
ghost use Rattle.wit_rules.specs.View as rule_view;
ghost use Rattle.wit_package_types.specs.Stability as spec;

use semver::Version;
use std::alloc::{AllocError, Global};
use wit_rules::{Attribute, Front, Gates, gates_of};
use wit_types::Stability;

/// The version that `semver` reads.
fn version_of(alloc: Global, version: &wit_rules::Version<'_>) -> Result<Version, AllocError>
    requires { spec.IsRead (view.version version.now) }
    ensures { IfOk result (spec.IsVersionOf (view.version version.now)) }
{
    match Version::parse(alloc, version.text) {
        Ok(version) => Ok(version),
        Err(error) => {
            if error == semver::Error::from(AllocError) {
                Err(AllocError)
            } else {
                unreachable!()
            }
        }
    }
}

/// The version that `semver` reads, if there is one.
pub fn optional_version(
    alloc: Global,
    version: &Option<wit_rules::Version<'_>>,
) -> Result<Option<Version>, AllocError>
    requires { spec.IsReadWhere (option_map view.version version.now) }
    ensures { IfOk result (spec.IsVersionWhere (option_map view.version version.now)) }
{
    match version {
        None => Ok(None),
        Some(version) => Ok(Some(version_of(alloc, version)?)),
    }
}

/// How stable an item is that has these gates, of which `semver` reads the versions.
fn gated(alloc: Global, gates: &Gates<'_>) -> Result<Stability, AllocError>
    requires { spec.AreVersionsRead (rule_view.gates gates.now) }
    ensures { IfOk result (spec.IsGated (rule_view.gates gates.now)) }
{
    match gates {
        Gates::Ungated => Ok(Stability::Unknown),
        Gates::OfFeature {
            feature,
            deprecated,
        } => {
            let feature = String::from_str(alloc, feature.name)?;
            let deprecated = optional_version(alloc, deprecated)?;
            Ok(Stability::Unstable {
                feature,
                deprecated,
            })
        }
        Gates::FromVersion { since, deprecated } => {
            let since = version_of(alloc, since)?;
            let deprecated = optional_version(alloc, deprecated)?;
            Ok(Stability::Stable { since, deprecated })
        }
    }
}

/// How stable an item is, by the attributes in front of it, which are gates that may stand together (WIT, Feature Gates).
pub fn stability_of(alloc: Global, attributes: &[Attribute<'_>]) -> Result<Stability, AllocError>
    requires { spec.AreGates (map view.attribute attributes.now) }
    ensures { IfOk result (spec.IsStabilityOf (map view.attribute attributes.now)) }
{
    match gates_of(attributes) {
        Some(gates) => gated(alloc, &gates),
        None => unreachable!(),
    }
}

/// The same by what stands in front of it.
pub fn stability_in(alloc: Global, front: &Front<'_>) -> Result<Stability, AllocError>
    requires { spec.AreGates (map view.attribute front.now.attributes.items) }
    ensures { IfOk result (spec.IsStabilityOf (map view.attribute front.now.attributes.items)) }
{
    stability_of(alloc, front.attributes.as_slice())
}
