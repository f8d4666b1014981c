//! Gates in front of items.

ghost use Rattle.std.specs.Prelude.{◌≡◌, None, map, option_map, OnOk, IfErr};
ghost use Rattle.wit_scopes.specs.Passed.wit_syntax-AstView as view;
ghost use Rattle.wit_rules.specs.Gates as spec;
ghost use Rattle.wit_rules.specs.Breaks.{IsKept, IsFaultOf, GateFormBreaks, VersionBreaks, VersionWhereBreaks, GateVersionsBreak, GatesBreak};
ghost use Rattle.wit_rules.specs.View as seen;

use crate::fault::{PackageFault, PackageRule};
use wit_scopes::{Attribute, Front, Gate, Id, Version, is_read_by_semver};

/// The gates in front of an item (WIT, Feature Gates).
#[derive(Clone, Copy)]
pub enum Gates<'a> {
    /// There are none.
    Ungated,
    /// The item belongs to a feature.
    OfFeature {
        /// The feature.
        feature: Id<'a>,
        /// The version from which on the item is deprecated.
        deprecated: Option<Version<'a>>,
    },
    /// The item is there from a version on.
    FromVersion {
        /// The version.
        since: Version<'a>,
        /// The version from which on the item is deprecated.
        deprecated: Option<Version<'a>>,
    },
}

/// A gate that stands alone, or with `deprecated`.
fn gated<'a>(gate: Gate<'a>, deprecated: Option<Version<'a>>) -> Option<Gates<'a>>
    ensures { option_map seen.gates result ≡ spec.with_deprecated (view.gate gate.entry) (option_map view.version deprecated.entry) }
{
    match gate {
        Gate::Since(since) => Some(Gates::FromVersion { since, deprecated }),
        Gate::Unstable(feature) => Some(Gates::OfFeature {
            feature,
            deprecated,
        }),
        Gate::Deprecated(_) => None,
    }
}

/// The gates that attributes are: none, `since` or `unstable`, or one of these with one `deprecated`; otherwise nothing.
pub fn gates_of<'a>(attributes: &[Attribute<'a>]) -> Option<Gates<'a>>
    ensures { option_map seen.gates result ≡ spec.gates_in (map view.attribute attributes.now) }
{
    match attributes {
        [] => Some(Gates::Ungated),
        [one] => gated(one.gate, None),
        [one, other] => match (one.gate, other.gate) {
            (gate, Gate::Deprecated(version)) => gated(gate, Some(version)),
            (Gate::Deprecated(version), gate) => gated(gate, Some(version)),
            _ => None,
        },
        _ => None,
    }
}

/// The refusal of attributes that may not stand together, at the first of them.
fn bad_gates(attributes: &[Attribute<'_>]) -> PackageFault
    requires { spec.gates_in (map view.attribute attributes.now) ≡ None }
    ensures { IsFaultOf (GateFormBreaks (map view.attribute attributes.now)) result }
{
    match attributes.first() {
        Some(first) => PackageFault::Broken {
            rule: PackageRule::BadGate,
            span: first.span,
        },
        None => unreachable!(),
    }
}

/// Refuses a version that `semver` doesn't read.
pub fn check_version(version: &Version<'_>) -> Result<(), PackageFault>
    ensures ok { OnOk result (IsKept (VersionBreaks (view.version version.now))) }
    ensures cause { IfErr result (IsFaultOf (VersionBreaks (view.version version.now))) }
{
    if is_read_by_semver(version.text) {
        return Ok(());
    }
    Err(PackageFault::Broken {
        rule: PackageRule::BadVersion,
        span: version.span,
    })
}

/// Refuses a version, if there is one, that `semver` doesn't read.
fn check_version_where(version: &Option<Version<'_>>) -> Result<(), PackageFault>
    ensures ok { OnOk result (IsKept (VersionWhereBreaks (option_map view.version version.now))) }
    ensures cause { IfErr result (IsFaultOf (VersionWhereBreaks (option_map view.version version.now))) }
{
    match version {
        Some(version) => check_version(version),
        None => Ok(()),
    }
}

/// Refuses gates of which `semver` doesn't read a version.
fn check_gate_versions(gates: &Gates<'_>) -> Result<(), PackageFault>
    ensures ok { OnOk result (IsKept (GateVersionsBreak (seen.gates gates.now))) }
    ensures cause { IfErr result (IsFaultOf (GateVersionsBreak (seen.gates gates.now))) }
{
    match gates {
        Gates::Ungated => Ok(()),
        Gates::OfFeature { deprecated, .. } => check_version_where(deprecated),
        Gates::FromVersion { since, deprecated } => match check_version(since) {
            Ok(()) => check_version_where(deprecated),
            Err(fault) => Err(fault),
        },
    }
}

/// Refuses attributes that may not stand together, at the first of them (WIT, Feature Gates), and a version in them that
/// `semver` doesn't read, at the version.
pub fn check_gates(attributes: &[Attribute<'_>]) -> Result<(), PackageFault>
    ensures ok { OnOk result (IsKept (GatesBreak (map view.attribute attributes.now))) }
    ensures cause { IfErr result (IsFaultOf (GatesBreak (map view.attribute attributes.now))) }
{
    match gates_of(attributes) {
        Some(gates) => check_gate_versions(&gates),
        None => Err(bad_gates(attributes)),
    }
}

/// The same of the attributes in front of an item.
pub fn check_front(front: &Front<'_>) -> Result<(), PackageFault>
    ensures ok { OnOk result (IsKept (GatesBreak (map view.attribute front.now.attributes.items))) }
    ensures cause { IfErr result (IsFaultOf (GatesBreak (map view.attribute front.now.attributes.items))) }
{
    check_gates(front.attributes.as_slice())
}
