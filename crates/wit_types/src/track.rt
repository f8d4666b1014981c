//! The tracks of versions.

ghost use Rattle.std.specs.Prelude.{◌≡◌, string_bytes, IfOk};
ghost use Rattle.semver.specs.Identifiers.{parts_of, version_text};
ghost use Rattle.wit_types.specs.Track.{track_parts, track_text, IsFront, IsSuffix};

use crate::package::PackageName;
use semver::{BuildMetadata, Version};
use std::alloc::{AllocError, Global};

impl PackageName {
    /// The track of a version, as a version, and what stands behind the track's text in the version's, if something does.
    /// Versions of one track may stand for one another: of x.y.z with x above 0 it is x, of 0.y.z with y above 0 it is
    /// 0.y, of 0.0.z it is 0.0.z; a version with a pre-release is its own, without its build text (Component Model, Import
    /// and Export Definitions). What a track leaves out is 0 in the answer.
    pub fn version_compat_track(
        alloc: Global,
        version: &Version,
    ) -> Result<(Version, Option<String>), AllocError>
        ensures track { IfOk result (λ r. parts_of r.0 ≡ track_parts (parts_of version.now)) }
        ensures suffix { IfOk result (λ r. IsSuffix (version_text version.now) (track_text (parts_of version.now)) r.1) }
    {
        let (_, suffix) = PackageName::version_compat_track_string(alloc, version)?;
        Ok((track_of(version)?, suffix))
    }

    /// The track of a version as a text, and what stands behind it in the version's text, if something does: `0.10` and
    /// `.0+build.1` of `0.10.0+build.1`.
    pub fn version_compat_track_string(
        alloc: Global,
        version: &Version,
    ) -> Result<(String, Option<String>), AllocError>
        ensures track { IfOk result (λ r. string_bytes r.0 ≡ track_text (parts_of version.now)) }
        ensures suffix { IfOk result (λ r. IsSuffix (version_text version.now) (track_text (parts_of version.now)) r.1) }
    {
        let track = track_string(alloc, version)?;
        let text = format!(in alloc; "{version}")?;
        let suffix = suffix_of(alloc, text.as_str(), track.as_str())?;
        Ok((track, suffix))
    }
}

/// The track of a version, as a version.
fn track_of(version: &Version) -> Result<Version, AllocError>
    ensures { IfOk result (λ v. parts_of v ≡ track_parts (parts_of version.now)) }
{
    if !version.pre.is_empty() {
        let mut track = version.clone()?;
        track.build = BuildMetadata::empty();
        return Ok(track);
    }
    if version.major > 0 {
        return Ok(Version::new(version.major, 0, 0));
    }
    if version.minor > 0 {
        return Ok(Version::new(0, version.minor, 0));
    }
    Ok(Version::new(0, 0, version.patch))
}

/// The track of a version, as a text.
fn track_string(alloc: Global, version: &Version) -> Result<String, AllocError>
    ensures { IfOk result (λ s. string_bytes s ≡ track_text (parts_of version.now)) }
{
    let track = track_of(version)?;
    if !track.pre.is_empty() {
        return format!(in alloc; "{track}");
    }
    let (major, minor, patch) = (track.major, track.minor, track.patch);
    if major > 0 {
        return format!(in alloc; "{major}");
    }
    if minor > 0 {
        return format!(in alloc; "0.{minor}");
    }
    format!(in alloc; "0.0.{patch}")
}

/// What stands behind the front of a text, if something does.
fn suffix_of(alloc: Global, text: &str, front: &str) -> Result<Option<String>, AllocError>
    requires { IsFront text.now front.now }
    ensures { IfOk result (IsSuffix text.now front.now) }
{
    match text.strip_prefix(front) {
        Some(rest) if !rest.is_empty() => Ok(Some(String::from_str(alloc, rest)?)),
        _ => Ok(None),
    }
}
