//! Laws of words.

ghost use Rattle.std.specs.Prelude.{◌≡◌, ℕ, List, IsOk};
ghost use Rattle.semver.specs.Parse.{version_parts};
ghost use Rattle.wit_words.specs.Version.{IsVersion};

/// What `semver` reads is a version: of those it refuses the ones that have a number of more than 64 bits.
pub fn law_semver_reads_versions()
    ensures { (text : List ℕ) → IsOk (version_parts text) → IsVersion text }
{}
