//! Stability.

ghost use Rattle.std.specs.Prelude.{◌≡◌, ◌↔◌, IsTrue};
ghost use Rattle.wit_types.specs.Stability.{IsUnknown, IsStable};

use semver::Version;

/// How stable an item is, by the gates in front of it (WIT, Feature Gates).
#[derive(Clone, Drop)]
pub enum Stability {
    /// It has no gates.
    Unknown,
    /// `@unstable(feature = name)`
    Unstable {
        /// The feature that it belongs to.
        feature: String,
        /// The version from which on it is deprecated: `@deprecated(version = ..)`
        deprecated: Option<Version>,
    },
    /// `@since(version = ..)`
    Stable {
        /// The version from which on it is stable.
        since: Version,
        /// The version from which on it is deprecated: `@deprecated(version = ..)`
        deprecated: Option<Version>,
    },
}

impl Stability {
    /// Whether it has no gates.
    pub fn is_unknown(&self) -> bool
        ensures { IsTrue result ↔ IsUnknown self.now }
    {
        matches!(self, Stability::Unknown)
    }

    /// Whether it is stable from some version on.
    pub fn is_stable(&self) -> bool
        ensures { IsTrue result ↔ IsStable self.now }
    {
        matches!(self, Stability::Stable { .. })
    }
}

impl Default for Stability {
    ghost use Rattle.wit_types.specs.declared.stability.Stability.TheVariants.{Unknown};

    ghost is_default = { λ s. s ≡ Unknown };

    fn default() -> Stability {
        Stability::Unknown
    }
}
