//! Features.

ghost use Rattle.std.specs.Prelude.{◌≡◌, ◌++◌, ◌∷◌, [], false, OnErr, OnOk, if◌then◌else◌};
ghost use Rattle.wit_features.specs.Features as spec;

use indexmap::IndexSet;
use std::alloc::{AllocError, Global};
use std::cmp::Ordering;
use std::marker::Model;
use wit_types::{PackageName, Stability};

/// The features that are active: those that were named, or all.
#[derive(Drop)]
pub struct Features {
    names: IndexSet<String>,
    all: bool,
}

impl Model for Features {
    ghost use Rattle.std.specs.Prelude.{map, string_bytes};
    ghost use Rattle.wit_features.specs.Features.{FeatureSet};

    ghost Value = { FeatureSet };

    ghost view = { λ f. record { all = f.all; names = map string_bytes f.names.keys } };
}

impl Features {
    /// No features.
    pub fn new(alloc: Global) -> Features
        ensures { result ≡ record { all = false; names = [] } }
    {
        Features {
            names: IndexSet::new(alloc),
            all: false,
        }
    }

    /// Makes a feature active. Where memory is wanting nothing changes.
    pub fn add(&mut self, alloc: Global, name: &str) -> Result<(), AllocError>
        ensures ok { OnOk result (self.new ≡ record self.old { names = spec.with_name self.old.names name.now }) }
        ensures err { OnErr result (self.new ≡ self.old) }
    {
        let text = String::from_str(alloc, name)?;
        self.names.insert(text)?;
        Ok(())
    }

    /// Makes all features active, or those alone that were named.
    pub fn set_all(&mut self, all: bool)
        ensures { self.new ≡ record self.old { all = all } }
    {
        self.all = all;
    }

    /// Whether a feature is active.
    pub fn is_active(&self, name: &str) -> bool
        ensures { result ≡ spec.is_active self.now name.now }
    {
        self.all || self.names.contains(name)
    }

    /// Whether an item stays: an unstable one does where its feature is active, and any other does.
    pub fn keeps(&self, stability: &Stability) -> bool
        ensures { result ≡ spec.stays self.now stability.now }
    {
        match stability {
            Stability::Unstable { feature, .. } => self.is_active(feature.as_str()),
            Stability::Unknown | Stability::Stable { .. } => true,
        }
    }
}

/// Whether the version from which on an item is stable is above that of its package by the precedence of SemVer, or the package
/// has none.
pub fn breaks_gate(of: &PackageName, stability: &Stability) -> bool
    ensures { result ≡ spec.breaks_gate of.now.version stability.now }
{
    match stability {
        Stability::Stable { since, .. } => match &of.version {
            Some(version) => since.cmp_precedence(version) == Ordering::Greater,
            None => true,
        },
        Stability::Unknown | Stability::Unstable { .. } => false,
    }
}
