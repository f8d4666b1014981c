//! The texts of packages.

ghost use Rattle.std.specs.Prelude.{◌≡◌, ◌∷◌, ◌++◌, [], map, option_map, IfOk, IfErr, OnOk};
ghost use Rattle.wit_words.specs.Sources.{paths_left, paths_of};
ghost use Rattle.wit_words.specs.declared.source_map.SourceFault.{SourceFault};
ghost use Rattle.wit_resolution.specs.Sources as spec;

use indexmap::IndexMap;
use std::alloc::{AllocError, Global};
use std::marker::Model;
use wit_types::PackageId;
use wit_words::{SourceFault, SourceMap, SourceNames};

/// The texts of packages, by the source maps in which they stand.
#[derive(Drop)]
pub struct PackageSources {
    source_maps: Vec<SourceMap>,
    /// For each package, which of them has its texts.
    places: IndexMap<PackageId, usize>,
}

impl Model for PackageSources {
    ghost use Rattle.wit_resolution.specs.Sources.{Sources};

    ghost Value = { Sources };

    ghost view = { λ s. record { maps = s.source_maps.items; places = s.places.entries } };
}

/// The paths of a source map's texts, behind others.
fn add_names<'a>(names: &mut Vec<&'a str>, source_map: &'a SourceMap) -> Result<(), AllocError>
    ensures { OnOk result (map (λ n. n.now) names.new.items ≡ map (λ n. n.now) names.old.items ++ paths_of source_map.now) }
{
    for name in source_map.source_names() {
        names.push(name)?;
    }
    Ok(())
}

impl PackageSources {
    /// The texts of one package, which has one: that path is its name, and there are no contents.
    pub fn from_single_source(
        alloc: Global,
        package_id: PackageId,
        source: &str,
    ) -> Result<PackageSources, SourceFault>
        ensures ok { IfOk result (λ s. s ≡ record { maps = (record { path = source.now; contents = [] } ∷ []) ∷ []; places = (package_id, 0) ∷ [] }) }
        ensures cause { IfErr result (λ e. e ≡ SourceFault.OutOfMemory) }
    {
        let mut source_map = SourceMap::new(alloc);
        source_map.push(source, "")?;
        let mut source_maps = Vec::new(alloc);
        source_maps.push(source_map)?;
        let mut places = IndexMap::new(alloc);
        places.insert(package_id, 0)?;
        Ok(PackageSources {
            source_maps,
            places,
        })
    }

    /// The texts of packages, for each of which it stands in which source map they are; one of which that isn't there has none.
    pub fn from_source_maps(
        source_maps: Vec<SourceMap>,
        places: IndexMap<PackageId, usize>,
    ) -> PackageSources
        ensures { result ≡ record { maps = source_maps.items; places = places.entries } }
    {
        PackageSources {
            source_maps,
            places,
        }
    }

    /// The paths of all texts, one source map after the other.
    pub fn source_names(&self, alloc: Global) -> Result<Vec<&str>, AllocError>
        ensures { IfOk result (λ names. map (λ n. n.now) names.items ≡ spec.all_names self.now) }
    {
        let mut names = Vec::new(alloc);
        for source_map in &self.source_maps {
            add_names(&mut names, source_map)?;
        }
        Ok(names)
    }

    /// The paths of a package's texts, if it has some.
    pub fn package_source_names(&self, id: PackageId) -> Option<SourceNames<'_>>
        ensures { option_map (λ names. paths_left names) result ≡ spec.package_names ⟦<PackageId as PartialEq>⟧.eq self.now id }
    {
        let place = self.places.get(&id)?;
        let source_map = self.source_maps.get(*place)?;
        Some(source_map.source_names())
    }
}
