//! What core modules may export for a world.

ghost use Rattle.std.specs.Prelude.{◌≡◌, ◌<◌, Bool, Some, length, slice_get, IfOk};
ghost use Rattle.wit_types.specs.declared.world.World.{World};
ghost use Rattle.wit_core_names.specs.Passed.wit_names-Names.{ArePackagesKnown};
ghost use Rattle.wit_core_names.specs.Items.{export_of};
ghost use Rattle.wit_core_names.specs.Texts.{Known, known};
ghost use Rattle.wit_core_items.specs.Readers.{IsReaderOfExports};
ghost use Rattle.wit_core_items.specs.World.{IsReadAs, ExportStandsFor, core_exports};

use crate::export_names::{ExportNames, export_names};
use crate::export_places::{ExportPlace, export_at, export_places};
use std::alloc::{AllocError, Global};
use std::borrow::CowStr;
use wit_core_names::{Tables, WasmExport};
use wit_core_tables::Meaning;
use wit_types::World;

/// What core modules may export for a world, by their names (Component Model, Build Targets).
#[derive(Drop)]
pub struct CoreExports {
    /// Where the world has each thing, in order.
    places: Vec<ExportPlace>,
    /// What stands for those places.
    names: ExportNames,
}

impl CoreExports {
    /// What core modules may export for a world, by the names of the standard, and by the older ones too where those count.
    pub fn new(
        alloc: Global,
        tables: &Tables<'_>,
        world: &World,
        legacy: bool,
    ) -> Result<CoreExports, AllocError>
        requires { ArePackagesKnown tables.now.packages.now tables.now.interfaces.now }
        ensures { IfOk result (λ r. IsReaderOfExports (known tables.now) world.now legacy r) }
    {
        let places = export_places(alloc, tables, world)?;
        let names = export_names(alloc, tables, world, legacy, places.as_slice())?;
        Ok(CoreExports { places, names })
    }

    /// What the name stands for: nothing, the thing at a place, or one of several.
    pub fn read(&self, name: &str) -> Option<Meaning>
        ensures { (k : Known) (w : World) (legacy : Bool) → IsReaderOfExports k w legacy self.now → IsReadAs (ExportStandsFor k w legacy name.now) result }
    {
        self.names.get(&CowStr::Borrowed(name))
    }

    /// The thing at a place, of the world of which this is.
    pub fn item<'a>(&self, tables: &Tables<'a>, world: &'a World, place: usize) -> WasmExport<'a>
        requires reader { (legacy : Bool) × IsReaderOfExports (known tables.now) world.now legacy self.now }
        requires place { place < length (core_exports (known tables.now) world.now) }
        ensures { slice_get (core_exports (known tables.now) world.entry.now) place ≡ Some (export_of result) }
    {
        export_at(tables, world, self.places[place])
    }
}
