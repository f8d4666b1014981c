//! What core modules may import of a world.

ghost use Rattle.std.specs.Prelude.{◌≡◌, ◌<◌, Bool, Some, length, slice_get, IfOk};
ghost use Rattle.wit_types.specs.declared.world.World.{World};
ghost use Rattle.wit_core_names.specs.Passed.wit_names-Names.{ArePackagesKnown};
ghost use Rattle.wit_core_names.specs.Items.{import_of};
ghost use Rattle.wit_core_names.specs.Texts.{Known, known};
ghost use Rattle.wit_core_items.specs.ImportPlaces as spec;
ghost use Rattle.wit_core_items.specs.Readers.{IsReaderOfImports};
ghost use Rattle.wit_core_items.specs.World.{IsReadAs, ImportStandsFor, core_imports};

use crate::import_names::{ImportNames, import_names};
use crate::import_places::{ImportPlace, import_at, import_places};
use std::alloc::{AllocError, Global};
use std::borrow::CowStr;
use wit_core_names::{Tables, WasmImport};
use wit_core_tables::Meaning;
use wit_types::World;

/// What core modules may import of a world, by their names (Component Model, Build Targets).
#[derive(Drop)]
pub struct CoreImports {
    /// Where the world has each thing, in order.
    places: Vec<ImportPlace>,
    /// What stands for those places.
    names: ImportNames,
}

impl CoreImports {
    /// What core modules may import of a world, by the names of the standard, and by the older ones too where those count.
    pub fn new(
        alloc: Global,
        tables: &Tables<'_>,
        world: &World,
        legacy: bool,
    ) -> Result<CoreImports, AllocError>
        requires { ArePackagesKnown tables.now.packages.now tables.now.interfaces.now }
        ensures { IfOk result (λ r. IsReaderOfImports (known tables.now) world.now legacy r) }
    {
        let places = import_places(alloc, tables, world)?;
        let names = import_names(alloc, tables, world, legacy, places.as_slice())?;
        Ok(CoreImports { places, names })
    }

    /// What the name in the module stands for: nothing, the thing at a place, or one of several.
    pub fn read(&self, module: &str, name: &str) -> Option<Meaning>
        ensures { (k : Known) (w : World) (legacy : Bool) → IsReaderOfImports k w legacy self.now → IsReadAs (ImportStandsFor k w legacy «module».now name.now) result }
    {
        self.names
            .get(&(CowStr::Borrowed(module), CowStr::Borrowed(name)))
    }

    /// Where the world of which this is has the thing at a place.
    pub fn place(&self, place: usize) -> ImportPlace
        requires { (k : Known) × (w : World) × (legacy : Bool) × IsReaderOfImports k w legacy self.now × (place < length (core_imports k w)) }
        ensures { (k : Known) (w : World) (legacy : Bool) → IsReaderOfImports k w legacy self.now → spec.import_at k w result ≡ slice_get (core_imports k w) place }
    {
        self.places[place]
    }

    /// The thing at a place, of the world of which this is.
    pub fn item<'a>(&self, tables: &Tables<'a>, world: &'a World, place: usize) -> WasmImport<'a>
        requires reader { (legacy : Bool) × IsReaderOfImports (known tables.now) world.now legacy self.now }
        requires place { place < length (core_imports (known tables.now) world.now) }
        ensures { slice_get (core_imports (known tables.now) world.entry.now) place ≡ Some (import_of result) }
    {
        import_at(tables, world, self.places[place])
    }
}
