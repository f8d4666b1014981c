//! The texts by which interfaces are known, and what they depend on.

ghost use Rattle.std.specs.Prelude.{◌≡◌, ◌<◌, ℕ, Some, length, option_map, string_bytes, slice_get, IfOk, IfSome};
ghost use Rattle.wit_core_items.specs.Readers.{IsReaderOfExports, IsReaderOfImports};
ghost use Rattle.wit_core_items.specs.World.{ExportStandsFor, ImportStandsFor, IsReadAs};
ghost use Rattle.wit_core_names.specs.Exports.{IsExportName, IsExportNamed};
ghost use Rattle.wit_core_names.specs.Imports.{IsImportName, IsImportNamed};
ghost use Rattle.wit_core_names.specs.Items.{export_of, import_of};
ghost use Rattle.wit_core_names.specs.Texts as core_names;
ghost use Rattle.wit_resolve_errors.specs.Passed.wit_graph-Graph.{IsClosureOf, IsDepsOf};
ghost use Rattle.wit_names.specs.Names as spec;
ghost use Rattle.wit_reach.specs.Deps.{IsDepOf};
ghost use Rattle.wit_resolution.specs.Names.{known_of};
ghost use Rattle.wit_types.specs.Package.{interface_text};
ghost use Rattle.wit_types.specs.declared.«package».Package.{Package};

use crate::resolve::Resolve;
use std::alloc::AllocError;
use wit_core_items::{CoreExports, CoreImports};
use wit_core_names::{Tables, WasmExport, WasmImport};
use wit_core_tables::Meaning;
use wit_names::Known;
use wit_types::{InterfaceId, Mangling, PackageId, PackageName, TypeId, World, WorldKey};

/// The packages and interfaces that are there.
fn known(resolve: &Resolve) -> Known<'_>
    ensures packages { result.packages.now ≡ resolve.entry.now.graph.tables.packages }
    ensures interfaces { result.interfaces.now ≡ resolve.entry.now.graph.tables.interfaces.all }
    ensures known { spec.ArePackagesKnown result.packages.now result.interfaces.now }
{
    resolve.graph().law_is_graph();
    Known {
        packages: resolve.packages(),
        interfaces: resolve.interfaces(),
    }
}

impl Resolve {
    /// Where what core names name is known, by its ids: the interfaces belong to packages that are there.
    pub fn tables(&self) -> Tables<'_>
        ensures tables { core_names.known result ≡ known_of self.entry.now.graph.tables }
        ensures known { spec.ArePackagesKnown result.packages.now result.interfaces.now }
    {
        self.graph().law_is_graph();
        Tables {
            packages: self.packages(),
            interfaces: self.interfaces(),
            types: self.types(),
        }
    }

    /// What core modules may import of a world, by the names of the standard, and by the older ones too where those count: made once, each
    /// name is read by one look-up (Component Model, Build Targets).
    pub fn core_imports(&self, world: &World, legacy: bool) -> Result<CoreImports, AllocError>
        ensures { IfOk result (IsReaderOfImports (known_of self.now.graph.tables) world.now legacy) }
    {
        CoreImports::new(self.allocator(), &self.tables(), world, legacy)
    }

    /// What core modules may export for a world, the same way.
    pub fn core_exports(&self, world: &World, legacy: bool) -> Result<CoreExports, AllocError>
        ensures { IfOk result (IsReaderOfExports (known_of self.now.graph.tables) world.now legacy) }
    {
        CoreExports::new(self.allocator(), &self.tables(), world, legacy)
    }

    /// What the name in the module stands for that a core module imports of a world: nothing, the thing at a place of the world's core
    /// imports, or one of several. Goes over the whole world; where several names are read, `core_imports` is made once.
    pub fn read_core_import(
        &self,
        world: &World,
        legacy: bool,
        module: &str,
        name: &str,
    ) -> Result<Option<Meaning>, AllocError>
        ensures { IfOk result (IsReadAs (ImportStandsFor (known_of self.now.graph.tables) world.now legacy «module».now name.now)) }
    {
        let imports = self.core_imports(world, legacy)?;
        Ok(imports.read(module, name))
    }

    /// What the name of a core module's export stands for in a world, the same way.
    pub fn read_core_export(
        &self,
        world: &World,
        legacy: bool,
        name: &str,
    ) -> Result<Option<Meaning>, AllocError>
        ensures { IfOk result (IsReadAs (ExportStandsFor (known_of self.now.graph.tables) world.now legacy name.now)) }
    {
        let exports = self.core_exports(world, legacy)?;
        Ok(exports.read(name))
    }

    /// The text of an interface: `namespace:name/interface`, with `@` and the version of its package behind it, if there is one; none of
    /// an interface without a name (WIT, Package Names).
    pub fn id_of(&self, id: InterfaceId) -> Result<Option<String>, AllocError>
        requires { id < length self.now.graph.tables.interfaces.all }
        ensures { IfOk result (λ s. spec.IsTextOf interface_text self.now.graph.tables.packages self.now.graph.tables.interfaces.all id (option_map string_bytes s)) }
    {
        wit_names::id_of(self.allocator(), &known(self), id)
    }

    /// The canonical text of an interface: the same with the track of the version in its place (Component Model, Import and Export
    /// Definitions).
    pub fn canonicalized_id_of(&self, id: InterfaceId) -> Result<Option<String>, AllocError>
        requires { id < length self.now.graph.tables.interfaces.all }
        ensures { IfOk result (λ s. spec.IsTextOf spec.canonical_text self.now.graph.tables.packages self.now.graph.tables.interfaces.all id (option_map string_bytes s)) }
    {
        wit_names::canonicalized_id_of(self.allocator(), &known(self), id)
    }

    /// The text that an interface of that name has in that package (WIT, Package Names).
    pub fn id_of_name(&self, package: PackageId, interface: &str) -> Result<String, AllocError>
        requires { «package» < length self.now.graph.tables.packages }
        ensures { IfOk result (λ s. (p : Package) × (slice_get self.now.graph.tables.packages «package» ≡ Some p) × (string_bytes s ≡ interface_text p.name interface.now)) }
    {
        wit_names::id_of_name(self.allocator(), self.packages(), package, interface)
    }

    /// The canonical text that an interface of that name has in that package (Component Model, Import and Export Definitions).
    pub fn canonicalized_id_of_name(
        &self,
        package: PackageId,
        interface: &str,
    ) -> Result<String, AllocError>
        requires { «package» < length self.now.graph.tables.packages }
        ensures { IfOk result (λ s. (p : Package) × (slice_get self.now.graph.tables.packages «package» ≡ Some p) × (string_bytes s ≡ spec.canonical_text p.name interface.now)) }
    {
        wit_names::canonicalized_id_of_name(self.allocator(), self.packages(), package, interface)
    }

    /// The text of a key of a world: a plain name, or the text of an interface; none of an interface without a name.
    pub fn name_world_key(&self, key: &WorldKey) -> Result<Option<String>, AllocError>
        requires { spec.IsKeyThere self.now.graph.tables.interfaces.all key.now }
        ensures { IfOk result (λ s. spec.IsKeyText interface_text self.now.graph.tables.packages self.now.graph.tables.interfaces.all key.now (option_map string_bytes s)) }
    {
        wit_names::name_world_key(self.allocator(), &known(self), key)
    }

    /// The canonical text of a key of a world: a plain name, or the canonical text of an interface; none of an interface without a name.
    pub fn name_canonicalized_world_key(&self, key: &WorldKey) -> Result<Option<String>, AllocError>
        requires { spec.IsKeyThere self.now.graph.tables.interfaces.all key.now }
        ensures { IfOk result (λ s. spec.IsKeyText spec.canonical_text self.now.graph.tables.packages self.now.graph.tables.interfaces.all key.now (option_map string_bytes s)) }
    {
        wit_names::name_canonicalized_world_key(self.allocator(), &known(self), key)
    }

    /// What stands behind the track in the text of a package's version, if something does: `.0+build.1` of `0.10.0+build.1`.
    pub fn version_suffix_of(&self, name: &PackageName) -> Result<Option<String>, AllocError>
        ensures { IfOk result (spec.IsVersionSuffix name.now.version) }
    {
        wit_names::version_suffix_of(self.allocator(), name)
    }

    /// The interface of which a type is used under another name by the one with that id, if it is one's (WIT, Use).
    pub fn type_interface_dep(&self, id: TypeId) -> Option<InterfaceId>
        requires { id < length self.now.graph.tables.types }
        ensures some { IfSome result (IsDepOf self.now.graph.tables.types id) }
        ensures all { (j : ℕ) → IsDepOf self.now.graph.tables.types id j → result ≡ Some j }
    {
        self.graph().type_interface_dep(id)
    }

    /// The interfaces of which an interface uses types, each with a lower id than its own (WIT, Use).
    pub fn interface_direct_deps(&self, id: InterfaceId) -> &[InterfaceId]
        requires { id < length self.now.graph.tables.interfaces.all }
        ensures { IsDepsOf self.entry.now.graph.tables id result.now }
    {
        self.graph().interface_direct_deps(id)
    }

    /// All on which an interface depends over any number of steps, and itself, by rising ids: each once, dependencies first, itself last
    /// (WIT, Use).
    pub fn interface_closure(&self, id: InterfaceId) -> &[InterfaceId]
        requires { id < length self.now.graph.tables.interfaces.all }
        ensures { IsClosureOf self.entry.now.graph.tables id result.now }
    {
        self.graph().interface_closure(id)
    }

    /// The module and the name by which a core module imports something (Component Model, Build Targets). An interface has a name and a
    /// package, or is known by a plain name; a resource has a name, and an exported one is of an interface.
    pub fn wasm_import_name(
        &self,
        mangling: Mangling,
        import: &WasmImport<'_>,
    ) -> Result<(String, String), AllocError>
        requires { IsImportNamed (known_of self.now.graph.tables) (import_of «import».now) }
        ensures { IfOk result (λ n. IsImportName mangling (known_of self.now.graph.tables) (import_of «import».now) (string_bytes n.0) (string_bytes n.1)) }
    {
        wit_core_names::wasm_import_name(self.allocator(), &self.tables(), mangling, import)
    }

    /// The name by which a core module exports something (Component Model, Build Targets). An interface has a name and a package, or is
    /// known by a plain name, and a resource has a name.
    pub fn wasm_export_name(
        &self,
        mangling: Mangling,
        export: &WasmExport<'_>,
    ) -> Result<String, AllocError>
        requires { IsExportNamed (known_of self.now.graph.tables) (export_of «export».now) }
        ensures { IfOk result (λ n. IsExportName mangling (known_of self.now.graph.tables) (export_of «export».now) (string_bytes n)) }
    {
        wit_core_names::wasm_export_name(self.allocator(), &self.tables(), mangling, export)
    }
}
