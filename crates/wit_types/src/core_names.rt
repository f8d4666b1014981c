//! The names of functions in core modules.

ghost use Rattle.std.specs.Prelude.{◌≡◌, string_bytes, IfOk};
ghost use Rattle.std.specs.Prelude.{Option, List, ℕ};
ghost use Rattle.wit_types.specs.CoreName.{core_export_name, legacy_name, standard_name, text_of};

use crate::function::Function;
use crate::mangling::Mangling;
use std::alloc::{AllocError, Global};

impl Function {
    /// The name under which a core module exports the function, of an interface by its key, or of the world (Component
    /// Model, Build Targets).
    pub fn core_export_name(
        &self,
        alloc: Global,
        interface: Option<&str>,
        mangling: Mangling,
    ) -> Result<String, AllocError>
        ensures { IfOk result (λ s. string_bytes s ≡ core_export_name mangling (text_of interface.entry) (string_bytes self.now.name)) }
    {
        match mangling {
            Mangling::Standard32 => self.standard32_core_export_name(alloc, interface),
            Mangling::Legacy => self.legacy_core_export_name(alloc, interface),
        }
    }

    /// The same in the names of the standard: `cm32p2|interface|name`, and `cm32p2||name` for the world's. The interface's
    /// key is one with a track in place of a version.
    pub fn standard32_core_export_name(
        &self,
        alloc: Global,
        interface: Option<&str>,
    ) -> Result<String, AllocError>
        ensures { IfOk result (λ s. string_bytes s ≡ standard_name (text_of interface.entry) (string_bytes self.now.name)) }
    {
        let name = self.name.as_str();
        match interface {
            Some(interface) => format!(in alloc; "cm32p2|{interface}|{name}"),
            None => format!(in alloc; "cm32p2||{name}"),
        }
    }

    /// The same in the names from before there was a standard: `interface#name`, and `name` for the world's.
    pub fn legacy_core_export_name(
        &self,
        alloc: Global,
        interface: Option<&str>,
    ) -> Result<String, AllocError>
        ensures { IfOk result (λ s. string_bytes s ≡ legacy_name (text_of interface.entry) (string_bytes self.now.name)) }
    {
        let name = self.name.as_str();
        match interface {
            Some(interface) => format!(in alloc; "{interface}#{name}"),
            None => String::from_str(alloc, name),
        }
    }
}
