//! What a session is asked to do, beside its texts and modules.

ghost use Rattle.std.specs.Prelude.{◌≡◌};

use std::alloc::Global;
use std::collections::HashMap;
use std::marker::Model;

/// The options of a session; the setters of `Session` change them.
#[derive(Drop)]
pub struct Options {
    /// Imported interfaces of one version track are merged.
    pub merge_imports_based_on_semver: bool,
    /// Imports and exports are named by version track.
    pub emit_canonical_names: bool,
    /// Core names of the legacy mangling stand for nothing.
    pub reject_legacy_names: bool,
    /// Stand-ins call through references.
    pub shim_return_call_ref: bool,
    /// Generated modules carry names.
    pub debug_names: bool,
    /// The component reader looks at the bytes before they are answered.
    pub validate: bool,
    /// New names of imported instances, by their keys.
    pub import_name_map: HashMap<String, String>,
}

impl Model for Options {
    ghost use Rattle.component_session.specs.Input.{OptionsInput};
    ghost use Rattle.component_session.specs.Handed.{pairs_of};

    ghost Value = { OptionsInput };

    ghost view = { λ o. record {
      merge_imports_based_on_semver = o.merge_imports_based_on_semver;
      emit_canonical_names = o.emit_canonical_names;
      reject_legacy_names = o.reject_legacy_names;
      shim_return_call_ref = o.shim_return_call_ref;
      debug_names = o.debug_names;
      validate = o.validate;
      import_name_map = pairs_of o.import_name_map.entries;
    } };
}

impl Options {
    ghost use Rattle.component_session.specs.Input.{first_options};

    /// The options of a new session.
    pub fn new(alloc: Global) -> Options
        ensures { result ≡ first_options }
    {
        Options {
            merge_imports_based_on_semver: true,
            emit_canonical_names: false,
            reject_legacy_names: false,
            shim_return_call_ref: false,
            debug_names: false,
            validate: false,
            import_name_map: HashMap::new(alloc),
        }
    }
}
