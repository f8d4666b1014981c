//! Types of components: core types of functions over WIT types, the options of lifts and lowers, and where types are written.
#![tactic(auto)]

mod signature;

pub use canonical_options::{Iter, OptionFault, RequiredOptions, StringEncoding, TypeContents};
pub use flat_types::{FlatTypes, WasmSignature};
pub use signature::wasm_signature;
pub use type_sinks::{InterfaceTypes, Root};
pub use type_writing::{Fault, ValtypeEncoder, write_type, write_types};
