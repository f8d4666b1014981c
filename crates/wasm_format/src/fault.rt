//! Why bytes are no core module.

ghost use Rattle.std.specs.Prelude.{◌≡◌};
ghost use Rattle.wasm_format.specs.declared.fault.ModuleFault.TheVariants as faults;

use std::alloc::AllocError;
use thiserror::Error;

/// Why bytes are no core module that can be read.
#[derive(Clone, Copy, Debug, PartialEq, Eq, Drop, Error)]
pub enum ModuleFault {
    /// M1: the bytes aren't a core module.
    #[error("M1 Malformed")]
    Malformed,
    /// M2: a form of the core format that is never read here.
    #[error("M2 Unsupported")]
    Unsupported,
    /// M3: more than 4,294,967,295 bytes.
    #[error("M3 TooLarge")]
    TooLarge,
    /// A request for memory was refused.
    #[error("out of memory")]
    OutOfMemory,
}

impl From<AllocError> for ModuleFault {
    ghost from_gives = { λ _ e. e ≡ faults.OutOfMemory };

    fn from(_e: AllocError) -> ModuleFault {
        ModuleFault::OutOfMemory
    }
}
