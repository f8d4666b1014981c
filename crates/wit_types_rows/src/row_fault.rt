//! Why a row has no answer.

use std::alloc::{AllocError, AllocFailed};

/// Why a row has no answer.
#[derive(Drop)]
pub enum RowFault {
    /// It can't be read.
    Unreadable,
    /// A request for memory was refused.
    OutOfMemory,
}

impl From<AllocError> for RowFault {
    fn from(_e: AllocError) -> RowFault {
        RowFault::OutOfMemory
    }
}

impl<T: Drop> From<AllocFailed<T>> for RowFault {
    fn from(_e: AllocFailed<T>) -> RowFault {
        RowFault::OutOfMemory
    }
}

/// What stands there, or a fault where nothing does.
pub fn readable<T>(found: Option<T>) -> Result<T, RowFault> {
    match found {
        Some(value) => Ok(value),
        None => Err(RowFault::Unreadable),
    }
}

/// What was made, or a fault where a request for memory was refused.
pub fn made<T>(outcome: Result<T, AllocError>) -> Result<T, RowFault> {
    match outcome {
        Ok(value) => Ok(value),
        Err(_) => Err(RowFault::OutOfMemory),
    }
}
