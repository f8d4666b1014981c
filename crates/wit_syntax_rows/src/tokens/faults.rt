//! Why a text is refused, in words.

use crate::outcome::code_of;
use std::alloc::{AllocError, Global};
use wit_syntax::SyntaxFault;

/// The rule that is broken, and where.
pub fn fault_text(alloc: Global, fault: SyntaxFault) -> Result<String, AllocError> {
    match fault {
        SyntaxFault::OutOfMemory => String::from_str(alloc, "out of memory"),
        SyntaxFault::TooLarge => String::from_str(alloc, "S8"),
        SyntaxFault::Broken { rule, span } => {
            let code = code_of(rule);
            let start = span.start;
            let end = span.end;
            format!(in alloc; "{code} [{start}..{end}]")
        }
    }
}
