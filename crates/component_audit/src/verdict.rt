//! What the auditor says of bytes.

ghost use Rattle.std.specs.Prelude.{◌≡◌, IfOk, string_bytes};
ghost use Rattle.component_audit.specs.Texts as spec;

use std::alloc::{AllocError, Global};
use wit_component::FindingKind;

/// Whether bytes are right for an input.
#[derive(Clone, Copy, Debug, PartialEq, Eq)]
pub enum Verdict {
    /// They are.
    Yes,
    /// A condition fails; the offset is that of the definition looked at, or the length of the bytes where
    /// something is absent.
    Finding(FindingKind, usize),
}

impl Verdict {
    /// Its text: `yes`, or a finding as `finding F5 Link at 123`.
    pub fn to_text(&self, alloc: Global) -> Result<String, AllocError>
        ensures { IfOk result (λ t. string_bytes t ≡ spec.verdict_text self.now) }
    {
        match *self {
            Verdict::Yes => String::from_str(alloc, "yes"),
            Verdict::Finding(kind, offset) => {
                let number = kind.number();
                let name = kind.name();
                format!(in alloc; "finding F{number} {name} at {offset}")
            }
        }
    }
}
