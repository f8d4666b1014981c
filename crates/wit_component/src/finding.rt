//! What may be wrong with a component.

ghost use Rattle.std.specs.Prelude.{◌≡◌};
ghost use Rattle.wit_component.specs.Findings as spec;

/// The condition that fails.
#[derive(Clone, Copy, Debug, PartialEq, Eq)]
pub enum FindingKind {
    /// F1: the bytes are no component.
    Format,
    /// F2: an import that links need isn't there, or one is there that the world doesn't list.
    Import,
    /// F3: the exports aren't exactly the world's.
    Export,
    /// F4: a core module is none of those handed in, or the instances aren't one for each that is given all that it asks.
    Module,
    /// F5: a core import or export doesn't end at its entry of the link table.
    Link,
    /// F6: a slot isn't filled exactly once, before the first start call.
    Fill,
    /// F7: a slot can be reached from a handed module.
    SlotReach,
    /// F8: a type stands under no name.
    Name,
}

impl FindingKind {
    /// Its number behind the F, from 1.
    pub fn number(self) -> u8
        ensures { result ≡ spec.finding_number self }
    {
        match self {
            FindingKind::Format => 1,
            FindingKind::Import => 2,
            FindingKind::Export => 3,
            FindingKind::Module => 4,
            FindingKind::Link => 5,
            FindingKind::Fill => 6,
            FindingKind::SlotReach => 7,
            FindingKind::Name => 8,
        }
    }

    /// Its name, as `SlotReach`.
    pub fn name(self) -> &'static str
        ensures { result.now ≡ spec.finding_name self }
    {
        match self {
            FindingKind::Format => "Format",
            FindingKind::Import => "Import",
            FindingKind::Export => "Export",
            FindingKind::Module => "Module",
            FindingKind::Link => "Link",
            FindingKind::Fill => "Fill",
            FindingKind::SlotReach => "SlotReach",
            FindingKind::Name => "Name",
        }
    }
}
