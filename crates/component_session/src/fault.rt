//! Why a call of a session is refused.

ghost use Rattle.std.specs.Prelude.{◌≡◌, option_map};
ghost use Rattle.component_session.specs.Faults as spec;
ghost use Rattle.component_session.specs.Faults.{of_core, of_hand, of_module};

use core_links::LinkFault as CoreFault;
use handed_modules::HandFault;
use linked_components::{ComponentFault, TableFault};
use linked_types::TypeFault;
use std::alloc::{AllocError, AllocFailed};
use thiserror::Error;
use wasm_format::ModuleFault;
use wit_component::Fault as LinkFault;

/// Why the bytes of a module aren't taken.
#[derive(Clone, Copy, Debug, PartialEq, Eq, Error)]
pub enum ModuleCause {
    /// M1: they are no core module.
    #[error("M1 Malformed")]
    Malformed,
    /// M2: they have a form of the core format that is never read.
    #[error("M2 Unsupported")]
    Unsupported,
    /// M3: there are more than 4,294,967,295 of them.
    #[error("M3 TooLarge")]
    TooLarge,
}

/// Why a call is refused; its text is what the program prints behind `error: `. What packages are refused for is a `ResolveError`.
#[derive(Clone, Copy, Debug, PartialEq, Eq, Drop, Error)]
pub enum Fault {
    /// X1: the input, or what is judged, lies outside what is built so far.
    #[error("X1 NotYet")]
    NotYet,
    /// B1: no main module was handed in; given before any other.
    #[error("B1 NoModule")]
    NoModule,
    /// B2: no world was chosen.
    #[error("B2 NoWorld")]
    NoWorld,
    /// B3: the chosen world exports something under a key under which no module's world does.
    #[error("B3 ExportUnsupplied")]
    ExportUnsupplied,
    /// B5: a module's world exports something under a key under which the chosen one doesn't.
    #[error("B5 ExportNotInWorld")]
    ExportNotInWorld,
    /// B6: the bytes of a module can't be read, for M1, M2 or M3.
    #[error("{0}")]
    BadModule(ModuleCause),
    /// B22: an argument of a library names neither the library itself nor an adapter or library that was handed in.
    #[error("B22 UnknownAdapter")]
    UnknownAdapter,
    /// B24: another module that stays has the same bytes.
    #[error("B24 DuplicateModule")]
    DuplicateModule,
    /// B7 to B12: what is linked has no link table; B25: no component says it. Never X1 or want of memory, which are `NotYet` and
    /// `OutOfMemory`.
    #[error("{0}")]
    Linking(LinkFault),
    /// B13: a linked function asks for a memory, and the main module exports none.
    #[error("B13 NoMemory")]
    NoMemory,
    /// B14: a linked function asks for what makes room in the memory, and the main module exports none.
    #[error("B14 NoRealloc")]
    NoRealloc,
    /// B15 to B17: a linked function, or a type that it reaches, isn't linked. Never X1 or want of memory, which are `NotYet` and
    /// `OutOfMemory`.
    #[error("{0}")]
    Types(TypeFault),
    /// A request for memory was refused.
    #[error("out of memory")]
    OutOfMemory,
}

impl From<AllocError> for Fault {
    ghost use Rattle.component_session.specs.declared.fault.Fault.TheVariants.{OutOfMemory};

    ghost from_gives = { λ _ e. e ≡ OutOfMemory };

    fn from(_e: AllocError) -> Fault {
        Fault::OutOfMemory
    }
}

impl<T: Drop> From<AllocFailed<T>> for Fault {
    ghost use Rattle.component_session.specs.declared.fault.Fault.TheVariants.{OutOfMemory};

    ghost from_gives = { λ _ e. e ≡ OutOfMemory };

    fn from(_e: AllocFailed<T>) -> Fault {
        Fault::OutOfMemory
    }
}

impl From<LinkFault> for Fault {
    ghost use Rattle.component_session.specs.Faults.{of_linking};

    ghost from_gives = { λ fault e. e ≡ of_linking fault };

    fn from(fault: LinkFault) -> Fault {
        match fault {
            LinkFault::NotYet => Fault::NotYet,
            LinkFault::OutOfMemory => Fault::OutOfMemory,
            LinkFault::DuplicateImport
            | LinkFault::UnknownImport
            | LinkFault::Ambiguous
            | LinkFault::LegacyName
            | LinkFault::WrongCoreType
            | LinkFault::MissingCoreExport
            | LinkFault::TooLarge => Fault::Linking(fault),
        }
    }
}

/// What names and core types are refused for that aren't those of the world.
fn core_refusal(fault: CoreFault) -> Fault
    ensures { result ≡ of_core fault }
{
    match fault {
        CoreFault::NotYet => Fault::NotYet,
        CoreFault::DuplicateImport => Fault::Linking(LinkFault::DuplicateImport),
        CoreFault::UnknownImport => Fault::Linking(LinkFault::UnknownImport),
        CoreFault::Ambiguous => Fault::Linking(LinkFault::Ambiguous),
        CoreFault::LegacyName => Fault::Linking(LinkFault::LegacyName),
        CoreFault::WrongCoreType => Fault::Linking(LinkFault::WrongCoreType),
        CoreFault::MissingCoreExport => Fault::Linking(LinkFault::MissingCoreExport),
        CoreFault::OutOfMemory => Fault::OutOfMemory,
    }
}

impl From<TableFault> for Fault {
    ghost use Rattle.component_session.specs.Faults.{of_table};

    ghost from_gives = { λ fault e. e ≡ of_table fault };

    fn from(fault: TableFault) -> Fault {
        match fault {
            TableFault::NotYet => Fault::NotYet,
            TableFault::Link(fault) => core_refusal(fault),
            TableFault::NoMemory => Fault::NoMemory,
            TableFault::NoRealloc => Fault::NoRealloc,
            TableFault::Types(fault) => Fault::Types(fault),
            TableFault::OutOfMemory => Fault::OutOfMemory,
        }
    }
}

impl From<ComponentFault> for Fault {
    ghost use Rattle.component_session.specs.Faults.{of_component};

    ghost from_gives = { λ fault e. e ≡ of_component fault };

    fn from(fault: ComponentFault) -> Fault {
        match fault {
            ComponentFault::Table(fault) => Fault::from(fault),
            ComponentFault::TooLarge => Fault::Linking(LinkFault::TooLarge),
        }
    }
}

/// The code of a type that isn't linked, as `B15`.
fn type_code(fault: TypeFault) -> Option<&'static str>
    ensures { option_map (λ s. s.now) result ≡ spec.type_code fault }
{
    match fault {
        TypeFault::NotYet => Some("X1"),
        TypeFault::AsyncReached => Some("B15"),
        TypeFault::EmptyTypeReached => Some("B16"),
        TypeFault::TooManyFlags => Some("B17"),
        TypeFault::OutOfMemory => None,
    }
}

/// Its name, as `AsyncReached`.
fn type_name(fault: TypeFault) -> &'static str
    ensures { result.now ≡ spec.type_name fault }
{
    match fault {
        TypeFault::NotYet => "NotYet",
        TypeFault::AsyncReached => "AsyncReached",
        TypeFault::EmptyTypeReached => "EmptyTypeReached",
        TypeFault::TooManyFlags => "TooManyFlags",
        TypeFault::OutOfMemory => "OutOfMemory",
    }
}

/// What a module reader's refusal becomes.
pub fn module_refusal(fault: ModuleFault) -> Fault
    ensures { result ≡ of_module fault }
{
    match fault {
        ModuleFault::Malformed => Fault::BadModule(ModuleCause::Malformed),
        ModuleFault::Unsupported => Fault::BadModule(ModuleCause::Unsupported),
        ModuleFault::TooLarge => Fault::BadModule(ModuleCause::TooLarge),
        ModuleFault::OutOfMemory => Fault::OutOfMemory,
    }
}

/// What a refusal of modules that don't go together becomes.
pub fn hand_refusal(fault: HandFault) -> Fault
    ensures { result ≡ of_hand fault }
{
    match fault {
        HandFault::UnknownAdapter => Fault::UnknownAdapter,
        HandFault::DuplicateModule => Fault::DuplicateModule,
        HandFault::OutOfMemory => Fault::OutOfMemory,
    }
}

impl ModuleCause {
    /// Its code, as `M1`.
    pub fn code(self) -> &'static str
        ensures { result.now ≡ spec.module_code self }
    {
        match self {
            ModuleCause::Malformed => "M1",
            ModuleCause::Unsupported => "M2",
            ModuleCause::TooLarge => "M3",
        }
    }

    /// Its name, as `Malformed`.
    pub fn name(self) -> &'static str
        ensures { result.now ≡ spec.module_name self }
    {
        match self {
            ModuleCause::Malformed => "Malformed",
            ModuleCause::Unsupported => "Unsupported",
            ModuleCause::TooLarge => "TooLarge",
        }
    }
}

impl Fault {
    /// The code of its cause, as `B8`; none for want of memory.
    pub fn code(&self) -> Option<&'static str>
        ensures { option_map (λ s. s.now) result ≡ spec.code self.now }
    {
        match self {
            Fault::NotYet => Some("X1"),
            Fault::NoModule => Some("B1"),
            Fault::NoWorld => Some("B2"),
            Fault::ExportUnsupplied => Some("B3"),
            Fault::ExportNotInWorld => Some("B5"),
            Fault::BadModule(cause) => Some(cause.code()),
            Fault::UnknownAdapter => Some("B22"),
            Fault::DuplicateModule => Some("B24"),
            Fault::Linking(fault) => fault.code(),
            Fault::NoMemory => Some("B13"),
            Fault::NoRealloc => Some("B14"),
            Fault::Types(fault) => type_code(*fault),
            Fault::OutOfMemory => None,
        }
    }

    /// The name of its cause, as `UnknownImport`.
    pub fn name(&self) -> &'static str
        ensures { result.now ≡ spec.name self.now }
    {
        match self {
            Fault::NotYet => "NotYet",
            Fault::NoModule => "NoModule",
            Fault::NoWorld => "NoWorld",
            Fault::ExportUnsupplied => "ExportUnsupplied",
            Fault::ExportNotInWorld => "ExportNotInWorld",
            Fault::BadModule(cause) => cause.name(),
            Fault::UnknownAdapter => "UnknownAdapter",
            Fault::DuplicateModule => "DuplicateModule",
            Fault::Linking(fault) => fault.name(),
            Fault::NoMemory => "NoMemory",
            Fault::NoRealloc => "NoRealloc",
            Fault::Types(fault) => type_name(*fault),
            Fault::OutOfMemory => "OutOfMemory",
        }
    }

    /// Its place in a text, as `PATH:LINE:COLUMN`; no fault of this stage has one.
    pub fn place(&self) -> Option<&str>
        ensures { option_map (λ s. s.now) result ≡ spec.place self.now }
    {
        None
    }
}
