//! Why a call is refused.

ghost use Rattle.std.specs.Prelude.{◌≡◌, Some, None, IfOk, IfSome, string_bytes};
ghost use Rattle.wit_offsets.specs.Offsets.{SpanFits, span_at};
ghost use Rattle.wit_resolve_errors.specs.Errors as spec;

use std::alloc::{AllocError, AllocFailed, Global};
use std::marker::Model;
use thiserror::Error;
use wit_groups::PushFault;
use wit_offsets::TooLarge;
use wit_rules::{PackageFault, PackageRule};
use wit_selection::SelectFault;
use wit_words::{Rule, SourceFault, SourceMap, Span, SyntaxFault};

/// Why a call is refused, and where in the texts of the source map.
#[derive(Clone, Copy, Debug, PartialEq, Eq, Drop, Error)]
pub enum ResolveErrorKind {
    /// S1 to S7: a text isn't read.
    #[error("{rule}")]
    Syntax {
        /// The rule that it breaks.
        rule: Rule,
        /// Where: the character, the comment, the word or the token, which is empty at the text's end.
        span: Span,
    },
    /// P1 to P11: the files of a package break a rule.
    #[error("{rule}")]
    Package {
        /// The rule.
        rule: PackageRule,
        /// Where: the name, the type, the result, the version or the first gate that breaks it.
        span: Span,
    },
    /// S8: the texts of the source map would have more than 4,294,967,295 bytes together, or a place would lie behind so many.
    #[error("S8 TooLarge")]
    TooLarge,
    /// G1: a package that is named is neither there nor pushed with it.
    #[error("G1 PackageNotFound")]
    PackageNotFound {
        /// Its name.
        span: Span,
    },
    /// G2: a statement that stays names what isn't there, or is left out.
    #[error("G2 ItemNotFound")]
    ItemNotFound {
        /// The name.
        span: Span,
    },
    /// G3: packages depend on each other in a circle.
    #[error("G3 PackageCycle")]
    PackageCycle {
        /// The name by which one of them asks for the next.
        span: Span,
    },
    /// G4: a package of that name and version is there already, or comes twice.
    #[error("G4 DuplicatePackage")]
    DuplicatePackage {
        /// Its name, where it comes again.
        span: Span,
    },
    /// G5: two plain names of one side of a world become equal by `include`.
    #[error("G5 IncludeClash")]
    IncludeClash {
        /// The item that has the name again.
        span: Span,
    },
    /// G6: an export depends on an interface that isn't exported and that depends on one that is.
    #[error("G6 ExportConflict")]
    ExportConflict {
        /// The world.
        span: Span,
    },
    /// G7: an item is stable from a version on that is above that of its package, or this has none.
    #[error("G7 GateVersion")]
    GateVersion {
        /// The item.
        span: Span,
    },
    /// G8: a text and main packages name no single world.
    #[error("G8 WorldNotFound")]
    WorldNotFound,
    /// G10: a handle is of what turns out to be no resource, or the result of a function holds what is lent, by a type of another package.
    #[error("G10 ForeignShape")]
    ForeignShape {
        /// The type that is the handle, or the function.
        span: Span,
    },
    /// A request for memory was refused.
    #[error("out of memory")]
    OutOfMemory,
}

impl ResolveErrorKind {
    ghost use Rattle.std.specs.Prelude.{option_map};

    /// The code of what it is, as `G2`; none for want of memory.
    pub fn code(&self) -> Option<&'static str>
        ensures { option_map (λ s. s.now) result ≡ spec.code self.now }
    {
        match self {
            ResolveErrorKind::Syntax { rule, .. } => Some(rule.code()),
            ResolveErrorKind::Package { rule, .. } => Some(rule.code()),
            ResolveErrorKind::TooLarge => Some("S8"),
            ResolveErrorKind::PackageNotFound { .. } => Some("G1"),
            ResolveErrorKind::ItemNotFound { .. } => Some("G2"),
            ResolveErrorKind::PackageCycle { .. } => Some("G3"),
            ResolveErrorKind::DuplicatePackage { .. } => Some("G4"),
            ResolveErrorKind::IncludeClash { .. } => Some("G5"),
            ResolveErrorKind::ExportConflict { .. } => Some("G6"),
            ResolveErrorKind::GateVersion { .. } => Some("G7"),
            ResolveErrorKind::WorldNotFound => Some("G8"),
            ResolveErrorKind::ForeignShape { .. } => Some("G10"),
            ResolveErrorKind::OutOfMemory => None,
        }
    }

    /// The name of what it is, as `ItemNotFound`.
    pub fn name(&self) -> &'static str
        ensures { result.now ≡ spec.name self.now }
    {
        match self {
            ResolveErrorKind::Syntax { rule, .. } => rule.name(),
            ResolveErrorKind::Package { rule, .. } => rule.name(),
            ResolveErrorKind::TooLarge => "TooLarge",
            ResolveErrorKind::PackageNotFound { .. } => "PackageNotFound",
            ResolveErrorKind::ItemNotFound { .. } => "ItemNotFound",
            ResolveErrorKind::PackageCycle { .. } => "PackageCycle",
            ResolveErrorKind::DuplicatePackage { .. } => "DuplicatePackage",
            ResolveErrorKind::IncludeClash { .. } => "IncludeClash",
            ResolveErrorKind::ExportConflict { .. } => "ExportConflict",
            ResolveErrorKind::GateVersion { .. } => "GateVersion",
            ResolveErrorKind::WorldNotFound => "WorldNotFound",
            ResolveErrorKind::ForeignShape { .. } => "ForeignShape",
            ResolveErrorKind::OutOfMemory => "OutOfMemory",
        }
    }
}

/// Why a call of a `Resolve` is refused.
#[derive(Clone, Debug, PartialEq, Eq, Drop, Error)]
#[error("{kind}")]
pub struct ResolveError {
    kind: ResolveErrorKind,
}

/// What a call of a `Resolve` answers.
pub type ResolveResult<T> = Result<T, ResolveError>;

impl Model for ResolveError {
    ghost use Rattle.wit_resolve_errors.specs.declared.error.ResolveErrorKind.{ResolveErrorKind};

    ghost Value = { ResolveErrorKind };

    ghost view = { λ e. e.kind };

    ghost inverse = { λ k. record { kind = k } };
}

impl ResolveError {
    ghost use Rattle.std.specs.Borrow.{sem};
    ghost use Rattle.wit_resolve_errors.specs.Errors.{LendsKind};

    /// Which refusal it is.
    pub fn kind(&self) -> &ResolveErrorKind
        ensures { result.now ≡ self.now }
    {
        &self.kind
    }

    /// The same, to be changed in place: what is written there is the kind from then on.
    pub fn kind_mut(&mut self) -> &mut ResolveErrorKind
        ensures now { result.now ≡ self.old }
        ensures* lends { sem 𝓛 (LendsKind self.entry result) }
    {
        &mut self.kind
    }

    /// Where, in the texts of the source map, as far as it has a place.
    pub fn span(&self) -> Option<Span>
        ensures { result ≡ spec.span_of self.now }
    {
        match self.kind {
            ResolveErrorKind::Syntax { span, .. }
            | ResolveErrorKind::Package { span, .. }
            | ResolveErrorKind::PackageNotFound { span }
            | ResolveErrorKind::ItemNotFound { span }
            | ResolveErrorKind::PackageCycle { span }
            | ResolveErrorKind::DuplicatePackage { span }
            | ResolveErrorKind::IncludeClash { span }
            | ResolveErrorKind::ExportConflict { span }
            | ResolveErrorKind::GateVersion { span }
            | ResolveErrorKind::ForeignShape { span } => Some(span),
            ResolveErrorKind::TooLarge
            | ResolveErrorKind::WorldNotFound
            | ResolveErrorKind::OutOfMemory => None,
        }
    }

    /// It as a line: its place in those texts, as `PATH:LINE:COLUMN`, and what it is, as in `a.wit:2:5: G2 ItemNotFound`. One without a
    /// place is its own text. Fails for want of memory alone.
    pub fn render(&self, alloc: Global, source_map: &SourceMap) -> Result<String, AllocError>
        ensures { IfOk result (λ line. spec.IsErrorLine source_map.now self.now (string_bytes line)) }
    {
        let what = self.kind.to_string(alloc)?;
        match self.span() {
            Some(span) => source_map.render_at(span, what.as_str()),
            None => Ok(what),
        }
    }
}

/// The span so many bytes further on, if that fits into 32 bits.
fn moved(span: Span, offset: u32) -> Option<Span>
    ensures some { IfSome result (λ s. s ≡ span_at offset span) }
    ensures none { result ≡ None → SpanFits offset span → ⊥ }
{
    Some(Span {
        start: span.start.checked_add(offset)?,
        end: span.end.checked_add(offset)?,
    })
}

impl ResolveError {
    /// Why texts that begin there aren't taken.
    pub fn of_texts(fault: PackageFault, offset: u32) -> ResolveError
        ensures { spec.IsOfTexts offset fault result }
    {
        let kind = match fault {
            PackageFault::OutOfMemory | PackageFault::Syntax(SyntaxFault::OutOfMemory) => {
                ResolveErrorKind::OutOfMemory
            }
            PackageFault::Syntax(SyntaxFault::TooLarge) => ResolveErrorKind::TooLarge,
            PackageFault::Syntax(SyntaxFault::Broken { rule, span }) => match moved(span, offset) {
                Some(span) => ResolveErrorKind::Syntax { rule, span },
                None => ResolveErrorKind::TooLarge,
            },
            PackageFault::Broken { rule, span } => match moved(span, offset) {
                Some(span) => ResolveErrorKind::Package { rule, span },
                None => ResolveErrorKind::TooLarge,
            },
        };
        ResolveError { kind }
    }
}

impl From<ResolveErrorKind> for ResolveError {
    ghost from_gives = { λ kind e. e ≡ kind };

    fn from(kind: ResolveErrorKind) -> ResolveError {
        ResolveError { kind }
    }
}

impl From<PushFault> for ResolveError {
    ghost use Rattle.wit_resolve_errors.specs.Errors.{of_push};

    ghost from_gives = { λ fault e. e ≡ of_push fault };

    fn from(fault: PushFault) -> ResolveError {
        let kind = match fault {
            PushFault::GateVersion(span) => ResolveErrorKind::GateVersion { span },
            PushFault::DuplicatePackage(span) => ResolveErrorKind::DuplicatePackage { span },
            PushFault::PackageNotFound(span) => ResolveErrorKind::PackageNotFound { span },
            PushFault::ItemNotFound(span) => ResolveErrorKind::ItemNotFound { span },
            PushFault::IncludeClash(span) => ResolveErrorKind::IncludeClash { span },
            PushFault::ExportConflict(_, span) => ResolveErrorKind::ExportConflict { span },
            PushFault::ForeignShape(span) => ResolveErrorKind::ForeignShape { span },
            PushFault::OutOfMemory => ResolveErrorKind::OutOfMemory,
        };
        ResolveError { kind }
    }
}

impl From<SelectFault> for ResolveError {
    ghost use Rattle.wit_resolve_errors.specs.Errors.{of_selection};

    ghost from_gives = { λ fault e. e ≡ of_selection fault };

    fn from(fault: SelectFault) -> ResolveError {
        let kind = match fault {
            SelectFault::WorldNotFound => ResolveErrorKind::WorldNotFound,
            SelectFault::OutOfMemory => ResolveErrorKind::OutOfMemory,
        };
        ResolveError { kind }
    }
}

impl From<SourceFault> for ResolveError {
    ghost use Rattle.wit_resolve_errors.specs.Errors.{of_source};

    ghost from_gives = { λ fault e. e ≡ of_source fault };

    fn from(fault: SourceFault) -> ResolveError {
        let kind = match fault {
            SourceFault::TooLarge => ResolveErrorKind::TooLarge,
            SourceFault::OutOfMemory => ResolveErrorKind::OutOfMemory,
        };
        ResolveError { kind }
    }
}

impl From<TooLarge> for ResolveError {
    ghost use Rattle.wit_resolve_errors.specs.declared.error.ResolveErrorKind.TheVariants as kind;

    ghost from_gives = { λ _ e. e ≡ kind.TooLarge };

    fn from(_fault: TooLarge) -> ResolveError {
        ResolveError {
            kind: ResolveErrorKind::TooLarge,
        }
    }
}

impl From<AllocError> for ResolveError {
    ghost use Rattle.wit_resolve_errors.specs.declared.error.ResolveErrorKind.TheVariants.{OutOfMemory};

    ghost from_gives = { λ _ e. e ≡ OutOfMemory };

    fn from(_fault: AllocError) -> ResolveError {
        ResolveError {
            kind: ResolveErrorKind::OutOfMemory,
        }
    }
}

impl<T: Drop> From<AllocFailed<T>> for ResolveError {
    ghost use Rattle.wit_resolve_errors.specs.declared.error.ResolveErrorKind.TheVariants.{OutOfMemory};

    ghost from_gives = { λ _ e. e ≡ OutOfMemory };

    fn from(_fault: AllocFailed<T>) -> ResolveError {
        ResolveError {
            kind: ResolveErrorKind::OutOfMemory,
        }
    }
}
