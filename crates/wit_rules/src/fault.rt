//! Why files aren't taken as a package.

ghost use Rattle.std.specs.Prelude.{◌≡◌};
ghost use Rattle.wit_rules.specs.Codes as codes;

use std::alloc::{AllocError, AllocFailed};
use thiserror::Error;
use wit_scopes::{Span, SyntaxFault};

/// The rule that the files of a package break.
#[derive(Clone, Copy, Debug, PartialEq, Eq, Error)]
pub enum PackageRule {
    /// P1: no file of the package has a header. It stands at the first item, nowhere where there is none.
    #[error("P1 NoPackageName")]
    NoPackageName,
    /// P2: two headers of one package differ.
    #[error("P2 PackageMismatch")]
    PackageMismatch,
    /// P3: two names of one scope have one key, or one path is listed twice on one side of a world.
    #[error("P3 DuplicateName")]
    DuplicateName,
    /// P4: a name of the own package isn't there.
    #[error("P4 NameNotFound")]
    NameNotFound,
    /// P5: a name is of another kind than its place asks, or a foreign name is asked as an interface and as a world.
    #[error("P5 WrongKind")]
    WrongKind,
    /// P6: interfaces by `use`, worlds by `include` or types by definition lead back to themselves.
    #[error("P6 Cycle")]
    Cycle,
    /// P7: the result of a function holds a `borrow`.
    #[error("P7 BorrowInResult")]
    BorrowInResult,
    /// P8: the declared result of a constructor is neither a `result` of its own resource nor a name that directly defines
    /// one.
    #[error("P8 BadConstructor")]
    BadConstructor,
    /// P9: `own` or `borrow` names no resource.
    #[error("P9 BadHandle")]
    BadHandle,
    /// P10: a variant or an enum has no case.
    #[error("P10 EmptyCases")]
    EmptyCases,
    /// P11: the gates of an item aren't none, one of `since` and `unstable`, or one of these with one `deprecated`.
    #[error("P11 BadGate")]
    BadGate,
    /// S5: `semver` doesn't read a version of a tree, of which a number has more than 64 bits. No text is read to such a tree.
    #[error("S5 BadVersion")]
    BadVersion,
}

impl PackageRule {
    /// Its code, as `P4`.
    pub fn code(self) -> &'static str
        ensures { result.now ≡ codes.code self }
    {
        match self {
            PackageRule::NoPackageName => "P1",
            PackageRule::PackageMismatch => "P2",
            PackageRule::DuplicateName => "P3",
            PackageRule::NameNotFound => "P4",
            PackageRule::WrongKind => "P5",
            PackageRule::Cycle => "P6",
            PackageRule::BorrowInResult => "P7",
            PackageRule::BadConstructor => "P8",
            PackageRule::BadHandle => "P9",
            PackageRule::EmptyCases => "P10",
            PackageRule::BadGate => "P11",
            PackageRule::BadVersion => "S5",
        }
    }

    /// Its name, as `NameNotFound`.
    pub fn name(self) -> &'static str
        ensures { result.now ≡ codes.name self }
    {
        match self {
            PackageRule::NoPackageName => "NoPackageName",
            PackageRule::PackageMismatch => "PackageMismatch",
            PackageRule::DuplicateName => "DuplicateName",
            PackageRule::NameNotFound => "NameNotFound",
            PackageRule::WrongKind => "WrongKind",
            PackageRule::Cycle => "Cycle",
            PackageRule::BorrowInResult => "BorrowInResult",
            PackageRule::BadConstructor => "BadConstructor",
            PackageRule::BadHandle => "BadHandle",
            PackageRule::EmptyCases => "EmptyCases",
            PackageRule::BadGate => "BadGate",
            PackageRule::BadVersion => "BadVersion",
        }
    }
}

/// Why files aren't taken as a package.
#[derive(Clone, Copy, Debug, PartialEq, Eq, Drop, Error)]
pub enum PackageFault {
    /// A request for memory was refused.
    #[error("out of memory")]
    OutOfMemory,
    /// A text isn't read.
    #[error("{0}")]
    Syntax(SyntaxFault),
    /// The files break a rule.
    #[error("{rule}")]
    Broken {
        /// The rule.
        rule: PackageRule,
        /// Where: the name, the type, the result, the version or the first gate that breaks it. Where no file has a header it is the
        /// first item, and empty where there is none.
        span: Span,
    },
}

impl From<AllocError> for PackageFault {
    ghost use Rattle.wit_rules.specs.declared.fault.PackageFault.TheVariants.{OutOfMemory};

    ghost from_gives = { λ _ e. e ≡ OutOfMemory };

    fn from(_e: AllocError) -> PackageFault {
        PackageFault::OutOfMemory
    }
}

impl<T: Drop> From<AllocFailed<T>> for PackageFault {
    ghost use Rattle.wit_rules.specs.declared.fault.PackageFault.TheVariants.{OutOfMemory};

    ghost from_gives = { λ _ e. e ≡ OutOfMemory };

    fn from(_e: AllocFailed<T>) -> PackageFault {
        PackageFault::OutOfMemory
    }
}
