//! How core names are spelled.

ghost use Rattle.std.specs.Prelude.{◌≡◌};
ghost use Rattle.wit_types.specs.Mangling.{IsReadTo};

use std::str::FromStr;
use thiserror::Error;

/// How the imports and exports of a core module are spelled (Component Model, Build Targets).
#[derive(Clone, Copy, Debug, PartialEq, Eq)]
pub enum Mangling {
    /// The names of the standard, which begin with `cm32p2`.
    Standard32,
    /// The names from before there was a standard.
    Legacy,
}

/// A text names no spelling of core names.
#[derive(Clone, Copy, Debug, PartialEq, Eq, Drop, Error)]
#[error("neither `standard32` nor `legacy`")]
pub struct UnknownMangling;

impl FromStr for Mangling {
    type Err = UnknownMangling;

    ghost from_str_gives = { IsReadTo };

    fn from_str(text: &str) -> Result<Mangling, UnknownMangling> {
        match text {
            "standard32" => Ok(Mangling::Standard32),
            "legacy" => Ok(Mangling::Legacy),
            _ => Err(UnknownMangling),
        }
    }
}

/// On which side of a core module a function stands (Canonical ABI, Flattening).
#[derive(Clone, Copy, Debug, PartialEq, Eq)]
pub enum AbiVariant {
    /// The module imports it.
    GuestImport,
    /// The module exports it.
    GuestExport,
}
