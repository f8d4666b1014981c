//! How large flags and tags are.

ghost use Rattle.std.specs.Prelude.{◌≡◌, length};
ghost use Rattle.wit_types.specs.Size.{IsFlagsRepr, IsTag, count_of};

use crate::kind::{Enum, Flags, Variant};

/// An integer without a sign.
#[derive(Clone, Copy, Debug, PartialEq, Eq)]
pub enum Int {
    /// 8 bits.
    U8,
    /// 16 bits.
    U16,
    /// 32 bits.
    U32,
    /// 64 bits.
    U64,
}

/// The integers that hold flags, a bit each.
#[derive(Clone, Copy, Debug, PartialEq, Eq)]
pub enum FlagsRepr {
    /// One of 8 bits.
    U8,
    /// One of 16 bits.
    U16,
    /// So many of 32 bits.
    U32(usize),
}

impl FlagsRepr {
    /// How many core values of 32 bits hold them.
    pub fn count(&self) -> usize
        ensures { result ≡ count_of self.now }
    {
        match self {
            FlagsRepr::U8 | FlagsRepr::U16 => 1,
            FlagsRepr::U32(count) => *count,
        }
    }
}

impl Flags {
    /// The integers that hold them: no flags none, up to 8 one of 8 bits, up to 16 one of 16, and more as few of 32 as
    /// hold a bit for each (Canonical ABI, Alignment).
    pub fn repr(&self) -> FlagsRepr
        ensures { IsFlagsRepr (length self.now.flags.items) result }
    {
        match self.flags.len() {
            0 => FlagsRepr::U32(0),
            1..=8 => FlagsRepr::U8,
            9..=16 => FlagsRepr::U16,
            count => FlagsRepr::U32(count.div_ceil(32)),
        }
    }
}

/// The least integer that tells so many cases apart.
fn tag_of(count: usize) -> Int
    ensures { IsTag count result }
{
    if count <= 1 << 8 {
        Int::U8
    } else if count <= 1 << 16 {
        Int::U16
    } else {
        Int::U32
    }
}

impl Variant {
    /// The least of 8, 16 and 32 bits that holds the number of the last case, counted from 0 (Canonical ABI, Alignment); 32
    /// bits also where there are more than 4,294,967,296 cases, which no text has.
    pub fn tag(&self) -> Int
        ensures { IsTag (length self.now.cases.items) result }
    {
        tag_of(self.cases.len())
    }
}

impl Enum {
    /// The least of 8, 16 and 32 bits that holds the number of the last case, counted from 0 (Canonical ABI, Alignment); 32
    /// bits also where there are more than 4,294,967,296 cases, which no text has.
    pub fn tag(&self) -> Int
        ensures { IsTag (length self.now.cases.items) result }
    {
        tag_of(self.cases.len())
    }
}
