//! Which options functions ask for.

ghost use Rattle.std.specs.Prelude.{⊤, ◌≡◌, [], ◌∷◌, codes, IfOk, IfErr};
ghost use Rattle.wit_types.specs.declared.mangling.AbiVariant.TheVariants.{GuestImport, GuestExport};
ghost use Rattle.flat_types.specs.Flats.{known_required};
ghost use Rattle.flat_types.specs.View as flat;
ghost use Rattle.canonical_options.specs.Options.{AreOptions, IsOptionCause};
ghost use Rattle.canonical_options.specs.View.{required_value, left_of};

use crate::options::{Iter, OptionFault};
use bitflags::{Flag, Flags, bitflag_items};
use flat_types::{FlatTypes, Required};
use link_lines::StringEncoding;
use wit_types::{AbiVariant, Function};

/// The options that a function asks for, so that its values can be passed (Component Model, Canonical ABI, canon lift and
/// canon lower).
#[derive(Clone, Copy, Debug, PartialEq, Eq)]
pub struct RequiredOptions(u8);

bitflag_items! {
    impl RequiredOptions: u8 {
        /// A memory.
        const MEMORY = 1;
        /// A function that makes room in the module, for what comes in.
        const REALLOC = 2;
        /// How strings are encoded.
        const STRING_ENCODING = 4;
    }
}

impl Flags for RequiredOptions {
    type Bits = u8;

    ghost exact = { ⊤ };

    ghost table = { (codes "MEMORY", 1) ∷ (codes "REALLOC", 2) ∷ (codes "STRING_ENCODING", 4) ∷ [] };

    ghost set_of = { λ o. o.0 };

    fn flags<'a>() -> &'a [Flag<RequiredOptions>] {
        RequiredOptions::FLAGS
    }

    fn bits(&self) -> u8 {
        self.0
    }

    fn from_bits_retain(bits: u8) -> RequiredOptions {
        RequiredOptions(bits)
    }
}

impl RequiredOptions {
    /// The set of what is asked for.
    fn of(required: Required) -> RequiredOptions
        ensures { required_value result ≡ flat.required_value required }
    {
        let mut options = RequiredOptions::empty();
        options.set(RequiredOptions::MEMORY, required.memory);
        options.set(RequiredOptions::REALLOC, required.realloc);
        options.set(RequiredOptions::STRING_ENCODING, required.encoding);
        options
    }

    /// What a function over these types asks for that a module imports (Component Model, Canonical ABI, canon lower): a memory for
    /// a string or a list anywhere, and where parameters or the result lie in memory; what makes room for a string or a list in the
    /// result; an encoding for a string anywhere.
    pub fn for_import(types: &FlatTypes, function: &Function) -> RequiredOptions
        ensures { required_value result ≡ known_required types.now GuestImport function.now.params.items function.now.result }
    {
        RequiredOptions::of(types.required(AbiVariant::GuestImport, function))
    }

    /// What a function over these types asks for that a module exports (Component Model, Canonical ABI, canon lift): a memory for a
    /// string or a list anywhere, and where parameters or the result lie in memory; what makes room for a string or a list in the
    /// parameters, and where they lie in memory; an encoding for a string anywhere.
    pub fn for_export(types: &FlatTypes, function: &Function) -> RequiredOptions
        ensures { required_value result ≡ known_required types.now GuestExport function.now.params.items function.now.result }
    {
        RequiredOptions::of(types.required(AbiVariant::GuestExport, function))
    }

    /// The options that are asked for, in this order: the memory, what makes room in it, the encoding. Answers `NoMemory` where a
    /// memory is asked for and none is given; else `NoRealloc` where what makes room is asked for and none is given.
    pub fn into_iter(
        self,
        encoding: StringEncoding,
        memory: Option<u32>,
        realloc: Option<u32>,
    ) -> Result<Iter, OptionFault>
        ensures ok { IfOk result (λ i. AreOptions (required_value self) encoding memory realloc (left_of i)) }
        ensures cause { IfErr result (IsOptionCause (required_value self) memory realloc) }
    {
        let memory = if self.contains(RequiredOptions::MEMORY) {
            Some(memory.ok_or(OptionFault::NoMemory)?)
        } else {
            None
        };
        let realloc = if self.contains(RequiredOptions::REALLOC) {
            Some(realloc.ok_or(OptionFault::NoRealloc)?)
        } else {
            None
        };
        let encoding = self
            .contains(RequiredOptions::STRING_ENCODING)
            .then_some(encoding);
        Ok(Iter {
            memory,
            realloc,
            encoding,
        })
    }
}
