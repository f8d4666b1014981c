//! What types hold that lies in memory.

ghost use Rattle.std.specs.Prelude.{⊤, ◌≡◌, [], ◌∷◌, codes};
ghost use Rattle.flat_types.specs.Flats.{ref_flat, part_flat, params_flat, of_fields};
ghost use Rattle.canonical_options.specs.Contents as spec;
ghost use Rattle.canonical_options.specs.View.{contents_value};

use bitflags::{Flag, Flags, bitflag_items};
use flat_types::FlatTypes;
use wit_types::{Param, Type};

/// What values hold that lies in memory (Component Model, Canonical ABI, Storing). Handles hold nothing.
#[derive(Clone, Copy, Debug, PartialEq, Eq)]
pub struct TypeContents(u8);

bitflag_items! {
    impl TypeContents: u8 {
        /// A string.
        const STRING = 1;
        /// A list whose length isn't known. A string alone, which lies in memory as well, is `STRING` and not this.
        const NEEDS_MEMORY = 2;
    }
}

impl Flags for TypeContents {
    type Bits = u8;

    ghost exact = { ⊤ };

    ghost table = { (codes "STRING", 1) ∷ (codes "NEEDS_MEMORY", 2) ∷ [] };

    ghost set_of = { λ c. c.0 };

    fn flags<'a>() -> &'a [Flag<TypeContents>] {
        TypeContents::FLAGS
    }

    fn bits(&self) -> u8 {
        self.0
    }

    fn from_bits_retain(bits: u8) -> TypeContents {
        TypeContents(bits)
    }
}

impl TypeContents {
    /// The set of what is held.
    fn of(string: bool, list: bool) -> TypeContents
        ensures { contents_value result ≡ record { string = string; needs_memory = list } }
    {
        let mut contents = TypeContents::empty();
        contents.set(TypeContents::STRING, string);
        contents.set(TypeContents::NEEDS_MEMORY, list);
        contents
    }

    /// What a value of a type holds.
    pub fn for_type(types: &FlatTypes, ty: &Type) -> TypeContents
        ensures { contents_value result ≡ spec.contents_of (ref_flat types.now ty.now) }
    {
        TypeContents::for_optional_type(types, &Some(*ty))
    }

    /// What a value of a type holds, if there is one; nothing where there is none.
    pub fn for_optional_type(types: &FlatTypes, ty: &Option<Type>) -> TypeContents
        ensures { contents_value result ≡ spec.contents_of (part_flat types.now ty.now) }
    {
        TypeContents::of(types.holds_string(*ty), types.holds_list(*ty))
    }

    /// What the parameters of a function hold, all together.
    #[tactic(auto, using(flat_types::proofs::Signing::any_of_map))]
    pub fn for_types(types: &FlatTypes, params: &[Param]) -> TypeContents
        ensures { contents_value result ≡ spec.contents_of (of_fields (params_flat types.now params.now)) }
    {
        TypeContents::of(
            types.params_hold_string(params),
            types.params_hold_list(params),
        )
    }
}
