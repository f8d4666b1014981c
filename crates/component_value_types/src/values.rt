//! Value types.

ghost use Rattle.std.specs.Prelude.{◌≡◌, ◌^◌, ◌≤◌, true};
ghost use Rattle.binary_grammar.specs.Signed.{lies_in};
ghost use Rattle.component_value_types.specs.Values as spec;

use crate::scope::Scope;
use binary_grammar::{Part, ReadError, Reader, Rule, WriteFault, broken_at, put_signed};

/// A primitive value type (Component Model Binary, Type Definitions).
#[derive(Clone, Copy, Debug, PartialEq, Eq)]
pub enum PrimitiveValueType {
    /// `bool`
    Bool,
    /// `s8`
    S8,
    /// `u8`
    U8,
    /// `s16`
    S16,
    /// `u16`
    U16,
    /// `s32`
    S32,
    /// `u32`
    U32,
    /// `s64`
    S64,
    /// `u64`
    U64,
    /// `f32`
    F32,
    /// `f64`
    F64,
    /// `char`
    Char,
    /// `string`
    String,
}

/// A value type: a primitive one, or the type at an index.
#[derive(Clone, Copy, Debug, PartialEq, Eq)]
pub enum ValueType {
    /// A primitive type.
    Primitive(PrimitiveValueType),
    /// The type at this index.
    Index(u32),
}

impl PrimitiveValueType {
    /// The type at a place in the order of their numbers.
    #[tactic(auto, unfolding(crate::specs::Values::primitive_at))]
    fn at(place: u8) -> Result<PrimitiveValueType, Rule>
        ensures { result ≡ spec.primitive_at place }
    {
        match place {
            0 => Ok(PrimitiveValueType::Bool),
            1 => Ok(PrimitiveValueType::S8),
            2 => Ok(PrimitiveValueType::U8),
            3 => Ok(PrimitiveValueType::S16),
            4 => Ok(PrimitiveValueType::U16),
            5 => Ok(PrimitiveValueType::S32),
            6 => Ok(PrimitiveValueType::U32),
            7 => Ok(PrimitiveValueType::S64),
            8 => Ok(PrimitiveValueType::U64),
            9 => Ok(PrimitiveValueType::F32),
            10 => Ok(PrimitiveValueType::F64),
            11 => Ok(PrimitiveValueType::Char),
            12 => Ok(PrimitiveValueType::String),
            _ => Err(Rule::Tag),
        }
    }

    /// The place of the type.
    fn place(self) -> u8
        ensures value { result ≡ spec.primitive_place self }
        ensures within { result ≤ 12 }
    {
        match self {
            PrimitiveValueType::Bool => 0,
            PrimitiveValueType::S8 => 1,
            PrimitiveValueType::U8 => 2,
            PrimitiveValueType::S16 => 3,
            PrimitiveValueType::U16 => 4,
            PrimitiveValueType::S32 => 5,
            PrimitiveValueType::U32 => 6,
            PrimitiveValueType::S64 => 7,
            PrimitiveValueType::U64 => 8,
            PrimitiveValueType::F32 => 9,
            PrimitiveValueType::F64 => 10,
            PrimitiveValueType::Char => 11,
            PrimitiveValueType::String => 12,
        }
    }

    /// The type that a byte stands for.
    pub fn of_byte(byte: u8) -> Result<PrimitiveValueType, Rule>
        ensures { result ≡ spec.primitive_of byte }
    {
        if byte > 127 {
            return Err(Rule::Tag);
        }
        PrimitiveValueType::at(127 - byte)
    }

    /// The byte that stands for the type.
    pub fn byte(self) -> u8
        ensures { result ≡ spec.primitive_byte self }
    {
        127 - self.place()
    }
}

impl ValueType {
    /// The number that stands for it.
    fn number(self) -> i64
        ensures { result ≡ spec.value_number self }
    {
        match self {
            ValueType::Primitive(primitive) => -1 - i64::from(primitive.place()),
            ValueType::Index(index) => i64::from(index),
        }
    }

    /// Whether so many bytes may stand for it.
    fn fits(self, size: usize) -> bool
        ensures { result ≡ spec.fits_value size self }
    {
        match self {
            ValueType::Primitive(_) => size == 1,
            ValueType::Index(_) => true,
        }
    }
}

/// The value type that a number stands for.
#[tactic(auto, unfolding(crate::specs::Values::primitive_at))]
fn value_type_of(there: Scope, number: i64) -> Result<ValueType, Rule>
    requires { lies_in (2 ^ 32) number ≡ true }
    ensures { result ≡ spec.value_type_of there number }
{
    if number >= 0 {
        if number as usize >= there.types {
            return Err(Rule::Index);
        }
        return Ok(ValueType::Index(number as u32));
    }
    match -1 - number {
        0 => Ok(ValueType::Primitive(PrimitiveValueType::Bool)),
        1 => Ok(ValueType::Primitive(PrimitiveValueType::S8)),
        2 => Ok(ValueType::Primitive(PrimitiveValueType::U8)),
        3 => Ok(ValueType::Primitive(PrimitiveValueType::S16)),
        4 => Ok(ValueType::Primitive(PrimitiveValueType::U16)),
        5 => Ok(ValueType::Primitive(PrimitiveValueType::S32)),
        6 => Ok(ValueType::Primitive(PrimitiveValueType::U32)),
        7 => Ok(ValueType::Primitive(PrimitiveValueType::S64)),
        8 => Ok(ValueType::Primitive(PrimitiveValueType::U64)),
        9 => Ok(ValueType::Primitive(PrimitiveValueType::F32)),
        10 => Ok(ValueType::Primitive(PrimitiveValueType::F64)),
        11 => Ok(ValueType::Primitive(PrimitiveValueType::Char)),
        12 => Ok(ValueType::Primitive(PrimitiveValueType::String)),
        _ => Err(Rule::Tag),
    }
}

impl<'a> Part<'a> for ValueType {
    type Context = Scope;

    ghost use Rattle.component_value_types.specs.declared.scope.Scope.{Scope};
    ghost use Rattle.component_value_types.specs.declared.values.ValueType.{ValueType};
    ghost use Rattle.component_value_types.specs.Values as spec;

    ghost Value = { ValueType };

    ghost Known = { Scope };

    ghost syntax = { spec.value_type };

    ghost known = { λ s. s };

    ghost value = { λ t. t };

    #[tactic(auto, unfolding(crate::specs::Values::value_type))]
    fn read(there: Scope, from: &mut Reader<'a>) -> Result<ValueType, ReadError> {
        let at = from.left();
        let number = from.signed(33)?;
        let size = at - from.left();
        match value_type_of(there, number) {
            Ok(ty) if ty.fits(size) => Ok(ty),
            Ok(_) => Err(broken_at(Rule::Tag, at)),
            Err(rule) => Err(broken_at(rule, at)),
        }
    }

    #[tactic(auto, unfolding(crate::specs::Values::value_type))]
    fn put(&self, out: &mut Vec<u8>) -> Result<(), WriteFault> {
        put_signed(out, 33, self.number())?;
        Ok(())
    }
}
