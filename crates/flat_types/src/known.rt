//! Core types of values, and what their types hold.

ghost use Rattle.std.specs.Prelude.{◌≡◌, [], ◌-◌, ◌++◌, length, take, map, IfOk, OnOk};
ghost use Rattle.wit_types.specs.declared.kind.«Type».TheVariants.{U64, F32, F64, String};
ghost use Rattle.flat_types.specs.Flat as flat;
ghost use Rattle.flat_types.specs.Flats as spec;
ghost use Rattle.flat_types.specs.Gathered as gathered;
ghost use Rattle.flat_types.specs.View.{flat_value, known_value};

use std::alloc::{AllocError, Global};
use wasm_types::ValType;

/// As many core types are kept of a value: one more than parameters may be.
pub const CAP: usize = 17;

/// The first core types of a value, and what its type holds.
#[derive(Drop)]
pub struct Flat {
    /// The core types, up to the cap.
    pub values: Vec<ValType>,
    /// Whether a string is in it.
    pub holds_string: bool,
    /// Whether a list is in it whose length isn't known.
    pub holds_list: bool,
}

/// The same where it is used.
#[derive(Clone, Copy)]
pub struct Known<'a> {
    /// The core types, up to the cap.
    pub values: &'a [ValType],
    /// Whether a string is in it.
    pub holds_string: bool,
    /// Whether a list is in it whose length isn't known.
    pub holds_list: bool,
}

/// Of core types that hold nothing.
fn holding_nothing(values: &[ValType]) -> Known<'_>
    ensures { known_value result ≡ spec.holding_nothing values.now }
{
    Known {
        values,
        holds_string: false,
        holds_list: false,
    }
}

/// Of nothing.
pub fn nothing() -> Known<'static>
    ensures { known_value result ≡ spec.nothing }
{
    holding_nothing(&[])
}

/// Of a handle, and of all else that is one `i32`.
pub fn a_handle() -> Known<'static>
    ensures { known_value result ≡ spec.a_handle }
{
    holding_nothing(&[ValType::I32])
}

/// Of an integer of 64 bits.
pub fn a_long_integer() -> Known<'static>
    ensures { known_value result ≡ spec.ref_flat [] U64 }
{
    holding_nothing(&[ValType::I64])
}

/// Of an `f32`.
pub fn a_float() -> Known<'static>
    ensures { known_value result ≡ spec.ref_flat [] F32 }
{
    holding_nothing(&[ValType::F32])
}

/// Of an `f64`.
pub fn a_long_float() -> Known<'static>
    ensures { known_value result ≡ spec.ref_flat [] F64 }
{
    holding_nothing(&[ValType::F64])
}

/// Of a string: where it begins, and how long it is.
pub fn a_string() -> Known<'static>
    ensures { known_value result ≡ spec.ref_flat [] String }
{
    Known {
        values: &[ValType::I32, ValType::I32],
        holds_string: true,
        holds_list: false,
    }
}

/// The core type that two share which stand in one place.
fn join(first: ValType, second: ValType) -> ValType
    ensures { result ≡ flat.join first second }
{
    match (first, second) {
        (ValType::I32, ValType::I32 | ValType::F32) | (ValType::F32, ValType::I32) => ValType::I32,
        (ValType::F32, ValType::F32) => ValType::F32,
        (ValType::F64, ValType::F64) => ValType::F64,
        _ => ValType::I64,
    }
}

/// Puts a core type at a place: beside what is there, or behind the last.
fn put(places: &mut Vec<ValType>, place: usize, value: ValType) -> Result<(), AllocError>
    ensures { OnOk result (places.new.items ≡ gathered.put places.old.items place value) }
{
    if place < places.len() {
        places[place] = join(places[place], value);
        return Ok(());
    }
    places.push(value)?;
    Ok(())
}

/// Puts core types into the same places as others, the first into the first.
fn join_places(places: &mut Vec<ValType>, others: &[ValType]) -> Result<(), AllocError>
    ensures { OnOk result (places.new.items ≡ flat.join_places places.old.items others.now) }
{
    for (place, other) in others.iter().enumerate() {
        put(places, place, *other)?;
    }
    Ok(())
}

/// Puts core types behind others, as far as the cap.
fn append(values: &mut Vec<ValType>, more: &[ValType]) -> Result<(), AllocError>
    ensures { OnOk result (values.new.items ≡ values.old.items ++ take (spec.cap - length values.old.items) more.now) }
{
    let room = CAP.saturating_sub(values.len());
    values.extend_from_slice(&more[..room.min(more.len())])?;
    Ok(())
}

impl Flat {
    /// Of nothing.
    pub fn nothing(alloc: Global) -> Flat
        ensures { flat_value result ≡ spec.nothing }
    {
        Flat {
            values: Vec::new(alloc),
            holds_string: false,
            holds_list: false,
        }
    }

    /// The same where it is used.
    pub fn known(&self) -> Known<'_>
        ensures { known_value result ≡ flat_value self.now }
    {
        Known {
            values: self.values.as_slice(),
            holds_string: self.holds_string,
            holds_list: self.holds_list,
        }
    }

    /// Notes what a part holds.
    fn hold(&mut self, part: Known<'_>)
        ensures { flat_value self.new ≡ gathered.holding (flat_value self.old) (known_value part.entry) }
    {
        self.holds_string |= part.holds_string;
        self.holds_list |= part.holds_list;
    }

    /// Puts a part behind what is there, as far as the cap.
    pub fn append(&mut self, part: Known<'_>) -> Result<(), AllocError>
        ensures { OnOk result (flat_value self.new ≡ gathered.behind (flat_value self.old) (known_value part.entry)) }
    {
        self.hold(part);
        append(&mut self.values, part.values)?;
        Ok(())
    }

    /// Puts a part into the same places as what is there.
    pub fn join(&mut self, part: Known<'_>) -> Result<(), AllocError>
        ensures { OnOk result (flat_value self.new ≡ gathered.beside (flat_value self.old) (known_value part.entry)) }
    {
        self.hold(part);
        join_places(&mut self.values, part.values)?;
        Ok(())
    }

    /// What cases share, behind their number.
    pub fn with_number(self) -> Result<Flat, AllocError>
        ensures { IfOk result (λ f. flat_value f ≡ gathered.numbered (flat_value self)) }
    {
        let mut values = self.values;
        values.truncate(CAP - 1);
        values.insert(0, ValType::I32)?;
        Ok(Flat {
            values,
            holds_string: self.holds_string,
            holds_list: self.holds_list,
        })
    }
}

impl Known<'_> {
    /// Of a list of it whose length isn't known: where it begins, and how long it is.
    pub fn list(self) -> Known<'static>
        ensures { known_value result ≡ gathered.list_of (known_value self.entry) }
    {
        Known {
            values: &[ValType::I32, ValType::I32],
            holds_string: self.holds_string,
            holds_list: true,
        }
    }

    /// The same, kept.
    pub fn keep(self, alloc: Global) -> Result<Flat, AllocError>
        ensures { IfOk result (λ f. flat_value f ≡ known_value self.entry) }
    {
        Ok(Flat {
            values: Vec::from_slice(alloc, self.values)?,
            holds_string: self.holds_string,
            holds_list: self.holds_list,
        })
    }

    /// So many times one after the other. As many times as the cap are enough: either the cap is reached by then, or there
    /// are no core types.
    pub fn repeat(self, alloc: Global, length: u32) -> Result<Flat, AllocError>
        ensures { IfOk result (λ f. flat_value f ≡ gathered.times length (known_value self.entry)) }
    {
        let mut values = Vec::new(alloc);
        for _turn in 0..CAP.min(length as usize) {
            append(&mut values, self.values)?;
        }
        Ok(Flat {
            values,
            holds_string: self.holds_string,
            holds_list: self.holds_list,
        })
    }
}
