//! Reading and writing signed numbers of up to 64 bits.

ghost use Rattle.std.specs.Prelude.{◌≡◌, ◌+◌, ◌-◌, ◌^◌, ◌<◌, ◌≤◌, ◌++◌, true, IfOk, OnOk, Err};
ghost use Rattle.binary_grammar.specs.Fault.{Gives};
ghost use Rattle.binary_grammar.specs.Format.{leb_at};
ghost use Rattle.binary_grammar.specs.Signed as spec;
ghost use Rattle.binary_grammar.specs.Signed.{half, lies_in, signed, signed_in, all_digits, unsigned_in, signed_digits, signed_bytes};

use crate::fault::{ReadError, Rule};
use crate::reader::broken_at;
use crate::reading::{byte_of, fault};
use crate::writing::WriteFault;
use std::alloc::AllocError;

/// The digits of a LEB128 number, at most so many.
#[tactic(auto, unfolding(crate::specs::Format::leb_at))]
fn wide_digits_of(bytes: &[u8], most: u32) -> Result<(u128, &[u8]), ReadError>
    requires { most ≤ 10 }
    ensures gives { Gives (λ x. (x.0, x.1.now)) result (leb_at most bytes.now) }
    ensures small { IfOk result (λ x. x.0 < 128 ^ most) }
{
    if most == 0 {
        return Err(fault(Rule::Number, bytes));
    }
    let (first, rest) = byte_of(bytes)?;
    if first < 128 {
        return Ok((u128::from(first), rest));
    }
    let (high, rest) = wide_digits_of(rest, most - 1)?;
    Ok((u128::from(first) - 128 + 128 * high, rest))
}

/// What so many digits can say.
fn power_of(size: u32) -> u128
    requires { size ≤ 10 }
    ensures { result ≡ 128 ^ size }
{
    if size == 0 {
        return 1;
    }
    128 * power_of(size - 1)
}

/// Half of what so many digits can say.
fn half_of(size: u32) -> u128
    requires { (1 ≤ size) × (size ≤ 10) }
    ensures { result ≡ half size }
{
    64 * power_of(size - 1)
}

/// How many numbers of so many bits there are below zero.
fn limit_of(bits: u32) -> u128
    requires { (1 ≤ bits) × (bits ≤ 64) }
    ensures { result ≡ 2 ^ (bits - 1) }
{
    1 << (bits - 1)
}

/// What these digits, so many, stand for.
#[tactic(auto, using(crate::proofs::Bits::above_zero, crate::proofs::Bits::too_far_above, crate::proofs::Bits::below_zero, crate::proofs::Bits::too_far_below))]
fn signed_at(bits: u32, size: u32, n: u128) -> Result<i64, Rule>
    requires bits { (1 ≤ bits) × (bits ≤ 64) }
    requires size { (1 ≤ size) × (size ≤ 10) }
    requires small { n < 2 ^ 70 }
    ensures { result ≡ signed_in bits size n }
{
    let half = half_of(size);
    let limit = limit_of(bits);
    if n < half {
        if n < limit {
            Ok(n as i64)
        } else {
            Err(Rule::Number)
        }
    } else {
        let below = (half + half).saturating_sub(n + 1);
        if below < limit {
            Ok(-1 - below as i64)
        } else {
            Err(Rule::Number)
        }
    }
}

/// A signed number of so many bits (WebAssembly Core, Binary Format, Values, Integers).
#[tactic(auto, using(crate::proofs::Bits::takes_digits), unfolding(crate::specs::Signed::signed))]
pub fn signed_of(bits: u32, bytes: &[u8]) -> Result<(i64, &[u8]), ReadError>
    requires { (1 ≤ bits) × (bits ≤ 64) }
    ensures { Gives (λ x. (x.0, x.1.now)) result ((signed bits).read bytes.now) }
{
    let (number, rest) = wide_digits_of(bytes, (bits + 6) / 7)?;
    let size = (bytes.len() - rest.len()) as u32;
    match signed_at(bits, size, number) {
        Ok(found) => Ok((found, rest)),
        Err(rule) => Err(broken_at(rule, bytes.len())),
    }
}

/// How far from zero a number is; below zero, how far from -1.
fn distance(z: i64) -> u64
    ensures { result ≡ spec.distance z }
{
    if z >= 0 { z as u64 } else { (-1 - z) as u64 }
}

/// The number whose digits, so many, say this one.
fn unsigned_of(size: u32, z: i64) -> u128
    requires { size ≤ 10 }
    ensures { result ≡ unsigned_in size z }
{
    let far = u128::from(distance(z));
    if z >= 0 {
        far
    } else {
        power_of(size).saturating_sub(far + 1)
    }
}

/// Adds so many digits.
#[tactic(auto, unfolding(crate::specs::Signed::all_digits))]
fn put_all_digits(out: &mut Vec<u8>, size: u32, n: u128) -> Result<(), AllocError>
    requires { (1 ≤ size) × (n < 128 ^ size) }
    ensures { OnOk result (out.new.items ≡ out.old.items ++ all_digits size n) }
{
    if size == 1 {
        out.push(n as u8)?;
        return Ok(());
    }
    out.push((n % 128 + 128) as u8)?;
    put_all_digits(out, size - 1, n / 128)?;
    Ok(())
}

/// Adds a number in so many digits, or in up to so many more.
#[tactic(auto, unfolding(crate::specs::Signed::signed_digits))]
fn put_signed_digits(out: &mut Vec<u8>, more: u32, size: u32, z: i64) -> Result<(), AllocError>
    requires some { (1 ≤ size) × (size + more ≤ 10) }
    requires within { lies_in (half (size + more)) z ≡ true }
    ensures { OnOk result (out.new.items ≡ out.old.items ++ signed_digits more size z) }
{
    if more == 0 || u128::from(distance(z)) < half_of(size) {
        put_all_digits(out, size, unsigned_of(size, z))?;
        return Ok(());
    }
    put_signed_digits(out, more - 1, size + 1, z)?;
    Ok(())
}

/// Adds a signed number in the fewest bytes that so many bits need. Answers `TooLarge` where they can't say it.
#[tactic(auto, unfolding(crate::specs::Signed::signed_bytes))]
pub fn put_signed(out: &mut Vec<u8>, bits: u32, z: i64) -> Result<(), WriteFault>
    requires { (1 ≤ bits) × (bits ≤ 64) }
    ensures bytes { OnOk result (out.new.items ≡ out.old.items ++ signed_bytes bits z) }
    ensures typed { OnOk result (lies_in (2 ^ (bits - 1)) z ≡ true) }
    ensures large { result ≡ Err WriteFault.TooLarge → lies_in (2 ^ (bits - 1)) z ≡ true → ⊥ }
{
    if u128::from(distance(z)) >= limit_of(bits) {
        return Err(WriteFault::TooLarge);
    }
    put_signed_digits(out, (bits + 6) / 7 - 1, 1, z)?;
    Ok(())
}
