//! A cursor over bytes.

ghost use Rattle.std.specs.Prelude.{◌≡◌, ◌+◌, ◌-◌, ◌<◌, ◌≤◌, ◌^◌, ◌==◌, true, false, length, IfOk, IfErr};
ghost use Rattle.binary_grammar.specs.Cursor.{Cursor, offset as place};
ghost use Rattle.binary_grammar.specs.Fault.{Gives};
ghost use Rattle.binary_grammar.specs.Format.{byte_at, u32_at, Format, index, chunk, name, such, byte, counted_bytes, fault_at};
ghost use Rattle.binary_grammar.specs.Signed.{signed};

use crate::fault::{Fault, ReadError, Rule};
use crate::reading::{byte_of, chunk_of, index_of, name_of, u32_of};
use crate::signed_number::signed_of;
use std::alloc::Global;
use std::marker::Model;

/// Bytes that are still to be read, and where they end.
#[derive(Drop)]
pub struct Reader<'a> {
    alloc: Global,
    rest: &'a [u8],
    end: usize,
}

impl<'a> Model for Reader<'a> {
    ghost use Rattle.std.specs.Prelude.{◌≤◌, length};
    ghost use Rattle.binary_grammar.specs.Cursor.{Cursor};

    ghost Value = { Cursor };

    ghost view = { λ r. record { left = r.rest.now; end = r.end } };

    ghost invariant = { λ r. length r.rest.now ≤ r.end };
}

impl<'a> Reader<'a> {
    /// A cursor in front of these bytes, from whose start places count.
    pub fn new(alloc: Global, bytes: &'a [u8]) -> Reader<'a>
        ensures { result ≡ record { left = bytes.now; end = length bytes.now } }
    {
        Reader {
            alloc,
            rest: bytes,
            end: bytes.len(),
        }
    }

    /// The allocator of what is read.
    pub fn allocator(&self) -> Global {
        self.alloc
    }

    /// The bytes that are left.
    pub fn rest(&self) -> &'a [u8]
        ensures { result.now ≡ self.now.left }
    {
        self.rest
    }

    /// How many bytes are left.
    pub fn left(&self) -> usize
        ensures { result ≡ length self.now.left }
    {
        self.rest.len()
    }

    /// Whether no bytes are left.
    pub fn is_done(&self) -> bool
        ensures { result ≡ (length self.now.left == 0) }
    {
        self.rest.is_empty()
    }

    /// Where what is left begins, counted in bytes from the start of all.
    pub fn offset(&self) -> usize
        ensures value { result ≡ place self.now }
        ensures within { result + length self.now.left ≡ self.now.end }
    {
        self.end - self.rest.len()
    }

    /// Refuses bytes that are left.
    pub fn ended(&self) -> Result<(), ReadError>
        ensures done { IfOk result (λ _. (length self.now.left == 0) ≡ true) }
        ensures refused { IfErr result (λ e. ((length self.now.left == 0) ≡ false) × (e ≡ ReadError.Malformed (fault_at Rule.Trailing self.now.left))) }
    {
        if self.is_done() {
            Ok(())
        } else {
            Err(self.broken(Rule::Trailing))
        }
    }

    /// The error that this rule is broken here.
    pub fn broken(&self, rule: Rule) -> ReadError
        ensures { result ≡ ReadError.Malformed (record { rule = rule; left = length self.now.left }) }
    {
        broken_at(rule, self.rest.len())
    }

    /// One byte.
    #[tactic(auto, using(crate::proofs::Shorter::byte_shorter))]
    pub fn byte(&mut self) -> Result<u8, ReadError>
        ensures gives { Gives (λ x. (x, self.new.left)) result (byte_at self.old.left) }
        ensures end { self.new.end ≡ self.old.end }
        ensures fits { IfOk result (λ x. x < 256) }
    {
        let (byte, rest) = byte_of(self.rest)?;
        self.rest = rest;
        Ok(byte)
    }

    /// This byte, or this rule is broken where another one stands.
    pub fn byte_is(&mut self, rule: Rule, wanted: u8) -> Result<(), ReadError>
        ensures gives { Gives (λ _. (wanted, self.new.left)) result ((such rule (λ b. b == wanted) byte).read self.old.left) }
        ensures end { self.new.end ≡ self.old.end }
    {
        let at = self.rest.len();
        let found = self.byte()?;
        if found != wanted {
            return Err(broken_at(rule, at));
        }
        Ok(())
    }

    /// An unsigned number of at most 32 bits in at most five bytes (WebAssembly Core, Binary Format, Values, Integers).
    #[tactic(auto, using(crate::proofs::Shorter::number_shorter))]
    pub fn number(&mut self) -> Result<u32, ReadError>
        ensures gives { Gives (λ x. (x, self.new.left)) result (u32_at self.old.left) }
        ensures end { self.new.end ≡ self.old.end }
    {
        let (number, rest) = u32_of(self.rest)?;
        self.rest = rest;
        Ok(number)
    }

    /// A signed number of so many bits, at most 64 (Values, Integers).
    #[tactic(auto, using(crate::proofs::Bits::signed_shorter))]
    pub fn signed(&mut self, bits: u32) -> Result<i64, ReadError>
        requires { (1 ≤ bits) × (bits ≤ 64) }
        ensures gives { Gives (λ x. (x, self.new.left)) result ((signed bits).read self.old.left) }
        ensures end { self.new.end ≡ self.old.end }
    {
        let (number, rest) = signed_of(bits, self.rest)?;
        self.rest = rest;
        Ok(number)
    }

    /// A number below a limit.
    #[tactic(auto, using(crate::proofs::Shorter::index_shorter))]
    pub fn index(&mut self, limit: usize) -> Result<u32, ReadError>
        ensures gives { Gives (λ x. (x, self.new.left)) result ((index limit).read self.old.left) }
        ensures end { self.new.end ≡ self.old.end }
    {
        let (index, rest) = index_of(limit, self.rest)?;
        self.rest = rest;
        Ok(index)
    }

    /// So many bytes.
    #[tactic(auto, using(crate::proofs::Shorter::chunk_shorter))]
    pub fn bytes(&mut self, size: u32) -> Result<&'a [u8], ReadError>
        ensures gives { Gives (λ x. (x.now, self.new.left)) result ((chunk size).read self.old.left) }
        ensures end { self.new.end ≡ self.old.end }
    {
        let (bytes, rest) = chunk_of(size, self.rest)?;
        self.rest = rest;
        Ok(bytes)
    }

    /// A size, and a cursor over so many bytes.
    #[tactic(auto, using(crate::proofs::Shorter::chunk_parts))]
    pub fn inside(&mut self) -> Result<Reader<'a>, ReadError>
        ensures gives { Gives (λ x. (x.left, self.new.left)) result (counted_bytes.read self.old.left) }
        ensures end { self.new.end ≡ self.old.end }
        ensures inner { IfOk result (λ x. (x.end + length self.new.left ≡ self.new.end) × (length x.left + length self.new.left < 2 ^ 64)) }
    {
        let size = self.number()?;
        let start = self.offset();
        let inside = self.bytes(size)?;
        Ok(Reader {
            alloc: self.alloc,
            rest: inside,
            end: start + inside.len(),
        })
    }

    /// A length, and so many bytes of UTF-8 (Values, Names).
    #[tactic(auto, using(crate::proofs::Shorter::name_shorter))]
    pub fn name(&mut self) -> Result<&'a str, ReadError>
        ensures gives { Gives (λ x. (x.now, self.new.left)) result (name.read self.old.left) }
        ensures end { self.new.end ≡ self.old.end }
    {
        let (text, rest) = name_of(self.rest)?;
        self.rest = rest;
        Ok(text)
    }
}

/// The error that this rule is broken where so many bytes are left.
pub fn broken_at(rule: Rule, left: usize) -> ReadError
    ensures { result ≡ ReadError.Malformed (record { rule = rule; left = left }) }
{
    ReadError::Malformed(Fault { rule, left })
}
