//! What is written of a component: bytes of its own, and core modules that are lent.

ghost use Rattle.std.specs.Prelude.{◌≡◌, ◌+◌, ◌<◌, ◌≤◌, ◌^◌, ◌++◌, ◌∷◌, [], map, length, take, IfSome, IsSome, IfOk, IfErr, OnOk, Err};
ghost use Rattle.std.specs.Io.KnownBytes.{Appends};
ghost use Rattle.binary_grammar.specs.Syntax.{bytes, IsTyped};
ghost use Rattle.component_sections.specs.Component.{definition_value, a_core_module, component, first_section, section_of, section_bytes, IsSection};
ghost use Rattle.component_sections.specs.Passed.component_entries-Nested.{header};
ghost use Rattle.component_builder.specs.Pieces as spec;

use crate::output::{EmitFault, emit_behind};
use binary_grammar::{WriteFault, put_number};
use component_sections::{Definition, HEADER, put_section};
use std::alloc::{AllocError, Global};
use std::io::Write;
use std::mem::replace;

/// A piece of what is written.
#[derive(Drop)]
pub enum Piece<'a> {
    /// Bytes that were made.
    Own(Vec<u8>),
    /// A core module's bytes.
    Lent(&'a [u8]),
}

/// Pieces, one behind the other, and room for the content of a section.
#[derive(Drop)]
pub struct Pieces<'a> {
    done: Vec<Piece<'a>>,
    open: Vec<u8>,
    room: Vec<u8>,
}

impl<'a> Pieces<'a> {
    /// Adds a core module's bytes behind those that were made.
    fn lend(&mut self, bytes: &'a [u8]) -> Result<(), WriteFault>
        ensures bytes { OnOk result (spec.pieces_bytes self.new ≡ spec.pieces_bytes self.old ++ bytes.entry.now) }
        ensures memory { IfErr result (λ e. e ≡ WriteFault.OutOfMemory) }
    {
        let empty = Vec::new(*self.open.allocator());
        let open = replace(&mut self.open, empty);
        self.done.push(Piece::Own(open))?;
        self.done.push(Piece::Lent(bytes))?;
        Ok(())
    }

    /// Adds the section of a core module, whose bytes aren't copied.
    #[tactic(auto, using(crate::proofs::Modules::module_spelled, crate::proofs::Modules::module_typed, crate::proofs::Modules::typed_module))]
    fn put_module(&mut self, bytes: &'a [u8]) -> Result<(), WriteFault>
        ensures bytes { OnOk result (spec.pieces_bytes self.new ≡ spec.pieces_bytes self.old ++ section_bytes (section_of (a_core_module bytes.entry.now ∷ []))) }
        ensures typed { OnOk result (IsSection (section_of (a_core_module bytes.entry.now ∷ []))) }
        ensures large { result ≡ Err WriteFault.TooLarge → IsSection (section_of (a_core_module bytes.entry.now ∷ [])) → ⊥ }
    {
        let Ok(size) = u32::try_from(bytes.len()) else {
            return Err(WriteFault::TooLarge);
        };
        self.open.push(1)?;
        put_number(&mut self.open, size)?;
        self.lend(bytes)?;
        Ok(())
    }

    /// Adds the section that begins with a definition and has those behind it that share it; answers how many these are in all.
    #[tactic(auto, using(crate::proofs::Modules::module_alone))]
    fn put_section(
        &mut self,
        first: &Definition<'a>,
        more: &[Definition<'a>],
    ) -> Result<usize, WriteFault>
        ensures count { IfOk result (λ n. n ≡ length (first_section (definition_value first.now ∷ map definition_value more.now))) }
        ensures within { IfOk result (λ n. n ≤ 1 + length more.now) }
        ensures bytes { OnOk result (spec.pieces_bytes self.new ≡ spec.pieces_bytes self.old ++ section_bytes (section_of (first_section (definition_value first.now ∷ map definition_value more.now)))) }
        ensures typed { OnOk result (IsSection (section_of (first_section (definition_value first.now ∷ map definition_value more.now)))) }
        ensures large { result ≡ Err WriteFault.TooLarge → IsSection (section_of (first_section (definition_value first.now ∷ map definition_value more.now))) → ⊥ }
    {
        if let Definition::CoreModule(bytes) = first {
            self.put_module(bytes)?;
            return Ok(1);
        }
        put_section(first, more, &mut self.room, &mut self.open)
    }

    /// How many bytes they are, where 64 bits can say that.
    pub fn length(&self) -> Option<usize>
        ensures value { IfSome result (λ n. n ≡ length (spec.pieces_bytes self.now)) }
        ensures fits { length (spec.pieces_bytes self.now) < 2 ^ 64 → IsSome result }
    {
        let mut total = self.open.len();
        for piece in &self.done {
            total = total.checked_add(piece.bytes().len())?;
        }
        Some(total)
    }

    /// All of them in one vector, which is made at their length.
    pub fn joined(&self, alloc: Global) -> Result<Vec<u8>, AllocError>
        ensures { IfOk result (λ v. v.items ≡ spec.pieces_bytes self.now) }
    {
        let total = self.length().ok_or(AllocError)?;
        let mut out = Vec::with_capacity(alloc, total)?;
        for piece in &self.done {
            out.extend_from_slice(piece.bytes())?;
        }
        out.extend_from_slice(&self.open)?;
        Ok(out)
    }

    /// Writes them one behind the other. A fault says how many bytes were taken before it.
    pub fn emit<W: Write>(&self, out: &mut W) -> Result<(), EmitFault>
        requires { length (spec.pieces_bytes self.now) < 2 ^ 64 }
        ensures ok { OnOk result (Appends (W.contents out.old) (W.contents out.new) (spec.pieces_bytes self.now)) }
        ensures within { IfErr result (λ e. e.written < length (spec.pieces_bytes self.now)) }
        ensures front { IfErr result (λ e. Appends (W.contents out.old) (W.contents out.new) (take e.written (spec.pieces_bytes self.now))) }
    {
        let mut written = 0;
        for piece in &self.done {
            written = emit_behind(written, piece.bytes(), out)?;
        }
        emit_behind(written, &self.open, out)?;
        Ok(())
    }
}

impl Piece<'_> {
    /// Its bytes.
    fn bytes(&self) -> &[u8]
        ensures { result.now ≡ spec.piece_bytes self.now }
    {
        match self {
            Piece::Own(bytes) => bytes,
            Piece::Lent(bytes) => bytes,
        }
    }
}

/// The pieces of a component with these definitions.
pub fn pieces_of<'a>(
    alloc: Global,
    definitions: &[Definition<'a>],
) -> Result<Pieces<'a>, WriteFault>
    ensures bytes { IfOk result (λ p. spec.pieces_bytes p ≡ bytes component (map definition_value definitions.now)) }
    ensures typed { OnOk result (IsTyped component (map definition_value definitions.now)) }
    ensures large { result ≡ Err WriteFault.TooLarge → IsTyped component (map definition_value definitions.now) → ⊥ }
{
    let mut pieces = Pieces {
        done: Vec::new(alloc),
        open: Vec::new(alloc),
        room: Vec::new(alloc),
    };
    pieces.open.extend_from_slice(&HEADER)?;
    let mut at = 0;
    while at < definitions.len() {
        at += pieces.put_section(&definitions[at], &definitions[at + 1..])?;
    }
    Ok(pieces)
}
