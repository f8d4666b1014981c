//! What sections hold, with all of their bytes.

use binary_grammar::{Content, ReadError, Reader, WriteFault};

/// A content, and its bytes.
#[derive(Drop)]
pub struct Kept<'a, C> {
    /// What the bytes are.
    pub holds: C,
    /// The bytes.
    pub content: &'a [u8],
}

impl<'a, C: Content<'a>> Content<'a> for Kept<'a, C> {
    type Context = C::Context;

    ghost use Rattle.std.specs.Prelude.{ℕ, List};
    ghost use Rattle.binary_grammar.specs.Syntax.{keeping};

    ghost Value = { C.Value × List ℕ };

    ghost Known = { C.Known };

    ghost content = { keeping C.content };

    ghost known = { C.known };

    ghost value = { λ k. (C.value k.holds, k.content.now) };

    fn read_all(there: C::Context, from: Reader<'a>) -> Result<Kept<'a, C>, ReadError> {
        let content = from.rest();
        let holds = C::read_all(there, from)?;
        Ok(Kept { holds, content })
    }

    fn put_all(&self, out: &mut Vec<u8>) -> Result<(), WriteFault> {
        out.extend_from_slice(self.content)?;
        Ok(())
    }
}
