//! What sections hold.

use binary_grammar::{
    Content, Part, ReadError, Reader, WriteFault, put_name, put_number, put_vec, whole_growing_of,
    whole_vec_of,
};
use wasm_types::{Global, Spaces};

/// A vector that is all of a section.
#[derive(Drop)]
pub struct Items<T> {
    /// The items.
    pub items: Vec<T>,
}

impl<'a, T: Part<'a, Context = Spaces>> Content<'a> for Items<T> {
    type Context = Spaces;

    ghost use Rattle.std.specs.Prelude.{List, map};
    ghost use Rattle.binary_grammar.specs.Syntax.{exactly, vec};

    ghost Value = { List T.Value };

    ghost Known = { T.Known };

    ghost content = { exactly (vec T.syntax) };

    ghost known = { T.known };

    ghost value = { λ k. map T.value k.items.items };

    fn read_all(there: Spaces, from: Reader<'a>) -> Result<Items<T>, ReadError> {
        let items = whole_vec_of(there, from)?;
        Ok(Items { items })
    }

    fn put_all(&self, out: &mut Vec<u8>) -> Result<(), WriteFault> {
        put_vec(&self.items, out)
    }
}

/// The globals of a section, of which each sees those before it.
#[derive(Drop)]
pub struct Globals<'a> {
    /// The globals.
    pub items: Vec<Global<'a>>,
}

impl<'a> Content<'a> for Globals<'a> {
    type Context = Spaces;

    ghost use Rattle.std.specs.Prelude.{List, map};
    ghost use Rattle.binary_grammar.specs.Syntax.{exactly, growing};
    ghost use Rattle.wasm_types.specs.declared.spaces.Spaces.{Spaces};
    ghost use Rattle.wasm_types.specs.Entries.{GlobalValue, global_value, global_entry, one_more_global};

    ghost Value = { List GlobalValue };

    ghost Known = { Spaces };

    ghost content = { exactly (growing one_more_global global_entry) };

    ghost known = { λ s. s };

    ghost value = { λ k. map global_value k.items.items };

    fn read_all(there: Spaces, from: Reader<'a>) -> Result<Globals<'a>, ReadError> {
        let mut spaces = there;
        let items = whole_growing_of(0, &mut spaces, from)?;
        Ok(Globals { items })
    }

    fn put_all(&self, out: &mut Vec<u8>) -> Result<(), WriteFault> {
        put_vec(&self.items, out)
    }
}

/// The function that is called when the module is instantiated (Modules, Start Section).
#[derive(Clone, Copy, Debug, PartialEq, Eq)]
pub struct Start {
    /// Its index.
    pub function: u32,
}

impl<'a> Content<'a> for Start {
    type Context = Spaces;

    ghost use Rattle.std.specs.Prelude.{ℕ};
    ghost use Rattle.binary_grammar.specs.Syntax.{exactly};
    ghost use Rattle.wasm_types.specs.declared.spaces.Spaces.{Spaces};
    ghost use Rattle.wasm_types.specs.Types.{index};

    ghost Value = { ℕ };

    ghost Known = { Spaces };

    ghost content = { exactly (index (λ there. there.functions)) };

    ghost known = { λ s. s };

    ghost value = { λ k. k.function };

    fn read_all(there: Spaces, from: Reader<'a>) -> Result<Start, ReadError> {
        let mut from = from;
        let function = from.index(there.functions)?;
        from.ended()?;
        Ok(Start { function })
    }

    fn put_all(&self, out: &mut Vec<u8>) -> Result<(), WriteFault> {
        put_number(out, self.function)?;
        Ok(())
    }
}

/// A custom section's name, behind which anything stands.
#[derive(Clone, Copy, Debug, PartialEq, Eq)]
pub struct CustomName<'a> {
    /// The name.
    pub name: &'a str,
}

impl<'a> Content<'a> for CustomName<'a> {
    type Context = Spaces;

    ghost use Rattle.std.specs.Prelude.{ℕ, List};
    ghost use Rattle.binary_grammar.specs.Syntax.{begins, some_name};
    ghost use Rattle.wasm_types.specs.declared.spaces.Spaces.{Spaces};

    ghost Value = { List ℕ };

    ghost Known = { Spaces };

    ghost content = { begins some_name };

    ghost known = { λ s. s };

    ghost value = { λ k. k.name.now };

    fn read_all(_there: Spaces, from: Reader<'a>) -> Result<CustomName<'a>, ReadError> {
        let mut from = from;
        let name = from.name()?;
        Ok(CustomName { name })
    }

    fn put_all(&self, out: &mut Vec<u8>) -> Result<(), WriteFault> {
        put_name(out, self.name)
    }
}

/// Bytes that aren't looked into.
#[derive(Clone, Copy, Debug, PartialEq, Eq)]
pub struct Framed<'a> {
    /// The bytes.
    pub content: &'a [u8],
}

impl<'a> Content<'a> for Framed<'a> {
    type Context = Spaces;

    ghost use Rattle.std.specs.Prelude.{ℕ, List};
    ghost use Rattle.binary_grammar.specs.Syntax.{everything};
    ghost use Rattle.wasm_types.specs.declared.spaces.Spaces.{Spaces};

    ghost Value = { List ℕ };

    ghost Known = { Spaces };

    ghost content = { everything };

    ghost known = { λ s. s };

    ghost value = { λ k. k.content.now };

    fn read_all(_there: Spaces, from: Reader<'a>) -> Result<Framed<'a>, ReadError> {
        let content = from.rest();
        Ok(Framed { content })
    }

    fn put_all(&self, out: &mut Vec<u8>) -> Result<(), WriteFault> {
        out.extend_from_slice(self.content)?;
        Ok(())
    }
}
