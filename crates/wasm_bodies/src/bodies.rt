//! Functions with their code.

use crate::instructions::BodyInstruction;
use binary_grammar::{
    Content, Part, ReadError, Reader, Rule, WriteFault, bounded_of, put_up_to, put_with_length,
    up_to_of,
};
use wasm_sections::{Items, SectionId, SectionItem};
use wasm_types::Spaces;

/// What a generated function does; it has no locals but its parameters.
#[derive(Debug, Drop)]
pub struct Body {
    /// The instructions, without the end.
    pub instructions: Vec<BodyInstruction>,
}

impl<'a> Content<'a> for Body {
    type Context = Spaces;

    ghost use Rattle.std.specs.Prelude.{List};
    ghost use Rattle.wasm_types.specs.declared.spaces.Spaces.{Spaces};
    ghost use Rattle.wasm_bodies.specs.declared.instructions.BodyInstruction.{BodyInstruction};
    ghost use Rattle.wasm_bodies.specs.Bodies as spec;

    ghost Value = { List BodyInstruction };

    ghost Known = { Spaces };

    ghost content = { spec.body };

    ghost known = { λ s. s };

    ghost value = { spec.body_value };

    #[tactic(auto, unfolding(crate::specs::Bodies::body))]
    fn read_all(there: Spaces, from: Reader<'a>) -> Result<Body, ReadError> {
        let mut from = from;
        from.byte_is(Rule::Unsupported, 0)?;
        let instructions = up_to_of(0x0b, there, &mut from)?;
        from.ended()?;
        Ok(Body { instructions })
    }

    #[tactic(auto, unfolding(crate::specs::Bodies::body))]
    fn put_all(&self, out: &mut Vec<u8>) -> Result<(), WriteFault> {
        out.push(0)?;
        put_up_to(0x0b, &self.instructions, out)?;
        Ok(())
    }
}

/// A content behind its size.
#[derive(Debug, Drop)]
pub struct Bounded<T>(pub T);

impl<'a, T: Content<'a>> Part<'a> for Bounded<T> {
    type Context = T::Context;

    ghost use Rattle.binary_grammar.specs.Syntax.{sized};

    ghost Value = { T.Value };

    ghost Known = { T.Known };

    ghost syntax = { sized T.content };

    ghost known = { T.known };

    ghost value = { λ b. T.value b.0 };

    fn read(there: T::Context, from: &mut Reader<'a>) -> Result<Bounded<T>, ReadError> {
        Ok(Bounded(bounded_of(there, from)?))
    }

    fn put(&self, out: &mut Vec<u8>) -> Result<(), WriteFault> {
        let mut content = Vec::new(*out.allocator());
        self.0.put_all(&mut content)?;
        put_with_length(out, &content)
    }
}

impl SectionItem for Bounded<Body> {
    ghost use Rattle.wasm_sections.specs.declared.section.SectionId.TheVariants as ids;

    ghost id = { ids.Code };

    fn id() -> SectionId {
        SectionId::Code
    }
}

/// The code of the module's own functions (WebAssembly Core, Binary Format, Modules, Code Section).
pub type CodeSection = Items<Bounded<Body>>;
