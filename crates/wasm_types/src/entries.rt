//! Entries of sections.

ghost use Rattle.std.specs.Prelude.{◌≡◌};
ghost use Rattle.wasm_types.specs.Entries as spec;

use crate::code::{Code, coded_of};
use crate::expression::Expression;
use crate::spaces::Spaces;
use crate::types::{EntityType, ExportKind, GlobalType};
use binary_grammar::{Part, ReadError, Reader, Step, WriteFault, put_name, put_number};

/// An import: two names, and what is asked for (WebAssembly Core, Binary Format, Modules, Import Section).
#[derive(Clone, Copy, Debug, PartialEq, Eq)]
pub struct Import<'a> {
    /// The first name.
    pub module: &'a str,
    /// The second name.
    pub name: &'a str,
    /// What it asks for.
    pub ty: EntityType,
}

/// An export: a name, and a place in the index space of a sort (WebAssembly Core, Binary Format, Modules, Export Section).
#[derive(Clone, Copy, Debug, PartialEq, Eq)]
pub struct Export<'a> {
    /// The name.
    pub name: &'a str,
    /// The sort.
    pub kind: ExportKind,
    /// The place.
    pub index: u32,
}

/// The place of a type (WebAssembly Core, Binary Format, Modules, Function Section).
#[derive(Clone, Copy, Debug, PartialEq, Eq)]
pub struct TypeIndex(pub u32);

impl<'a> Part<'a> for Import<'a> {
    type Context = Spaces;

    ghost use Rattle.wasm_types.specs.declared.spaces.Spaces.{Spaces};
    ghost use Rattle.wasm_types.specs.Entries as spec;
    ghost use Rattle.wasm_types.specs.Entries.{ImportValue};

    ghost Value = { ImportValue };

    ghost Known = { Spaces };

    ghost syntax = { spec.import_entry };

    ghost known = { λ s. s };

    ghost value = { spec.import_value };

    #[tactic(auto, unfolding(crate::specs::Entries::import_entry))]
    fn read(there: Spaces, from: &mut Reader<'a>) -> Result<Import<'a>, ReadError> {
        let module = from.name()?;
        let name = from.name()?;
        let ty = EntityType::read(there, from)?;
        Ok(Import { module, name, ty })
    }

    #[tactic(auto, unfolding(crate::specs::Entries::import_entry))]
    fn put(&self, out: &mut Vec<u8>) -> Result<(), WriteFault> {
        put_name(out, self.module)?;
        put_name(out, self.name)?;
        self.ty.put(out)?;
        Ok(())
    }
}

impl<'a> Part<'a> for Export<'a> {
    type Context = Spaces;

    ghost use Rattle.wasm_types.specs.declared.spaces.Spaces.{Spaces};
    ghost use Rattle.wasm_types.specs.Entries as spec;
    ghost use Rattle.wasm_types.specs.Entries.{ExportValue};

    ghost Value = { ExportValue };

    ghost Known = { Spaces };

    ghost syntax = { spec.export_entry };

    ghost known = { λ s. s };

    ghost value = { spec.export_value };

    #[tactic(auto, unfolding(crate::specs::Entries::export_entry))]
    fn read(there: Spaces, from: &mut Reader<'a>) -> Result<Export<'a>, ReadError> {
        let name = from.name()?;
        let kind = coded_of(from)?;
        let index = from.index(there.count(kind))?;
        Ok(Export { name, kind, index })
    }

    #[tactic(auto, unfolding(crate::specs::Entries::export_entry))]
    fn put(&self, out: &mut Vec<u8>) -> Result<(), WriteFault> {
        put_name(out, self.name)?;
        out.push(self.kind.byte())?;
        put_number(out, self.index)?;
        Ok(())
    }
}

impl<'a> Part<'a> for TypeIndex {
    type Context = Spaces;

    ghost use Rattle.std.specs.Prelude.{ℕ};
    ghost use Rattle.wasm_types.specs.declared.spaces.Spaces.{Spaces};
    ghost use Rattle.wasm_types.specs.Entries as spec;

    ghost Value = { ℕ };

    ghost Known = { Spaces };

    ghost syntax = { spec.type_index };

    ghost known = { λ s. s };

    ghost value = { spec.type_index_value };

    #[tactic(auto, unfolding(crate::specs::Entries::type_index))]
    fn read(there: Spaces, from: &mut Reader<'a>) -> Result<TypeIndex, ReadError> {
        Ok(TypeIndex(from.index(there.types)?))
    }

    #[tactic(auto, unfolding(crate::specs::Entries::type_index))]
    fn put(&self, out: &mut Vec<u8>) -> Result<(), WriteFault> {
        put_number(out, self.0)?;
        Ok(())
    }
}

/// A global of the module's own: its type, and the expression of its value (WebAssembly Core, Binary Format, Modules, Global
/// Section).
#[derive(Debug, Drop)]
pub struct Global<'a> {
    /// The type.
    pub ty: GlobalType,
    /// The expression.
    pub init: Expression<'a>,
}

impl<'a> Part<'a> for Global<'a> {
    type Context = Spaces;

    ghost use Rattle.wasm_types.specs.declared.spaces.Spaces.{Spaces};
    ghost use Rattle.wasm_types.specs.Entries as spec;
    ghost use Rattle.wasm_types.specs.Entries.{GlobalValue};

    ghost Value = { GlobalValue };

    ghost Known = { Spaces };

    ghost syntax = { spec.global_entry };

    ghost known = { λ s. s };

    ghost value = { spec.global_value };

    #[tactic(auto, unfolding(crate::specs::Entries::global_entry))]
    fn read(there: Spaces, from: &mut Reader<'a>) -> Result<Global<'a>, ReadError> {
        let ty = GlobalType::read(there, from)?;
        let init = Expression::read(there, from)?;
        Ok(Global { ty, init })
    }

    #[tactic(auto, unfolding(crate::specs::Entries::global_entry))]
    fn put(&self, out: &mut Vec<u8>) -> Result<(), WriteFault> {
        self.ty.put(out)?;
        self.init.put(out)?;
        Ok(())
    }
}

/// Globals of a section, of which each sees those before it.
impl<'a> Step<'a> for Global<'a> {
    type State = Spaces;

    ghost use Rattle.wasm_types.specs.declared.spaces.Spaces.{Spaces};
    ghost use Rattle.wasm_types.specs.Entries as spec;
    ghost use Rattle.wasm_types.specs.Entries.{GlobalValue};

    ghost Value = { GlobalValue };

    ghost Known = { Spaces };

    ghost grow = { spec.one_more_global };

    ghost which = { λ _. 0 };

    ghost next = { λ _. spec.global_entry };

    ghost known = { λ s. s };

    ghost value = { spec.global_value };

    ghost stands = { λ _ _. Unit {0} };

    fn read_behind(
        _kind: u8,
        state: &mut Spaces,
        from: &mut Reader<'a>,
    ) -> Result<Global<'a>, ReadError> {
        let global = Global::read(*state, from)?;
        state.globals = state.globals.checked_add(1).ok_or(ReadError::Memory)?;
        Ok(global)
    }
}
