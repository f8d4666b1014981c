//! Types of core modules.

ghost use Rattle.std.specs.Prelude.{◌≡◌};
ghost use Rattle.wasm_types.specs.Types as spec;

use crate::code::{Code, coded_of};
use crate::spaces::Spaces;
use binary_grammar::{
    Part, ReadError, Reader, Rule, WriteFault, broken_at, put_number, put_vec, vec_of,
};

/// A reference type (WebAssembly Core, Types, Reference Types).
#[derive(Clone, Copy, Debug, PartialEq, Eq)]
pub enum RefType {
    /// `funcref`
    FuncRef,
    /// `externref`
    ExternRef,
}

/// A value type (WebAssembly Core, Types, Value Types).
#[derive(Clone, Copy, Debug, PartialEq, Eq)]
pub enum ValType {
    /// `i32`
    I32,
    /// `i64`
    I64,
    /// `f32`
    F32,
    /// `f64`
    F64,
    /// `v128`
    V128,
    /// A reference.
    Ref(RefType),
}

/// Whether a global can be changed (WebAssembly Core, Types, Global Types).
#[derive(Clone, Copy, Debug, PartialEq, Eq)]
pub enum Mutability {
    /// It stays as it is.
    Const,
    /// It can be changed.
    Var,
}

/// The sort of an import or export (WebAssembly Core, Binary Format, Modules, Export Section).
#[derive(Clone, Copy, Debug, PartialEq, Eq)]
pub enum ExportKind {
    /// A function.
    Func,
    /// A table.
    Table,
    /// A memory.
    Memory,
    /// A global.
    Global,
}

/// A function type: parameters and results, in order (WebAssembly Core, Types, Function Types).
#[derive(Debug, Drop)]
pub struct FuncType {
    /// The types of the parameters.
    pub params: Vec<ValType>,
    /// The types of the results.
    pub results: Vec<ValType>,
}

/// Limits of a table, in elements, or of a memory, in pages of 64 KiB (WebAssembly Core, Types, Limits).
#[derive(Clone, Copy, Debug, PartialEq, Eq)]
pub struct Limits {
    /// The least size.
    pub minimum: u32,
    /// The greatest size, if one is said.
    pub maximum: Option<u32>,
}

/// A table type (WebAssembly Core, Types, Table Types).
#[derive(Clone, Copy, Debug, PartialEq, Eq)]
pub struct TableType {
    /// The type of its elements.
    pub element: RefType,
    /// Its limits.
    pub limits: Limits,
}

/// A global type (WebAssembly Core, Types, Global Types).
#[derive(Clone, Copy, Debug, PartialEq, Eq)]
pub struct GlobalType {
    /// The type of its value.
    pub value: ValType,
    /// Whether it can be changed.
    pub mutability: Mutability,
}

/// What an import asks for (WebAssembly Core, Types, External Types).
#[derive(Clone, Copy, Debug, PartialEq, Eq)]
pub enum EntityType {
    /// A function of the type at this index.
    Function(u32),
    /// A table.
    Table(TableType),
    /// A memory.
    Memory(Limits),
    /// A global.
    Global(GlobalType),
}

impl Code for RefType {
    ghost of = { spec.ref_type_of };

    ghost code = { spec.ref_type_byte };

    #[tactic(auto, unfolding(crate::specs::Types::ref_type_of))]
    fn of_byte(byte: u8) -> Result<RefType, Rule> {
        match byte {
            0x70 => Ok(RefType::FuncRef),
            0x6f => Ok(RefType::ExternRef),
            0x40 | 0x63 | 0x64 | 0x69..=0x74 => Err(Rule::Unsupported),
            _ => Err(Rule::Tag),
        }
    }

    fn byte(self) -> u8 {
        match self {
            RefType::FuncRef => 0x70,
            RefType::ExternRef => 0x6f,
        }
    }
}

impl Code for ValType {
    ghost of = { spec.val_type_of };

    ghost code = { spec.val_type_byte };

    #[tactic(auto, unfolding(crate::specs::Types::val_type_of))]
    fn of_byte(byte: u8) -> Result<ValType, Rule> {
        match byte {
            0x7f => Ok(ValType::I32),
            0x7e => Ok(ValType::I64),
            0x7d => Ok(ValType::F32),
            0x7c => Ok(ValType::F64),
            0x7b => Ok(ValType::V128),
            0x70 => Ok(ValType::Ref(RefType::FuncRef)),
            0x6f => Ok(ValType::Ref(RefType::ExternRef)),
            0x63 | 0x64 | 0x69..=0x74 => Err(Rule::Unsupported),
            _ => Err(Rule::Tag),
        }
    }

    fn byte(self) -> u8 {
        match self {
            ValType::I32 => 0x7f,
            ValType::I64 => 0x7e,
            ValType::F32 => 0x7d,
            ValType::F64 => 0x7c,
            ValType::V128 => 0x7b,
            ValType::Ref(RefType::FuncRef) => 0x70,
            ValType::Ref(RefType::ExternRef) => 0x6f,
        }
    }
}

impl Code for Mutability {
    ghost of = { spec.mutability_of };

    ghost code = { spec.mutability_byte };

    #[tactic(auto, unfolding(crate::specs::Types::mutability_of))]
    fn of_byte(byte: u8) -> Result<Mutability, Rule> {
        match byte {
            0 => Ok(Mutability::Const),
            1 => Ok(Mutability::Var),
            _ => Err(Rule::Tag),
        }
    }

    fn byte(self) -> u8 {
        match self {
            Mutability::Const => 0,
            Mutability::Var => 1,
        }
    }
}

impl Code for ExportKind {
    ghost of = { spec.kind_of };

    ghost code = { spec.kind_byte };

    #[tactic(auto, unfolding(crate::specs::Types::kind_of))]
    fn of_byte(byte: u8) -> Result<ExportKind, Rule> {
        match byte {
            0 => Ok(ExportKind::Func),
            1 => Ok(ExportKind::Table),
            2 => Ok(ExportKind::Memory),
            3 => Ok(ExportKind::Global),
            4 => Err(Rule::Unsupported),
            _ => Err(Rule::Tag),
        }
    }

    fn byte(self) -> u8 {
        match self {
            ExportKind::Func => 0,
            ExportKind::Table => 1,
            ExportKind::Memory => 2,
            ExportKind::Global => 3,
        }
    }
}

impl<'a> Part<'a> for ValType {
    type Context = Spaces;

    ghost use Rattle.wasm_types.specs.declared.spaces.Spaces.{Spaces};
    ghost use Rattle.wasm_types.specs.declared.types.ValType.{ValType};
    ghost use Rattle.wasm_types.specs.Types as spec;

    ghost Value = { ValType };

    ghost Known = { Spaces };

    ghost syntax = { spec.val_type };

    ghost known = { λ s. s };

    ghost value = { λ t. t };

    #[tactic(auto, unfolding(crate::specs::Types::val_type))]
    fn read(_there: Spaces, from: &mut Reader<'a>) -> Result<ValType, ReadError> {
        coded_of(from)
    }

    #[tactic(auto, unfolding(crate::specs::Types::val_type))]
    fn put(&self, out: &mut Vec<u8>) -> Result<(), WriteFault> {
        out.push(self.byte())?;
        Ok(())
    }
}

impl<'a> Part<'a> for FuncType {
    type Context = Spaces;

    ghost use Rattle.wasm_types.specs.declared.spaces.Spaces.{Spaces};
    ghost use Rattle.wasm_types.specs.Types as spec;
    ghost use Rattle.wasm_types.specs.Types.{FuncTypeValue};

    ghost Value = { FuncTypeValue };

    ghost Known = { Spaces };

    ghost syntax = { spec.func_type };

    ghost known = { λ s. s };

    ghost value = { spec.func_type_value };

    #[tactic(auto, unfolding(crate::specs::Types::func_type, crate::specs::Types::type_form_of))]
    fn read(there: Spaces, from: &mut Reader<'a>) -> Result<FuncType, ReadError> {
        let at = from.left();
        match from.byte()? {
            0x60 => {}
            0x4e..=0x50 | 0x5e | 0x5f => return Err(broken_at(Rule::Unsupported, at)),
            _ => return Err(broken_at(Rule::Tag, at)),
        }
        let params = vec_of(there, from)?;
        let results = vec_of(there, from)?;
        Ok(FuncType { params, results })
    }

    #[tactic(auto, unfolding(crate::specs::Types::func_type))]
    fn put(&self, out: &mut Vec<u8>) -> Result<(), WriteFault> {
        out.push(0x60)?;
        put_vec(&self.params, out)?;
        put_vec(&self.results, out)?;
        Ok(())
    }
}

impl<'a> Part<'a> for Limits {
    type Context = Spaces;

    ghost use Rattle.wasm_types.specs.declared.spaces.Spaces.{Spaces};
    ghost use Rattle.wasm_types.specs.declared.types.Limits.{Limits};
    ghost use Rattle.wasm_types.specs.Types as spec;

    ghost Value = { Limits };

    ghost Known = { Spaces };

    ghost syntax = { spec.limits };

    ghost known = { λ s. s };

    ghost value = { λ l. l };

    #[tactic(auto, unfolding(crate::specs::Types::limits, crate::specs::Types::bound_of))]
    fn read(_there: Spaces, from: &mut Reader<'a>) -> Result<Limits, ReadError> {
        let at = from.left();
        match from.byte()? {
            0 => {
                let minimum = from.number()?;
                let maximum = None;
                Ok(Limits { minimum, maximum })
            }
            1 => {
                let minimum = from.number()?;
                let maximum = Some(from.number()?);
                Ok(Limits { minimum, maximum })
            }
            2..=7 => Err(broken_at(Rule::Unsupported, at)),
            _ => Err(broken_at(Rule::Tag, at)),
        }
    }

    #[tactic(auto, unfolding(crate::specs::Types::limits))]
    fn put(&self, out: &mut Vec<u8>) -> Result<(), WriteFault> {
        match self.maximum {
            None => {
                out.push(0)?;
                put_number(out, self.minimum)?;
            }
            Some(maximum) => {
                out.push(1)?;
                put_number(out, self.minimum)?;
                put_number(out, maximum)?;
            }
        }
        Ok(())
    }
}

impl<'a> Part<'a> for TableType {
    type Context = Spaces;

    ghost use Rattle.wasm_types.specs.declared.spaces.Spaces.{Spaces};
    ghost use Rattle.wasm_types.specs.declared.types.TableType.{TableType};
    ghost use Rattle.wasm_types.specs.Types as spec;

    ghost Value = { TableType };

    ghost Known = { Spaces };

    ghost syntax = { spec.table_type };

    ghost known = { λ s. s };

    ghost value = { λ t. t };

    #[tactic(auto, unfolding(crate::specs::Types::table_type))]
    fn read(there: Spaces, from: &mut Reader<'a>) -> Result<TableType, ReadError> {
        let element = coded_of(from)?;
        let limits = Limits::read(there, from)?;
        Ok(TableType { element, limits })
    }

    #[tactic(auto, unfolding(crate::specs::Types::table_type))]
    fn put(&self, out: &mut Vec<u8>) -> Result<(), WriteFault> {
        out.push(self.element.byte())?;
        self.limits.put(out)?;
        Ok(())
    }
}

impl<'a> Part<'a> for GlobalType {
    type Context = Spaces;

    ghost use Rattle.wasm_types.specs.declared.spaces.Spaces.{Spaces};
    ghost use Rattle.wasm_types.specs.declared.types.GlobalType.{GlobalType};
    ghost use Rattle.wasm_types.specs.Types as spec;

    ghost Value = { GlobalType };

    ghost Known = { Spaces };

    ghost syntax = { spec.global_type };

    ghost known = { λ s. s };

    ghost value = { λ t. t };

    #[tactic(auto, unfolding(crate::specs::Types::global_type))]
    fn read(there: Spaces, from: &mut Reader<'a>) -> Result<GlobalType, ReadError> {
        let value = ValType::read(there, from)?;
        let mutability = coded_of(from)?;
        Ok(GlobalType { value, mutability })
    }

    #[tactic(auto, unfolding(crate::specs::Types::global_type))]
    fn put(&self, out: &mut Vec<u8>) -> Result<(), WriteFault> {
        self.value.put(out)?;
        out.push(self.mutability.byte())?;
        Ok(())
    }
}

impl<'a> Part<'a> for EntityType {
    type Context = Spaces;

    ghost use Rattle.wasm_types.specs.declared.spaces.Spaces.{Spaces};
    ghost use Rattle.wasm_types.specs.declared.types.EntityType.{EntityType};
    ghost use Rattle.wasm_types.specs.Types as spec;

    ghost Value = { EntityType };

    ghost Known = { Spaces };

    ghost syntax = { spec.entity_type };

    ghost known = { λ s. s };

    ghost value = { λ t. t };

    #[tactic(auto, unfolding(crate::specs::Types::entity_type))]
    fn read(there: Spaces, from: &mut Reader<'a>) -> Result<EntityType, ReadError> {
        match coded_of::<ExportKind>(from)? {
            ExportKind::Func => Ok(EntityType::Function(from.index(there.types)?)),
            ExportKind::Table => Ok(EntityType::Table(TableType::read(there, from)?)),
            ExportKind::Memory => Ok(EntityType::Memory(Limits::read(there, from)?)),
            ExportKind::Global => Ok(EntityType::Global(GlobalType::read(there, from)?)),
        }
    }

    #[tactic(auto, unfolding(crate::specs::Types::entity_type))]
    fn put(&self, out: &mut Vec<u8>) -> Result<(), WriteFault> {
        match self {
            EntityType::Function(index) => {
                out.push(0)?;
                put_number(out, *index)?;
                Ok(())
            }
            EntityType::Table(table) => {
                out.push(1)?;
                table.put(out)
            }
            EntityType::Memory(limits) => {
                out.push(2)?;
                limits.put(out)
            }
            EntityType::Global(global) => {
                out.push(3)?;
                global.put(out)
            }
        }
    }
}
