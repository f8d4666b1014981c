//! Types of generated modules.

ghost use Rattle.std.specs.Prelude.{◌≡◌, ◌^◌, true};
ghost use Rattle.binary_grammar.specs.Fault.{Gives};
ghost use Rattle.binary_grammar.specs.Signed.{lies_in};
ghost use Rattle.binary_grammar.specs.Syntax.{meaning};
ghost use Rattle.generated_sections.specs.Types as spec;

use binary_grammar::{
    Part, ReadError, Reader, Rule, WriteFault, broken_at, put_name, put_number, put_signed,
};
use wasm_types::{Code, ExportKind, Limits, Mutability, Spaces, ValType, coded_of};

/// What a global holds.
#[derive(Clone, Copy, Debug, PartialEq, Eq)]
pub enum Held {
    /// A value.
    Value(ValType),
    /// A reference to a function of the type at this index.
    Reference(u32),
}

/// What the first byte of a global's type says.
#[derive(Clone, Copy, Debug, PartialEq, Eq)]
pub enum HeldForm {
    /// A value, all of it.
    Value(ValType),
    /// A reference, to the type behind it.
    Reference,
}

/// The type of a global (WebAssembly Core, Types, Global Types).
#[derive(Clone, Copy, Debug, PartialEq, Eq)]
pub struct HeldGlobal {
    /// What it holds.
    pub held: Held,
    /// Whether it can be changed.
    pub mutability: Mutability,
}

/// A table of functions, of which each is a slot.
#[derive(Clone, Copy, Debug, PartialEq, Eq)]
pub struct SlotTable {
    /// How many, which is its least and its greatest size.
    pub size: u32,
}

/// A global that is a slot: it holds a reference to a function.
#[derive(Clone, Copy, Debug, PartialEq, Eq)]
pub struct SlotGlobal {
    /// The type of the function.
    pub ty: u32,
    /// The function at which it begins.
    pub stub: u32,
}

/// What an import asks for (WebAssembly Core, Types, External Types).
#[derive(Clone, Copy, Debug, PartialEq, Eq)]
pub enum ImportType {
    /// A function of the type at this index.
    Function(u32),
    /// A table.
    Table(SlotTable),
    /// A memory.
    Memory(Limits),
    /// A global.
    Global(HeldGlobal),
}

/// An import: two names, and what is asked for (WebAssembly Core, Binary Format, Modules, Import Section).
#[derive(Clone, Copy, Debug, PartialEq, Eq)]
pub struct Import<'a> {
    /// The first name.
    pub module: &'a str,
    /// The second name.
    pub name: &'a str,
    /// What it asks for.
    pub ty: ImportType,
}

impl SlotGlobal {
    /// Its type.
    pub fn as_held(self) -> HeldGlobal
        ensures { result ≡ spec.slot_type self }
    {
        HeldGlobal {
            held: Held::Reference(self.ty),
            mutability: Mutability::Var,
        }
    }
}

impl ImportType {
    /// Its sort.
    pub fn kind(self) -> ExportKind
        ensures { result ≡ spec.kind_of_import self }
    {
        match self {
            ImportType::Function(_) => ExportKind::Func,
            ImportType::Table(_) => ExportKind::Table,
            ImportType::Memory(_) => ExportKind::Memory,
            ImportType::Global(_) => ExportKind::Global,
        }
    }
}

impl Code for HeldForm {
    ghost of = { spec.held_form_of };

    ghost code = { spec.held_form_byte };

    #[tactic(auto, unfolding(crate::specs::Types::held_form_of))]
    fn of_byte(byte: u8) -> Result<HeldForm, Rule> {
        match byte {
            0x64 => Ok(HeldForm::Reference),
            _ => match ValType::of_byte(byte) {
                Ok(ty) => Ok(HeldForm::Value(ty)),
                Err(rule) => Err(rule),
            },
        }
    }

    fn byte(self) -> u8 {
        match self {
            HeldForm::Value(ty) => ty.byte(),
            HeldForm::Reference => 0x64,
        }
    }
}

/// What a number stands for where the type of a reference is asked.
fn referred_at(there: Spaces, number: i64) -> Result<u32, Rule>
    requires { lies_in (2 ^ 32) number ≡ true }
    ensures { result ≡ spec.referred_of there number }
{
    if number < 0 {
        return Err(Rule::Unsupported);
    }
    if number as usize >= there.types {
        return Err(Rule::Index);
    }
    Ok(number as u32)
}

#[tactic(auto, unfolding(crate::specs::Types::referred))]
fn referred(there: Spaces, from: &mut Reader<'_>) -> Result<u32, ReadError>
    ensures gives { Gives (λ x. (x, from.new.left)) result ((meaning spec.referred there).read from.old.left) }
    ensures end { from.new.end ≡ from.old.end }
{
    let at = from.left();
    let number = from.signed(33)?;
    match referred_at(there, number) {
        Ok(ty) => Ok(ty),
        Err(rule) => Err(broken_at(rule, at)),
    }
}

impl<'a> Part<'a> for Held {
    type Context = Spaces;

    ghost use Rattle.wasm_types.specs.declared.spaces.Spaces.{Spaces};
    ghost use Rattle.generated_sections.specs.declared.types.Held.{Held};
    ghost use Rattle.generated_sections.specs.Types as spec;

    ghost Value = { Held };

    ghost Known = { Spaces };

    ghost syntax = { spec.held };

    ghost known = { λ s. s };

    ghost value = { λ h. h };

    #[tactic(auto, unfolding(crate::specs::Types::held))]
    fn read(there: Spaces, from: &mut Reader<'a>) -> Result<Held, ReadError> {
        match coded_of(from)? {
            HeldForm::Value(ty) => Ok(Held::Value(ty)),
            HeldForm::Reference => Ok(Held::Reference(referred(there, from)?)),
        }
    }

    #[tactic(auto, unfolding(crate::specs::Types::held, crate::specs::Types::referred))]
    fn put(&self, out: &mut Vec<u8>) -> Result<(), WriteFault> {
        match self {
            Held::Value(ty) => out.push(ty.byte())?,
            Held::Reference(ty) => {
                out.push(0x64)?;
                put_signed(out, 33, i64::from(*ty))?;
            }
        }
        Ok(())
    }
}

impl<'a> Part<'a> for HeldGlobal {
    type Context = Spaces;

    ghost use Rattle.wasm_types.specs.declared.spaces.Spaces.{Spaces};
    ghost use Rattle.generated_sections.specs.declared.types.HeldGlobal.{HeldGlobal};
    ghost use Rattle.generated_sections.specs.Types as spec;

    ghost Value = { HeldGlobal };

    ghost Known = { Spaces };

    ghost syntax = { spec.held_global };

    ghost known = { λ s. s };

    ghost value = { λ g. g };

    #[tactic(auto, unfolding(crate::specs::Types::held_global))]
    fn read(there: Spaces, from: &mut Reader<'a>) -> Result<HeldGlobal, ReadError> {
        let held = Held::read(there, from)?;
        let mutability = coded_of(from)?;
        Ok(HeldGlobal { held, mutability })
    }

    #[tactic(auto, unfolding(crate::specs::Types::held_global))]
    fn put(&self, out: &mut Vec<u8>) -> Result<(), WriteFault> {
        self.held.put(out)?;
        out.push(self.mutability.byte())?;
        Ok(())
    }
}

impl<'a> Part<'a> for SlotTable {
    type Context = Spaces;

    ghost use Rattle.wasm_types.specs.declared.spaces.Spaces.{Spaces};
    ghost use Rattle.generated_sections.specs.declared.types.SlotTable.{SlotTable};
    ghost use Rattle.generated_sections.specs.Types as spec;

    ghost Value = { SlotTable };

    ghost Known = { Spaces };

    ghost syntax = { spec.slot_table };

    ghost known = { λ s. s };

    ghost value = { λ t. t };

    #[tactic(auto, unfolding(crate::specs::Types::slot_table))]
    fn read(_there: Spaces, from: &mut Reader<'a>) -> Result<SlotTable, ReadError> {
        from.byte_is(Rule::Unsupported, 0x70)?;
        from.byte_is(Rule::Unsupported, 1)?;
        let size = from.number()?;
        let at = from.left();
        if from.number()? != size {
            return Err(broken_at(Rule::Unsupported, at));
        }
        Ok(SlotTable { size })
    }

    #[tactic(auto, unfolding(crate::specs::Types::slot_table))]
    fn put(&self, out: &mut Vec<u8>) -> Result<(), WriteFault> {
        out.push(0x70)?;
        out.push(1)?;
        put_number(out, self.size)?;
        put_number(out, self.size)?;
        Ok(())
    }
}

#[tactic(auto, unfolding(crate::specs::Types::slot_global))]
fn begun_at(ty: u32, there: Spaces, from: &mut Reader<'_>) -> Result<SlotGlobal, ReadError>
    ensures gives { Gives (λ x. (x, from.new.left)) result ((meaning (spec.begun_at ty) there).read from.old.left) }
    ensures end { from.new.end ≡ from.old.end }
{
    from.byte_is(Rule::Unsupported, 1)?;
    from.byte_is(Rule::Unsupported, 0xd2)?;
    let stub = from.index(there.functions)?;
    from.byte_is(Rule::Unsupported, 0x0b)?;
    Ok(SlotGlobal { ty, stub })
}

impl<'a> Part<'a> for SlotGlobal {
    type Context = Spaces;

    ghost use Rattle.wasm_types.specs.declared.spaces.Spaces.{Spaces};
    ghost use Rattle.generated_sections.specs.declared.types.SlotGlobal.{SlotGlobal};
    ghost use Rattle.generated_sections.specs.Types as spec;

    ghost Value = { SlotGlobal };

    ghost Known = { Spaces };

    ghost syntax = { spec.slot_global };

    ghost known = { λ s. s };

    ghost value = { λ g. g };

    #[tactic(auto, unfolding(crate::specs::Types::slot_global))]
    fn read(there: Spaces, from: &mut Reader<'a>) -> Result<SlotGlobal, ReadError> {
        from.byte_is(Rule::Unsupported, 0x64)?;
        let ty = referred(there, from)?;
        begun_at(ty, there, from)
    }

    #[tactic(auto, unfolding(crate::specs::Types::slot_global, crate::specs::Types::referred))]
    fn put(&self, out: &mut Vec<u8>) -> Result<(), WriteFault> {
        out.push(0x64)?;
        put_signed(out, 33, i64::from(self.ty))?;
        out.extend_from_slice(&[1, 0xd2])?;
        put_number(out, self.stub)?;
        out.push(0x0b)?;
        Ok(())
    }
}

impl<'a> Part<'a> for ImportType {
    type Context = Spaces;

    ghost use Rattle.wasm_types.specs.declared.spaces.Spaces.{Spaces};
    ghost use Rattle.generated_sections.specs.declared.types.ImportType.{ImportType};
    ghost use Rattle.generated_sections.specs.Types as spec;

    ghost Value = { ImportType };

    ghost Known = { Spaces };

    ghost syntax = { spec.import_type };

    ghost known = { λ s. s };

    ghost value = { λ t. t };

    #[tactic(auto, unfolding(crate::specs::Types::import_type))]
    fn read(there: Spaces, from: &mut Reader<'a>) -> Result<ImportType, ReadError> {
        match coded_of::<ExportKind>(from)? {
            ExportKind::Func => Ok(ImportType::Function(from.index(there.types)?)),
            ExportKind::Table => Ok(ImportType::Table(SlotTable::read(there, from)?)),
            ExportKind::Memory => Ok(ImportType::Memory(Limits::read(there, from)?)),
            ExportKind::Global => Ok(ImportType::Global(HeldGlobal::read(there, from)?)),
        }
    }

    #[tactic(auto, unfolding(crate::specs::Types::import_type))]
    fn put(&self, out: &mut Vec<u8>) -> Result<(), WriteFault> {
        match self {
            ImportType::Function(index) => {
                out.push(0)?;
                put_number(out, *index)?;
                Ok(())
            }
            ImportType::Table(table) => {
                out.push(1)?;
                table.put(out)
            }
            ImportType::Memory(limits) => {
                out.push(2)?;
                limits.put(out)
            }
            ImportType::Global(global) => {
                out.push(3)?;
                global.put(out)
            }
        }
    }
}

impl<'a> Part<'a> for Import<'a> {
    type Context = Spaces;

    ghost use Rattle.wasm_types.specs.declared.spaces.Spaces.{Spaces};
    ghost use Rattle.generated_sections.specs.Types as spec;

    ghost Value = { spec.ImportValue };

    ghost Known = { Spaces };

    ghost syntax = { spec.import_entry };

    ghost known = { λ s. s };

    ghost value = { spec.import_value };

    #[tactic(auto, unfolding(crate::specs::Types::import_entry))]
    fn read(there: Spaces, from: &mut Reader<'a>) -> Result<Import<'a>, ReadError> {
        let module = from.name()?;
        let name = from.name()?;
        let ty = ImportType::read(there, from)?;
        Ok(Import { module, name, ty })
    }

    #[tactic(auto, unfolding(crate::specs::Types::import_entry))]
    fn put(&self, out: &mut Vec<u8>) -> Result<(), WriteFault> {
        put_name(out, self.module)?;
        put_name(out, self.name)?;
        self.ty.put(out)?;
        Ok(())
    }
}
