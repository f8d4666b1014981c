//! Imports and exports.

ghost use Rattle.std.specs.Prelude.{◌≡◌, ◌∷◌, ◌++◌, OnOk, IfErr, Err};
ghost use Rattle.component_value_types.specs.Passed.binary_grammar-Fault.{Gives};
ghost use Rattle.component_value_types.specs.Passed.binary_grammar-Syntax.{meaning, bytes, IsTyped, u32_bytes};
ghost use Rattle.component_definitions.specs.Externs as spec;

use crate::sorts::{Sort, count};
use component_value_types::{
    Part, ReadError, Reader, Rule, Scope, WriteFault, broken_at, optional_of, put_name, put_number,
    put_optional,
};

/// What an import or export is (Component Model Binary, Import and Export Definitions).
#[derive(Clone, Copy, Debug, PartialEq, Eq)]
pub enum Description {
    /// A function of the type at this index.
    Function(u32),
    /// A type, equal to the one at this index.
    Equal(u32),
    /// A resource type.
    Resource,
    /// An instance of the type at this index.
    Instance(u32),
}

/// An import of a component.
#[derive(Clone, Copy, Debug, PartialEq, Eq)]
pub struct Import<'a> {
    /// The name.
    pub name: &'a str,
    /// What is asked for.
    pub description: Description,
}

/// An export of a component.
#[derive(Clone, Copy, Debug, PartialEq, Eq)]
pub struct Export<'a> {
    /// The name.
    pub name: &'a str,
    /// The sort.
    pub sort: Sort,
    /// The place in the index space of the sort.
    pub index: u32,
    /// What it is said to be.
    pub ascribed: Option<Description>,
}

/// The name of an import or export.
pub fn extern_name<'a>(from: &mut Reader<'a>) -> Result<&'a str, ReadError>
    ensures gives { Gives (λ x. (x.now, from.new.left)) result ((meaning (spec.extern_name {C = Unit {0}}) tt).read from.old.left) }
    ensures end { from.new.end ≡ from.old.end }
{
    let at = from.left();
    if from.byte()? > 1 {
        return Err(broken_at(Rule::Tag, at));
    }
    let name = from.name()?;
    Ok(name)
}

/// Adds the name of an import or export. Answers `TooLarge` where 32 bits can't say its length.
pub fn put_extern_name(name: &str, out: &mut Vec<u8>) -> Result<(), WriteFault>
    ensures bytes { OnOk result (out.new.items ≡ out.old.items ++ bytes (spec.extern_name {C = Unit {0}}) name.now) }
    ensures typed { OnOk result (IsTyped (spec.extern_name {C = Unit {0}}) name.now) }
    ensures large { result ≡ Err WriteFault.TooLarge → IsTyped (spec.extern_name {C = Unit {0}}) name.now → ⊥ }
{
    out.push(0)?;
    put_name(out, name)?;
    Ok(())
}

/// A type that is equal to another one, or a resource type.
#[tactic(auto, unfolding(crate::specs::Externs::bound_form_of))]
fn bound(there: Scope, from: &mut Reader<'_>) -> Result<Description, ReadError>
    ensures gives { Gives (λ x. (x, from.new.left)) result ((meaning (spec.description_behind spec.bound) there).read from.old.left) }
    ensures end { from.new.end ≡ from.old.end }
{
    match from.byte()? {
        0 => Ok(Description::Equal(from.index(there.types)?)),
        1 => Ok(Description::Resource),
        _ => Err(from.broken(Rule::Tag)),
    }
}

impl<'a> Part<'a> for Description {
    type Context = Scope;

    ghost use Rattle.component_value_types.specs.declared.scope.Scope.{Scope};
    ghost use Rattle.component_definitions.specs.declared.externs.Description.{Description};
    ghost use Rattle.component_definitions.specs.Externs as spec;

    ghost Value = { Description };

    ghost Known = { Scope };

    ghost syntax = { spec.description };

    ghost known = { λ s. s };

    ghost value = { λ d. d };

    #[tactic(auto, unfolding(crate::specs::Externs::description, crate::specs::Externs::description_form_of))]
    fn read(there: Scope, from: &mut Reader<'a>) -> Result<Description, ReadError> {
        match from.byte()? {
            1 => Ok(Description::Function(from.index(there.types)?)),
            3 => bound(there, from),
            5 => Ok(Description::Instance(from.index(there.types)?)),
            _ => Err(from.broken(Rule::Tag)),
        }
    }

    #[tactic(auto, unfolding(crate::specs::Externs::description, crate::specs::Externs::description_form_of, crate::specs::Externs::bound_form_of))]
    fn put(&self, out: &mut Vec<u8>) -> Result<(), WriteFault> {
        match self {
            Description::Function(ty) => put_type(1, *ty, out)?,
            Description::Equal(ty) => {
                out.push(3)?;
                put_type(0, *ty, out)?;
            }
            Description::Resource => {
                out.push(3)?;
                out.push(1)?;
            }
            Description::Instance(ty) => put_type(5, *ty, out)?,
        }
        Ok(())
    }
}

/// Adds what is said of a type, and the type.
fn put_type(kind: u8, ty: u32, out: &mut Vec<u8>) -> Result<(), WriteFault>
    ensures bytes { OnOk result (out.new.items ≡ out.old.items ++ (kind ∷ u32_bytes ty)) }
    ensures memory { IfErr result (λ e. e ≡ WriteFault.OutOfMemory) }
{
    out.push(kind)?;
    put_number(out, ty)?;
    Ok(())
}

impl<'a> Import<'a> {
    /// Reads what stands behind the name.
    pub fn read_behind(
        name: &'a str,
        there: Scope,
        from: &mut Reader<'a>,
    ) -> Result<Import<'a>, ReadError>
        ensures gives { Gives (λ x. (spec.import_value x, from.new.left)) result ((meaning (spec.import_behind name.now) there).read from.old.left) }
        ensures end { from.new.end ≡ from.old.end }
    {
        let description = Description::read(there, from)?;
        Ok(Import { name, description })
    }
}

impl<'a> Part<'a> for Import<'a> {
    type Context = Scope;

    ghost use Rattle.component_value_types.specs.declared.scope.Scope.{Scope};
    ghost use Rattle.component_definitions.specs.Externs as spec;

    ghost Value = { spec.ImportValue };

    ghost Known = { Scope };

    ghost syntax = { spec.import_entry };

    ghost known = { λ s. s };

    ghost value = { spec.import_value };

    #[tactic(auto, unfolding(crate::specs::Externs::import_entry))]
    fn read(there: Scope, from: &mut Reader<'a>) -> Result<Import<'a>, ReadError> {
        let name = extern_name(from)?;
        Import::read_behind(name, there, from)
    }

    #[tactic(auto, unfolding(crate::specs::Externs::import_entry))]
    fn put(&self, out: &mut Vec<u8>) -> Result<(), WriteFault> {
        put_extern_name(self.name, out)?;
        self.description.put(out)?;
        Ok(())
    }
}

impl<'a> Export<'a> {
    /// Reads what stands behind the name.
    pub fn read_behind(
        name: &'a str,
        there: Scope,
        from: &mut Reader<'a>,
    ) -> Result<Export<'a>, ReadError>
        ensures gives { Gives (λ x. (spec.export_value x, from.new.left)) result ((meaning (spec.export_behind name.now) there).read from.old.left) }
        ensures end { from.new.end ≡ from.old.end }
    {
        let sort = Sort::read(there, from)?;
        let index = from.index(count(there, sort))?;
        let ascribed = optional_of(there, from)?;
        Ok(Export {
            name,
            sort,
            index,
            ascribed,
        })
    }
}

impl<'a> Part<'a> for Export<'a> {
    type Context = Scope;

    ghost use Rattle.component_value_types.specs.declared.scope.Scope.{Scope};
    ghost use Rattle.component_definitions.specs.Externs as spec;

    ghost Value = { spec.ExportValue };

    ghost Known = { Scope };

    ghost syntax = { spec.export_entry };

    ghost known = { λ s. s };

    ghost value = { spec.export_value };

    #[tactic(auto, unfolding(crate::specs::Externs::export_entry))]
    fn read(there: Scope, from: &mut Reader<'a>) -> Result<Export<'a>, ReadError> {
        let name = extern_name(from)?;
        Export::read_behind(name, there, from)
    }

    #[tactic(auto, unfolding(crate::specs::Externs::export_entry))]
    fn put(&self, out: &mut Vec<u8>) -> Result<(), WriteFault> {
        put_extern_name(self.name, out)?;
        self.sort.put(out)?;
        put_number(out, self.index)?;
        put_optional(&self.ascribed, out)?;
        Ok(())
    }
}
