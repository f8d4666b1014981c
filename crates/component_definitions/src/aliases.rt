//! Aliases.

ghost use Rattle.std.specs.Prelude.{◌≡◌, ◌∷◌, ◌++◌, OnOk, IfErr, Err};
ghost use Rattle.component_value_types.specs.Passed.binary_grammar-Fault.{Gives};
ghost use Rattle.component_value_types.specs.Passed.binary_grammar-Syntax.{meaning, bytes, IsTyped, IsText, u32_bytes, with_length};
ghost use Rattle.component_definitions.specs.Sorts.{sort as sort_grammar};
ghost use Rattle.component_definitions.specs.Aliases as spec;

use crate::sorts::{ComponentSort, Sort};
use component_value_types::{
    Code, ExportKind, Part, ReadError, Reader, Rule, Scope, WriteFault, broken_at, put_name,
    put_number,
};

/// Another name for what is there already (Component Model Binary, Alias Definitions).
#[derive(Clone, Copy, Debug, PartialEq, Eq)]
pub enum Alias<'a> {
    /// What an instance exports.
    InstanceExport {
        /// Its sort.
        sort: ComponentSort,
        /// The instance.
        instance: u32,
        /// The name.
        name: &'a str,
    },
    /// What a core instance exports.
    CoreInstanceExport {
        /// Its sort.
        kind: ExportKind,
        /// The core instance.
        instance: u32,
        /// The name.
        name: &'a str,
    },
    /// A type of a component or instance type around.
    Outer {
        /// How many outwards; 0 is the own.
        count: u32,
        /// Its index there.
        index: u32,
    },
}

impl Alias<'_> {
    /// The sort of what it names, of which it takes the next index.
    pub fn sort(self) -> Sort
        ensures { result ≡ spec.alias_sort (spec.alias_value self.entry) }
    {
        match self {
            Alias::InstanceExport { sort, .. } => Sort::Component(sort),
            Alias::CoreInstanceExport { kind, .. } => Sort::Core(kind),
            Alias::Outer { .. } => Sort::Component(ComponentSort::Type_),
        }
    }
}

fn instance_export<'a>(
    sort: ComponentSort,
    there: Scope,
    from: &mut Reader<'a>,
) -> Result<Alias<'a>, ReadError>
    ensures gives { Gives (λ x. (spec.alias_value x, from.new.left)) result ((meaning (spec.alias_behind (spec.in_instance sort)) there).read from.old.left) }
    ensures end { from.new.end ≡ from.old.end }
{
    let instance = from.index(there.instances)?;
    let name = from.name()?;
    Ok(Alias::InstanceExport {
        sort,
        instance,
        name,
    })
}

fn core_instance_export<'a>(
    kind: ExportKind,
    there: Scope,
    from: &mut Reader<'a>,
) -> Result<Alias<'a>, ReadError>
    ensures gives { Gives (λ x. (spec.alias_value x, from.new.left)) result ((meaning (spec.alias_behind (spec.in_core_instance kind)) there).read from.old.left) }
    ensures end { from.new.end ≡ from.old.end }
{
    let instance = from.index(there.core_instances)?;
    let name = from.name()?;
    Ok(Alias::CoreInstanceExport {
        kind,
        instance,
        name,
    })
}

fn outer<'a>(there: Scope, from: &mut Reader<'a>) -> Result<Alias<'a>, ReadError>
    ensures gives { Gives (λ x. (spec.alias_value x, from.new.left)) result ((meaning (spec.alias_behind spec.around) there).read from.old.left) }
    ensures end { from.new.end ≡ from.old.end }
{
    let at = from.left();
    let count = from.number()?;
    let Some(types) = there.types_outwards(count) else {
        return Err(broken_at(Rule::Index, at));
    };
    let index = from.index(types)?;
    Ok(Alias::Outer { count, index })
}

/// Adds the sort, where it comes from, the instance, and the name.
fn put_export(
    sort: Sort,
    target: u8,
    instance: u32,
    name: &str,
    out: &mut Vec<u8>,
) -> Result<(), WriteFault>
    ensures bytes { OnOk result (out.new.items ≡ out.old.items ++ (bytes sort_grammar sort ++ (target ∷ (u32_bytes instance ++ with_length name.now)))) }
    ensures typed { OnOk result (IsTyped sort_grammar sort × IsText name.now) }
    ensures large { result ≡ Err WriteFault.TooLarge → IsTyped sort_grammar sort → IsText name.now → ⊥ }
{
    sort.put(out)?;
    out.push(target)?;
    put_number(out, instance)?;
    put_name(out, name)?;
    Ok(())
}

/// Adds an alias of a type around.
fn put_outer(count: u32, index: u32, out: &mut Vec<u8>) -> Result<(), WriteFault>
    ensures bytes { OnOk result (out.new.items ≡ out.old.items ++ (3 ∷ 2 ∷ (u32_bytes count ++ u32_bytes index))) }
    ensures memory { IfErr result (λ e. e ≡ WriteFault.OutOfMemory) }
{
    out.push(3)?;
    out.push(2)?;
    put_number(out, count)?;
    put_number(out, index)?;
    Ok(())
}

impl<'a> Part<'a> for Alias<'a> {
    type Context = Scope;

    ghost use Rattle.component_value_types.specs.declared.scope.Scope.{Scope};
    ghost use Rattle.component_definitions.specs.Aliases as spec;

    ghost Value = { spec.AliasValue };

    ghost Known = { Scope };

    ghost syntax = { spec.alias };

    ghost known = { λ s. s };

    ghost value = { spec.alias_value };

    #[tactic(auto, unfolding(crate::specs::Aliases::alias))]
    fn read(there: Scope, from: &mut Reader<'a>) -> Result<Alias<'a>, ReadError> {
        let sort = Sort::read(there, from)?;
        let at = from.left();
        let target = from.byte()?;
        match (sort, target) {
            (Sort::Component(sort), 0) => instance_export(sort, there, from),
            (Sort::Core(kind), 1) => core_instance_export(kind, there, from),
            (Sort::Component(ComponentSort::Type_), 2) => outer(there, from),
            _ => Err(broken_at(Rule::Tag, at)),
        }
    }

    #[tactic(auto, unfolding(crate::specs::Aliases::alias, crate::specs::Sorts::sort, crate::specs::Sorts::sort_form_of, crate::specs::Sorts::component_sort_of))]
    fn put(&self, out: &mut Vec<u8>) -> Result<(), WriteFault> {
        match self {
            Alias::InstanceExport {
                sort,
                instance,
                name,
            } => { put_export(Sort::Component(*sort), 0, *instance, name, out) }
            Alias::CoreInstanceExport {
                kind,
                instance,
                name,
            } => { put_export(Sort::Core(*kind), 1, *instance, name, out) }
            Alias::Outer { count, index } => put_outer(*count, *index, out),
        }
    }
}
