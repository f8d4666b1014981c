//! Sorts.

ghost use Rattle.std.specs.Prelude.{◌≡◌};
ghost use Rattle.component_definitions.specs.Sorts as spec;

use component_value_types::{
    Code, ExportKind, Part, ReadError, Reader, Rule, Scope, WriteFault, coded_of,
};

/// A sort of a component (Component Model Binary, Instance Definitions).
#[derive(Clone, Copy, Debug, PartialEq, Eq)]
pub enum ComponentSort {
    /// A function.
    Function,
    /// A type.
    Type_,
    /// An instance.
    Instance,
}

/// A sort: a core one, or one of a component.
#[derive(Clone, Copy, Debug, PartialEq, Eq)]
pub enum Sort {
    /// A core sort.
    Core(ExportKind),
    /// A sort of a component.
    Component(ComponentSort),
}

/// How many there are of a core sort.
pub fn core_count(there: Scope, kind: ExportKind) -> usize
    ensures { result ≡ spec.core_count there kind }
{
    match kind {
        ExportKind::Func => there.core_functions,
        ExportKind::Table => there.core_tables,
        ExportKind::Memory => there.core_memories,
        ExportKind::Global => there.core_globals,
    }
}

/// How many there are of a sort of a component.
pub fn component_count(there: Scope, sort: ComponentSort) -> usize
    ensures { result ≡ spec.component_count there sort }
{
    match sort {
        ComponentSort::Function => there.functions,
        ComponentSort::Type_ => there.types,
        ComponentSort::Instance => there.instances,
    }
}

/// How many there are of a sort.
pub fn count(there: Scope, sort: Sort) -> usize
    ensures { result ≡ spec.count there sort }
{
    match sort {
        Sort::Core(kind) => core_count(there, kind),
        Sort::Component(sort) => component_count(there, sort),
    }
}

impl ComponentSort {
    /// The sort that a byte stands for.
    #[tactic(auto, unfolding(crate::specs::Sorts::component_sort_of))]
    fn of_byte(byte: u8) -> Result<ComponentSort, Rule>
        ensures { result ≡ spec.component_sort_of byte }
    {
        match byte {
            1 => Ok(ComponentSort::Function),
            3 => Ok(ComponentSort::Type_),
            5 => Ok(ComponentSort::Instance),
            _ => Err(Rule::Tag),
        }
    }

    /// The byte that stands for the sort.
    fn byte(self) -> u8
        ensures { result ≡ spec.component_sort_byte self }
    {
        match self {
            ComponentSort::Function => 1,
            ComponentSort::Type_ => 3,
            ComponentSort::Instance => 5,
        }
    }
}

impl<'a> Part<'a> for Sort {
    type Context = Scope;

    ghost use Rattle.component_value_types.specs.declared.scope.Scope.{Scope};
    ghost use Rattle.component_definitions.specs.declared.sorts.Sort.{Sort};
    ghost use Rattle.component_definitions.specs.Sorts as spec;

    ghost Value = { Sort };

    ghost Known = { Scope };

    ghost syntax = { spec.sort };

    ghost known = { λ s. s };

    ghost value = { λ s. s };

    #[tactic(auto, unfolding(crate::specs::Sorts::sort, crate::specs::Sorts::sort_form_of))]
    fn read(_there: Scope, from: &mut Reader<'a>) -> Result<Sort, ReadError> {
        let byte = from.byte()?;
        if byte == 0 {
            return Ok(Sort::Core(coded_of(from)?));
        }
        match ComponentSort::of_byte(byte) {
            Ok(sort) => Ok(Sort::Component(sort)),
            Err(rule) => Err(from.broken(rule)),
        }
    }

    #[tactic(auto, unfolding(crate::specs::Sorts::sort, crate::specs::Sorts::sort_form_of, crate::specs::Sorts::component_sort_of))]
    fn put(&self, out: &mut Vec<u8>) -> Result<(), WriteFault> {
        match self {
            Sort::Core(kind) => {
                out.push(0)?;
                out.push(kind.byte())?;
            }
            Sort::Component(sort) => out.push(sort.byte())?,
        }
        Ok(())
    }
}
