//! What there is of each sort behind a definition.

ghost use Rattle.std.specs.Prelude.{◌≡◌, ◌+◌, ◌<◌, ◌^◌, IfSome, IsSome};
ghost use Rattle.component_definitions.specs.Counting as spec;
ghost use Rattle.component_definitions.specs.Sorts.{core_count, component_count};

use crate::externs::Description;
use crate::sorts::{ComponentSort, Sort, count};
use component_value_types::{ExportKind, Scope};

/// An index space of a component (Component Model, Explainer, Index Spaces).
#[derive(Clone, Copy, Debug, PartialEq, Eq)]
pub enum IndexSpace {
    /// That of what has a sort.
    Of(Sort),
    /// Core modules.
    CoreModules,
    /// Core instances.
    CoreInstances,
    /// Components.
    Components,
}

/// One more of a core sort, unless 64 bits can't count it.
fn with_core(there: Scope, kind: ExportKind) -> Option<Scope>
    ensures value { IfSome result (λ s. s ≡ spec.with_core there kind) }
    ensures fits { core_count there kind + 1 < 2 ^ 64 → IsSome result }
{
    let mut scope = there;
    match kind {
        ExportKind::Func => scope.core_functions = there.core_functions.checked_add(1)?,
        ExportKind::Table => scope.core_tables = there.core_tables.checked_add(1)?,
        ExportKind::Memory => scope.core_memories = there.core_memories.checked_add(1)?,
        ExportKind::Global => scope.core_globals = there.core_globals.checked_add(1)?,
    }
    Some(scope)
}

/// One more of a sort of a component, unless 64 bits can't count it.
fn with_sort(there: Scope, sort: ComponentSort) -> Option<Scope>
    ensures value { IfSome result (λ s. s ≡ spec.with_sort there sort) }
    ensures fits { component_count there sort + 1 < 2 ^ 64 → IsSome result }
{
    let mut scope = there;
    match sort {
        ComponentSort::Function => scope.functions = there.functions.checked_add(1)?,
        ComponentSort::Type_ => scope.types = there.types.checked_add(1)?,
        ComponentSort::Instance => scope.instances = there.instances.checked_add(1)?,
    }
    Some(scope)
}

/// One more in an index space, unless 64 bits can't count it.
pub fn with_one(there: Scope, space: IndexSpace) -> Option<Scope>
    ensures value { IfSome result (λ s. s ≡ spec.with_one there space) }
    ensures fits { spec.count_in there space + 1 < 2 ^ 64 → IsSome result }
{
    let mut scope = there;
    match space {
        IndexSpace::Of(Sort::Core(kind)) => return with_core(there, kind),
        IndexSpace::Of(Sort::Component(sort)) => return with_sort(there, sort),
        IndexSpace::CoreModules => scope.core_modules = there.core_modules.checked_add(1)?,
        IndexSpace::CoreInstances => scope.core_instances = there.core_instances.checked_add(1)?,
        IndexSpace::Components => scope.components = there.components.checked_add(1)?,
    }
    Some(scope)
}

/// How many there are in an index space.
pub fn count_in(there: Scope, space: IndexSpace) -> usize
    ensures { result ≡ spec.count_in there space }
{
    match space {
        IndexSpace::Of(sort) => count(there, sort),
        IndexSpace::CoreModules => there.core_modules,
        IndexSpace::CoreInstances => there.core_instances,
        IndexSpace::Components => there.components,
    }
}

/// The sort of what is described so.
pub fn described_sort(description: Description) -> ComponentSort
    ensures { result ≡ spec.described_sort description }
{
    match description {
        Description::Function(_) => ComponentSort::Function,
        Description::Equal(_) | Description::Resource => ComponentSort::Type_,
        Description::Instance(_) => ComponentSort::Instance,
    }
}

/// What is there within an instance type or a nested component.
pub fn inside(there: Scope) -> Scope
    ensures { result ≡ spec.inside there }
{
    Scope {
        core_functions: 0,
        core_tables: 0,
        core_memories: 0,
        core_globals: 0,
        core_modules: 0,
        core_instances: 0,
        components: 0,
        instances: 0,
        functions: 0,
        types: 0,
        outer: Some(there.types),
        outermost: there.outer,
    }
}
