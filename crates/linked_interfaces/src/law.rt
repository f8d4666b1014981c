//! Laws of interfaces of which functions are linked.

ghost use Rattle.linked_interfaces.specs.Linked.{LinkedFunctionsAreUpTo, LinkedNamesAreApart};
ghost use Rattle.linked_interfaces.specs.Writable.{LinkedInterfacesAreWritable};

use component_imports::{law_apart_are_distinct, law_earlier_types_are_used};

/// Where linked functions of each interface are functions of it, no two types of an interface have one name, no two of its linked functions,
/// and no type that of one of these, if it is so of all that the interface has.
pub fn law_linked_names_are_apart()
    ensures { LinkedNamesAreApart }
{}

/// What linked functions take and give is made of types of their interface and of earlier ones, if it is so of all functions that this has.
pub fn law_linked_functions_are_up_to()
    ensures { LinkedFunctionsAreUpTo }
{}

/// Where interfaces hold their types under names that differ and types without names belong nowhere, where linked functions of each are
/// functions of it, each once, and may be linked with other given ones, and where interfaces of which something is asked for have names of
/// their own under which nothing is imported yet, `import_interfaces` never answers `NotYet` for these and the types of the others (WIT, Item:
/// `interface`, Use; Component Model, Explainer, Import and Export Definitions, Type Definitions).
pub fn law_linked_interfaces_are_writable()
    ensures { LinkedInterfacesAreWritable }
{
    law_earlier_types_are_used();
    law_apart_are_distinct();
}
