//! Laws of what is imported.

ghost use Rattle.component_imports.specs.Distinct.{ApartAreDistinct};
ghost use Rattle.component_imports.specs.Order.{EarlierTypesAreApart, EarlierTypesAreUsed};
ghost use Rattle.component_imports.specs.Ready.{ReadyFunctionsAreImported, ReadyIsImported};

/// Where each type stands behind those that it is made of, those of other interfaces are there, functions are over these types, no two
/// items have one name and the interface has a name under which nothing is imported, `import_interface` never answers `NotYet` (WIT, Item:
/// `interface`; Component Model, Explainer, Import and Export Definitions).
pub fn law_ready_is_imported()
    ensures { ReadyIsImported }
{}

/// Where each type stands behind those that it is made of, those of interfaces are there, functions are over these types, and no two items
/// have one name, `import_functions` never answers `NotYet` (WIT, Item: `world`; Component Model, Explainer, Import and Export Definitions).
pub fn law_ready_functions_are_imported()
    ensures { ReadyFunctionsAreImported }
{}

/// Where types of interfaces are made of those of the same or of earlier interfaces, a type of an interface doesn't speak of later ones (WIT,
/// Use).
pub fn law_earlier_types_are_apart()
    ensures { EarlierTypesAreApart }
{}

/// Where besides types with names belong somewhere, and so it is of what the functions of each interface take and give, all that an
/// interface takes from others is of earlier ones (WIT, Use).
pub fn law_earlier_types_are_used()
    ensures { EarlierTypesAreUsed }
{}

/// Where no two types of an interface have one name, no two of its functions, and no type that of a function, no two items that an instance
/// of it exports have one (WIT, Item: `interface`).
pub fn law_apart_are_distinct()
    ensures { ApartAreDistinct }
{}
