//! Laws of what plain definitions stand for.

ghost use Rattle.plain_meaning.specs.Law.{PlainDefinitionsStandForTheSame, ReadModulesHaveTypes};
ghost use Rattle.plain_meaning.specs.Right.{ModulesAreRightInBoth, ImportsAreTheSame, ExportsAreTheSame};

/// Where each function that a core module exports has a type in it, the indices of a component of plain definitions stand for the same by these
/// alone and among all definitions: functions under the same names, of the same types, by the same imports, lifts and lowerings, and
/// core instances of the same modules that are given the same (Component Model, Explainer, Index Spaces).
pub fn law_plain_definitions_stand_for_the_same()
    ensures { PlainDefinitionsStandForTheSame }
{}

/// Each function that a module exports has a type in it, where bytes are the module (WebAssembly Core, Binary Format, Modules).
pub fn law_read_modules_have_types()
    ensures { ReadModulesHaveTypes }
{}

/// Where indices stand for the same, the core modules and their instances are right in both or in neither.
pub fn law_modules_are_right_in_both()
    ensures { ModulesAreRightInBoth }
{}

/// Where indices stand for the same, so do names that are imported.
pub fn law_imports_are_the_same()
    ensures { ImportsAreTheSame }
{}

/// Where indices stand for the same, so do names that are exported.
pub fn law_exports_are_the_same()
    ensures { ExportsAreTheSame }
{}
