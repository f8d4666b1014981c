//! Laws of names in texts.

ghost use Rattle.wit_plain_texts.specs.Law.{IdentifiersArePlain, NamesOfTextsArePlain};
ghost use Rattle.wit_plain_texts.specs.Scopes.{NestedFilesArePlain, PackagesArePlain, ScopesArePlain};

/// An identifier has no `:`, no `/` and no `@` (WIT, Identifiers).
pub fn law_identifiers_are_plain()
    ensures { IdentifiersArePlain }
{}

/// The names of packages, interfaces and worlds of a text, and the plain names within worlds, have none of them (WIT, Package Names).
pub fn law_names_of_texts_are_plain()
    ensures { NamesOfTextsArePlain }
{}

/// So it is of the interfaces and worlds of a package, where it is of its files (WIT, Packages).
pub fn law_scopes_are_plain()
    ensures { ScopesArePlain }
{}

/// And of the name that the first header of them gives the package.
pub fn law_packages_are_plain()
    ensures { PackagesArePlain }
{}

/// And of files without the packages nested in them, and of these as files of their own (WIT, Nested Packages).
pub fn law_nested_files_are_plain()
    ensures { NestedFilesArePlain }
{}
