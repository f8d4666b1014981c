//! A law of worlds with which modules are linked.

ghost use Rattle.linked_worlds.specs.Linked.{FunctionsAreThere};
ghost use Rattle.linked_worlds.specs.Needed.{NeededAreLinked};
ghost use Rattle.linked_worlds.specs.Asked.{AskedAreImported};
ghost use Rattle.linked_worlds.specs.Named.{WorldsHaveTextsApart};
ghost use Rattle.linked_worlds.specs.Importable.{WorldsAreImportable, WorldsAreWritable};
ghost use Rattle.linked_worlds.specs.Ready.{OwnAreImported, OwnTypesAreListed, RememberedMayBeTaken};

use linked_interfaces::{law_linked_interfaces_are_writable, law_ready_functions_are_imported};
use wit_elaborated::law_elaborated_worlds_are_there;

/// Where names are those of a graph, and of one of its worlds with all that this imports in the end, all is there that `table_of` asks for:
/// functions that modules may import of the world, and those that it exports itself, are over types of the graph, these are made of earlier
/// ones, and interfaces are of packages of the graph (Component Model, Build Targets; WIT, Worlds).
pub fn law_functions_are_there()
    ensures { FunctionsAreThere }
{
    law_elaborated_worlds_are_there();
}

/// Where names are those of a graph, the functions of each of its interfaces for which core imports stand are functions of that interface, each
/// once (WIT, Item: `interface`; Component Model, Build Targets).
pub fn law_needed_are_linked()
    ensures { NeededAreLinked }
{}

/// Where interfaces and worlds of a graph take types of other interfaces by `use` alone, a world imports each interface of which a type is
/// reached from functions of it that modules need, or from such of its interfaces, or from functions that it exports itself, and each of which
/// a function is needed (WIT, Use, Item: `world`; Component Model, WIT, Worlds).
pub fn law_asked_are_imported()
    ensures { AskedAreImported }
{}

/// Where packages of a graph differ by their texts, interfaces of a package by their names and plain names of a world from each other, and no
/// part of these has a mark that stands between them, the keys of a world have texts that tell its interfaces apart, and from its functions and
/// types (WIT, Package Names; Component Model, Import and Export Definitions).
pub fn law_worlds_have_texts_apart()
    ensures { WorldsHaveTextsApart }
{}

/// Then all interfaces of which modules of the world need something have names of their own, under which nothing is imported yet.
pub fn law_worlds_are_importable()
    ensures { WorldsAreImportable }
{}

/// And where the functions that are needed may be linked, `import_interfaces` never answers `NotYet` for these and those that the world exports
/// (Component Model, Explainer, Import and Export Definitions, Type Definitions).
pub fn law_worlds_are_writable()
    ensures { WorldsAreWritable }
{
    law_linked_interfaces_are_writable();
}

/// A type with a name, of which functions of the world itself that are needed or that it exports are made as far as the world sees it, is of an
/// interface, or is the world's and imported under its name (WIT, Item: `world`).
pub fn law_own_types_are_listed()
    ensures { OwnTypesAreListed }
{}

/// Where the functions that are needed, and those that the world exports, may be linked, and interfaces are imported with the types of theirs that
/// these are made of, `import_functions` never answers `NotYet` for those of the world itself (WIT, Item: `world`; Component Model, Explainer,
/// Import and Export Definitions).
pub fn law_own_are_imported()
    ensures { OwnAreImported }
{
    law_ready_functions_are_imported();
}

/// All types of interfaces that are asked for may be taken where each that is needed of one is remembered with an instance.
pub fn law_remembered_may_be_taken()
    ensures { RememberedMayBeTaken }
{}
