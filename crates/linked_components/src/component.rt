//! The lines of a link table, and the component.

ghost use Rattle.std.specs.Prelude.{map, string_bytes, IfOk, IfErr};
ghost use Rattle.interface_names.specs.Names.{AreNamesById};
ghost use Rattle.link_lines.specs.Line.{link_value};
ghost use Rattle.encodable_worlds.specs.Passed.link_table-Cause.{IsTableCause};
ghost use Rattle.encodable_worlds.specs.Passed.link_table-Linking.{linking_value};
ghost use Rattle.encodable_worlds.specs.Passed.link_table-View.{IsTableOf};
ghost use Rattle.linked_components.specs.Build as spec;

use crate::fault::ComponentFault;
use encodable_worlds::{
    LinkTable, Linking, TableFault, encode, law_functions_are_there, law_worlds_are_encodable,
    table_of,
};
use interface_names::{interface_names, law_imports_are_there};
use link_lines::Link;
use std::alloc::Global;
use wit_types::WorldId;

/// The lines of the link table of a module and a world of a graph, in order: by side, and then by the bytes of module, name and item
/// (Component Model, Build Targets; Canonical ABI, canon lift and canon lower). Answers X1, B7 to B17, and want of memory, where there is
/// no table, each where that holds.
pub fn links(alloc: Global, linking: &Linking<'_, '_, '_>) -> Result<Vec<Link>, TableFault>
    requires { spec.IsOfGraph (linking_value linking.now).names }
    ensures lines { IfOk result (λ v. spec.HasLines (linking_value linking.now) (map link_value v.items)) }
    ensures cause { IfErr result (IsTableCause (linking_value linking.now)) }
{
    law_functions_are_there();
    let table = table_of(alloc, linking)?;
    let links = table.links(alloc, linking)?;
    Ok(links)
}

/// The component of a link table, under these names.
fn encoded(
    alloc: Global,
    linking: &Linking<'_, '_, '_>,
    table: &LinkTable,
    world: WorldId,
    names: &[String],
    bytes: &[u8],
) -> Result<Vec<u8>, ComponentFault>
    requires graph { spec.IsOfNamedGraph (linking_value linking.now) world }
    requires table { IsTableOf (linking_value linking.now) table.now }
    requires names { AreNamesById (linking_value linking.now).names (linking_value linking.now).main.imports (map string_bytes names.now) }
    ensures right { IfOk result (λ v. spec.IsComponentOf (linking_value linking.now) bytes.now v.items) }
    ensures cause { IfErr result (spec.IsComponentCause (linking_value linking.now)) }
{
    law_functions_are_there();
    law_worlds_are_encodable();
    let encoded = encode(alloc, linking, table, world, names, bytes)?;
    Ok(encoded)
}

/// The component that joins the module of these bytes with a world of a graph (Component Model, Explainer, Component Definitions). Answers
/// what `links` does; X1 too where core imports name functions of one interface under two names; and B25 where 32 bits can't say an index, a
/// count or a size.
pub fn build(
    alloc: Global,
    linking: &Linking<'_, '_, '_>,
    world: WorldId,
    bytes: &[u8],
) -> Result<Vec<u8>, ComponentFault>
    requires { spec.IsOfNamedGraph (linking_value linking.now) world }
    ensures right { IfOk result (λ v. spec.IsComponentOf (linking_value linking.now) bytes.now v.items) }
    ensures cause { IfErr result (spec.IsComponentCause (linking_value linking.now)) }
{
    law_functions_are_there();
    law_imports_are_there();
    let table = table_of(alloc, linking)?;
    let imports = linking.main.imports.as_slice();
    let Some(names) = interface_names(alloc, &linking.names, table.imports(), imports)? else {
        return Err(ComponentFault::Table(TableFault::NotYet));
    };
    encoded(alloc, linking, &table, world, names.as_slice(), bytes)
}
