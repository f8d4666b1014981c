//! A law of link tables.

ghost use Rattle.link_table.specs.Law.{TablesAreOne};

use flat_trees::law_unfolded_functions_are_flat;

/// Over types that are made of earlier ones, a module and a world have one link table at most, and where they have it, no cause holds but
/// want of memory: so `table_of` refuses only where there is none (Component Model, Build Targets; Canonical ABI).
pub fn law_tables_are_one()
    ensures { TablesAreOne }
{
    law_unfolded_functions_are_flat();
}
