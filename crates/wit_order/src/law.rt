//! Laws of orders.

ghost use Rattle.wit_order.specs.Names.{OrderIsOfTheSet, FaultDeniesAnOrder};

/// Tables of equal keys, in equal order and by their bytes, of which equal keys need equal sets of names, have equal
/// orders, or have none both, for the same cause: they lack the same names, and have circles both or neither. A table has one
/// order at most. How often, in which order and where a key needs a name changes nothing.
pub fn law_order_is_of_the_set()
    ensures { OrderIsOfTheSet }
{}

/// Where a fault's sentence holds, other than that memory was wanting, there is no order; and a name that closes a circle
/// leads back to itself.
pub fn law_a_fault_denies_an_order()
    ensures { FaultDeniesAnOrder }
{}
