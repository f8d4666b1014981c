//! The law of orders.

ghost use Rattle.wit_orders.specs.Toposort.{OrdersAreToposorts};

/// Interfaces and worlds of which all needs are there stand in the order that `toposort` answers for their names.
pub fn law_orders_are_toposorts()
    ensures { OrdersAreToposorts }
{}
