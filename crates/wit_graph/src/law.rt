//! A law of graphs whose interfaces have their types.

ghost use Rattle.wit_graph.specs.Graph.{TypesOfItemsUseEarlier};

/// In a graph each type that belongs to an interface is made of types of that and of earlier ones, or of such as belong nowhere.
pub fn law_types_use_earlier()
    ensures { TypesOfItemsUseEarlier }
{}
