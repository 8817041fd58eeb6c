//! Laws of graphs: the contract of a function that does nothing.
ghost use Rattle.unit_graph.specs.{GraphLaws.{KnownNames}, MemberLaws.{MembersAreUnits}};

/// In a load of a store the names that resolve to a unit are those of the universe, and the members are all units, each once,
/// in byte order.
pub fn graph_laws()
    ensures known { KnownNames }
    ensures members { MembersAreUnits }
{}
