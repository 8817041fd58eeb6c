//! The graph of a load, by name.
ghost use Rattle.std.specs.{Option.{option_copied}, Prelude.{IfOk, IsTrue, MatchOption, ◌↔◌, ◌≡◌}};
ghost use Rattle.parallel_load.specs.Loads.{main_in};
ghost use Rattle.inverse_deps.specs.Edges.{AreEdges, names_in};
ghost use Rattle.unit_graph.specs.Graphs.{AreDepths, IsIndexFor, IsKnown, IsReach, manual_in, members_in, status_in};

use crate::indexed_graph::IndexedGraph;
use inverse_deps::Edges;
use parallel_load::{Loaded, Status};
use replica_store::Viewer;
use setting_rules::DepKind;
use std::alloc::AllocError;
use std::marker::Model;
use unit_name::UnitName;

/// The graph of a load: its names indexed in byte order, and the edges of each kind from each unit, by name.
pub struct Graph<'a> {
    loaded: &'a Loaded,
    edges: &'a Edges,
}

impl<'a> Drop for Graph<'a> {
    fn drop(self) {
        let Graph {
            loaded: _,
            edges: _,
        } = self;
    }
}

impl<'a> Model for Graph<'a> {
    ghost use Rattle.inverse_deps.specs.Edges.{AreEdges};
    ghost use Rattle.unit_graph.specs.Graphs.{GraphMap, coded_graph};

    ghost Value = { GraphMap };

    ghost coded = { coded_graph };

    ghost view = { λ g. record { load = g.loaded.now; edges = g.edges.now } };

    ghost invariant = { λ g. AreEdges g.loaded.now g.edges.now };
}

impl<'a> Graph<'a> {
    /// Returns the graph of a load and its edges. Both are borrowed; allocates nothing.
    pub fn build(loaded: &'a Loaded, edges: &'a Edges) -> Graph<'a>
        requires edges { AreEdges loaded.now edges.now }
        ensures load { result.load ≡ loaded.now }
        ensures edges { result.edges ≡ edges.now }
    {
        Graph { loaded, edges }
    }

    /// Returns the same graph by index. Allocates nothing.
    pub fn indexed(&self) -> IndexedGraph<'a>
        ensures graph { result ≡ self.now }
    {
        IndexedGraph::build(self.loaded, self.edges.table())
    }

    /// Returns who the load was made for: a host's manager or one without a host, and by which rules. Allocates nothing.
    pub fn viewer(&self) -> &Viewer
        ensures viewer { result.now ≡ self.now.load.viewer }
    {
        self.loaded.viewer()
    }

    /// Whether a name resolves to a unit. It is true for each name of the universe, aliases included. O(log n);
    /// allocates nothing.
    pub fn has(&self, name: &UnitName) -> bool
        ensures has { IsTrue result ↔ IsKnown self.now.load name.now }
    {
        self.index(name).is_some()
    }

    /// Returns the main name of a name, as in the load. O(log n); allocates nothing.
    pub fn main(&self, name: &UnitName) -> Option<&UnitName>
        ensures main { option_copied result ≡ main_in self.now.load name.now }
    {
        self.loaded.main(name)
    }

    /// Returns the status of the unit with this main name, or none for another name. O(log n); allocates nothing.
    pub fn status(&self, name: &UnitName) -> Option<&Status>
        ensures status { option_copied result ≡ status_in self.now.load name.now }
    {
        match self.loaded.unit(name) {
            Some(unit) => Some(&unit.status),
            None => None,
        }
    }

    /// Whether the unit with this main name refuses to be started by hand; none for another name. O(log n); allocates
    /// nothing.
    pub fn manual(&self, name: &UnitName) -> Option<bool>
        ensures manual { result ≡ manual_in self.now.load name.now }
    {
        match self.loaded.unit(name) {
            Some(unit) => Some(unit.manual),
            None => None,
        }
    }

    /// Returns the units to which edges of a kind lead from the unit with this main name, in byte order. O(log n);
    /// allocates nothing.
    pub fn of(&self, kind: DepKind, name: &UnitName) -> &[UnitName]
        ensures names { result.now ≡ names_in self.now.edges kind name.now }
    {
        self.edges.of(kind, name)
    }

    /// Returns the index of the unit that a name resolves to: the position of the unit's main name among all names.
    /// None if the name resolves to no unit. O(log n); allocates nothing.
    pub fn index(&self, name: &UnitName) -> Option<usize>
        ensures index { MatchOption result (¬ IsKnown self.now.load name.now)
            (IsIndexFor self.now.load name.now) }
    {
        self.indexed().index(name)
    }

    /// Returns the main names of all units, in byte order. Fails only if memory runs out.
    pub fn members(&self) -> Result<Vec<UnitName>, AllocError>
        ensures members { IfOk result (λ names. names.items ≡ members_in self.now.load) }
    {
        let mut names = Vec::new(self.loaded.allocator());
        let units = self.loaded.units()?;
        for unit in &units {
            names.push(unit.name.try_clone()?)?;
        }
        Ok(names)
    }

    /// Returns all units that are reached over edges of these kinds from the unit that a name resolves to, that unit
    /// included, in byte order. Fails only if memory runs out. O(n + m), for n names and m edges of these kinds.
    pub fn reach(&self, kinds: &[DepKind], from: &UnitName) -> Result<Vec<UnitName>, AllocError>
        requires from { IsKnown self.now.load from.now }
        ensures reached { IfOk result (λ names. IsReach self.now kinds.now from.now names.items) }
    {
        self.indexed().reach(kinds, from)
    }

    /// Returns all units that are reached over `Requires`, `Requisite`, `BindsTo`, `Wants` and `Upholds` from the unit that
    /// a name resolves to, each with its least distance, ordered by distance and then by name. Fails only if memory runs out.
    /// O(n log n + m), for n names and m edges of these kinds.
    pub fn depths(&self, from: &UnitName) -> Result<Vec<(u64, UnitName)>, AllocError>
        requires from { IsKnown self.now.load from.now }
        ensures depths { IfOk result (λ pairs. AreDepths self.now from.now pairs.items) }
    {
        self.indexed().depths(from)
    }
}
