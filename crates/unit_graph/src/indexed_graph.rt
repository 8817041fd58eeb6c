//! The graph of a load by index: its adjacency lists, what is reached from a unit and at which distance.
ghost use Rattle.std.specs.{List.{All, Sorted.{IsStrictlySortedBy}}, Map.{keys_of}, Ordering.{nat_cmp}, Prelude.{[], IfOk, map, MatchOption, ℕ, ◌<◌, ◌∷◌, ◌≡◌}};
ghost use Rattle.unit_name.specs.Names.{name_cmp};
ghost use Rattle.name_closure.specs.ListedLaws.{Named};
ghost use Rattle.index_rows.specs.{Adjacency.{AreAdjacencyOf, neighbors as neighbors_of}, Indexing.{AreNamedSuccessors, IsIndexing}, Successors.{AreSuccessorsOf, successors_from}};
ghost use Rattle.inverse_deps.specs.{EdgeAdjacency.{edge_map}, Edges.{AreEdges}, Indices.{count_of, name_at}, Tables.{IsEdgeTable}};
ghost use Rattle.unit_graph.specs.{Graphs.{AreDepths, HasInverses, IsIndexFor, IsKnown, IsReach, LeadsBy, LeadToUnits, pulling}, Tables.{IsTable}};

use index_rows::{AdjacencyLists, Successors, closure, distances};
use inverse_deps::{EdgeTable, main_index, names_at};
use parallel_load::Loaded;
use setting_rules::DepKind;
use std::alloc::AllocError;
use std::marker::Model;
use unit_name::UnitName;

/// The graph of a load by index: its names indexed in byte order, and the edges of each kind from each unit. Contracts
/// see the load, and the edges by name that its table makes.
pub struct IndexedGraph<'a> {
    loaded: &'a Loaded,
    table: &'a EdgeTable,
}

impl<'a> Drop for IndexedGraph<'a> {
    fn drop(self) {
        let IndexedGraph {
            loaded: _,
            table: _,
        } = self;
    }
}

impl<'a> Model for IndexedGraph<'a> {
    ghost use Rattle.std.specs.Map.{keys_of};
    ghost use Rattle.inverse_deps.specs.{EdgeAdjacency.{edge_map}, Tables.{IsEdgeTable}};
    ghost use Rattle.unit_graph.specs.Graphs.{GraphMap, coded_graph};

    ghost Value = { GraphMap };

    ghost coded = { coded_graph };

    ghost view = { λ g. record {
      load = g.loaded.now;
      edges = edge_map (keys_of g.loaded.now.names) g.table.now;
    } };

    ghost invariant = { λ g. IsEdgeTable g.loaded.now g.table.now };
}

impl<'a> IndexedGraph<'a> {
    /// Returns the graph of a load and its edges. Both are borrowed; allocates nothing.
    pub fn build(loaded: &'a Loaded, table: &'a EdgeTable) -> IndexedGraph<'a>
        requires table { IsEdgeTable loaded.now table.now }
        ensures load { result.load ≡ loaded.now }
        ensures edges { result.edges ≡ edge_map (keys_of loaded.now.names) table.now }
        ensures all { AreEdges loaded.now result.edges }
    {
        IndexedGraph { loaded, table }
    }

    /// Returns the load. Indices of names follow the names' byte order.
    pub fn loaded(&self) -> &'a Loaded
        ensures load { result.now ≡ self.now.load }
        ensures units { LeadToUnits self.now }
        ensures inverses { HasInverses self.now }
        ensures order { IsIndexing (count_of self.now.load) (name_at self.now.load) name_cmp }
    {
        self.loaded
    }

    /// Returns the index of the unit that a name resolves to: the position of the unit's main name among all names.
    /// None if the name resolves to no unit. One search: O(log n); allocates nothing.
    pub fn index(&self, name: &UnitName) -> Option<usize>
        ensures index { MatchOption result (¬ IsKnown self.now.load name.now)
            (IsIndexFor self.now.load name.now) }
    {
        main_index(self.loaded, name)
    }
}

impl<'a> IndexedGraph<'a> {
    /// Returns the edges of these kinds from each unit, by index. Indices follow the names' byte order, and no edge
    /// starts at an alias. Fails only if memory runs out. O(the number of kinds): the adjacency lists are borrowed.
    pub fn successors<'b>(&'b self, kinds: &[DepKind]) -> Result<Successors<'b>, AllocError>
        ensures successors { IfOk result
            (λ successors. AreNamedSuccessors (count_of self.now.load) (name_at self.now.load)
            (Named (successors_from successors)) (LeadsBy self.now.edges kinds.now)) }
        ensures within { IfOk result
            (λ successors. AreSuccessorsOf (count_of self.now.load) successors) }
    {
        let mut successors = Successors::new(self.loaded.allocator());
        for kind in kinds {
            successors.push(self.table(*kind))?;
        }
        Ok(successors)
    }

    /// Returns the edges of one kind, by index: an adjacency list for each name, in ascending order, empty for an
    /// alias. Allocates nothing.
    pub fn adjacency(&self, kind: DepKind) -> &AdjacencyLists
        ensures successors { AreNamedSuccessors (count_of self.now.load) (name_at self.now.load)
            (Named (neighbors_of result.now)) (LeadsBy self.now.edges (kind ∷ [])) }
        ensures adjacency { AreAdjacencyOf (count_of self.now.load) result.now }
        ensures ascending { (u : ℕ) → IsStrictlySortedBy nat_cmp (neighbors_of result.now u) }
    {
        self.table(kind)
    }

    // The adjacency lists of a kind, as the table has them.
    fn table(&self, kind: DepKind) -> &AdjacencyLists
        ensures table { IsTable self.now.load self.now.edges kind result.now }
    {
        self.table.adjacency(kind)
    }
}

/// The kinds of dependency over which a unit pulls others.
const PULLING: [DepKind; 5] = [
    DepKind::Requires,
    DepKind::Requisite,
    DepKind::BindsTo,
    DepKind::Wants,
    DepKind::Upholds,
];

impl<'a> IndexedGraph<'a> {
    /// Returns all units that are reached over edges of these kinds from the unit that a name resolves to, that unit
    /// included, in byte order. Fails only if memory runs out. O(n + m), for n names and m edges of these kinds.
    pub fn reach(&self, kinds: &[DepKind], from: &UnitName) -> Result<Vec<UnitName>, AllocError>
        requires from { IsKnown self.now.load from.now }
        ensures reached { IfOk result (λ names. IsReach self.now kinds.now from.now names.items) }
    {
        let load = self.loaded();
        let source = self.source(from);
        let successors = self.successors(kinds)?;
        let indices = closure(load.allocator(), load.names().len(), &successors, &[source])?;
        Ok(names_at(load.allocator(), load, &indices)?)
    }

    /// Returns all units that are reached over `Requires`, `Requisite`, `BindsTo`, `Wants` and `Upholds` from the unit that
    /// a name resolves to, each with its least distance, ordered by distance and then by name. Fails only if memory runs out.
    /// O(n log n + m), for n names and m edges of these kinds.
    pub fn depths(&self, from: &UnitName) -> Result<Vec<(u64, UnitName)>, AllocError>
        requires from { IsKnown self.now.load from.now }
        ensures depths { IfOk result (λ pairs. AreDepths self.now from.now pairs.items) }
    {
        let load = self.loaded();
        let source = self.source(from);
        let successors = self.successors(&PULLING)?;
        let pairs = distances(load.allocator(), load.names().len(), &successors, &[source])?;
        Ok(named_distances(load, &pairs)?)
    }

    // The index of the unit that a name resolves to.
    fn source(&self, from: &UnitName) -> usize
        requires from { IsKnown self.now.load from.now }
        ensures index { IsIndexFor self.now.load from.now result }
    {
        self.index(from).unwrap()
    }
}

// Distances of indices, with names in place of the indices.
fn named_distances(
    loaded: &Loaded,
    pairs: &[(usize, usize)],
) -> Result<Vec<(u64, UnitName)>, AllocError>
    requires pairs { All (λ p. p.1 < count_of loaded.now) pairs.now }
    ensures named { IfOk result
        (λ named. named.items ≡ map (λ p. (p.0, name_at loaded.now p.1)) pairs.now) }
{
    let names = loaded.names();
    let mut named = Vec::new(loaded.allocator());
    for pair in pairs {
        let name = names[pair.1].0.try_clone()?;
        named.push((pair.0 as u64, name))?;
    }
    Ok(named)
}
