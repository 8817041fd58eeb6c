//! The edges of a load, as lists of names and as adjacency lists.
ghost use Rattle.std.specs.{Map.{keys_of}, Prelude.{Some, ◌≡◌}};
ghost use Rattle.inverse_deps.specs.{EdgeAdjacency.{AreAdjacencyBy, AreAdjacencyByKinds, edge_map}, Edges.{list_at, names_in}, Tables.{AreKept}};

use crate::edge_table::EdgeTable;
use index_rows::AdjacencyLists;
use plain_values::Items;
use setting_rules::DepKind;
use sorted_pairs::seek;
use std::marker::Model;
use unit_name::UnitName;

/// The edges between the units of a load: which unit depends on which, in both directions.
#[derive(Debug)]
pub struct Edges {
    units: Vec<(UnitName, Items<Items<UnitName>>)>,
    // The same by index.
    table: EdgeTable,
}

impl Drop for Edges {
    fn drop(self) {
        let Edges { units: _, table: _ } = self;
    }
}

impl Model for Edges {
    ghost use Rattle.inverse_deps.specs.{Edges.{EdgeMap}, Tables.{AreKept}};

    ghost Value = { EdgeMap };

    ghost view = { λ e. e.units.items };

    ghost invariant = { λ e. AreKept e.units.items e.table };
}

impl Edges {
    // Returns the edges with these lists, whose names are in byte order, and with the same by index.
    pub(crate) fn new(units: Vec<(UnitName, Items<Items<UnitName>>)>, table: EdgeTable) -> Edges
        requires kept { AreKept units.items table }
        ensures edges { result ≡ units.items }
    {
        Edges { units, table }
    }

    /// Returns the units to which edges of a kind lead from the unit with this main name, in byte order. Empty for a
    /// name without a unit. O(log n); allocates nothing.
    pub fn of(&self, kind: DepKind, name: &UnitName) -> &[UnitName]
        ensures names { result.now ≡ names_in self.now kind name.now }
    {
        match seek(&self.units, name) {
            Ok(at) => list_of(self.units[at].1.as_slice(), kind),
            Err(_) => &[],
        }
    }

    /// Returns the edges of a kind from each name, by the indices of names in byte order: an adjacency list for each
    /// name, in ascending order, empty for a name without a unit. Allocates nothing.
    pub fn adjacency(&self, kind: DepKind) -> &AdjacencyLists
        ensures adjacency { AreAdjacencyBy self.now kind result.now }
    {
        self.table.adjacency(kind)
    }

    /// Returns the same edges by index. Allocates nothing.
    pub fn table(&self) -> &EdgeTable
        ensures edges { self.now ≡ edge_map (keys_of self.now) result.now }
        ensures adjacency { AreAdjacencyByKinds self.now result.now }
    {
        &self.table
    }
}

// The list of a kind.
fn list_of(lists: &[Items<UnitName>], kind: DepKind) -> &[UnitName]
    ensures list { result.now ≡ list_at kind (Some lists.now) }
{
    match lists.get(kind as usize) {
        Some(list) => list.as_slice(),
        None => &[],
    }
}
