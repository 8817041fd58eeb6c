//! The edges of a load by name, listed unit by unit.
ghost use Rattle.std.specs.{Map.{keys_of}, Prelude.{IfOk, ◌<◌, ◌≡◌}};
ghost use Rattle.inverse_deps.specs.{Edges.{AreEdges}, Indices.{count_of}, EdgeAdjacency.{lists_from}, Tables.{AreKept, IsEdgeTable}};

use crate::edge_table::EdgeTable;
use crate::indices::names_at;
use crate::lists::Edges;
use parallel_load::Loaded;
use plain_values::Items;
use setting_rules::DepKind;
use std::alloc::{AllocError, Global};
use unit_name::UnitName;

/// Returns all edges of a load, by name and by index. Fails only if memory runs out. O((n + m) log n), for n names and
/// m dependencies.
pub fn edges(alloc: Global, loaded: &Loaded) -> Result<Edges, AllocError>
    ensures edges { IfOk result (AreEdges loaded.now) }
{
    let table = EdgeTable::of(alloc, loaded)?;
    let units = unit_lists(alloc, loaded, &table)?;
    Ok(Edges::new(units, table))
}

// For each name the edges from it, kind by kind, by name.
fn unit_lists(
    alloc: Global,
    loaded: &Loaded,
    table: &EdgeTable,
) -> Result<Vec<(UnitName, Items<Items<UnitName>>)>, AllocError>
    requires table { IsEdgeTable loaded.now table.now }
    ensures edges { IfOk result (λ units. AreEdges loaded.now units.items) }
    ensures kept { IfOk result (λ units. AreKept units.items table.now) }
{
    let names = loaded.names();
    let mut units = Vec::with_capacity(alloc, names.len())?;
    for (index, (name, _)) in names.iter().enumerate() {
        let name = name.try_clone()?;
        units.push((name, lists_at(alloc, loaded, table, index)?))?;
    }
    Ok(units)
}

// The edges from a unit, kind by kind, by name. Indices in ascending order have names in ascending order.
fn lists_at(
    alloc: Global,
    loaded: &Loaded,
    table: &EdgeTable,
    index: usize,
) -> Result<Items<Items<UnitName>>, AllocError>
    requires table { IsEdgeTable loaded.now table.now }
    requires index { index < count_of loaded.now }
    ensures lists { IfOk result
        (λ lists. lists ≡ lists_from (keys_of loaded.now.names) table.now index) }
{
    let kinds = DepKind::all();
    let mut lists = Vec::with_capacity(alloc, kinds.len())?;
    for kind in kinds {
        let names = names_at(alloc, loaded, table.adjacency(*kind).neighbors(index))?;
        lists.push(Items::from_vec(names))?;
    }
    Ok(Items::from_vec(lists))
}
