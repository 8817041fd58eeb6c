//! The edges of one unit: what it names, and what names it by the inverse.
ghost use Rattle.std.specs.{List.{All}, Prelude.{[], IfOk, map, ◌<◌, ◌≡◌}};
ghost use Rattle.setting_rules.specs.Kinds.{kinds};
ghost use Rattle.inverse_deps.specs.{Edges.{AreEdgesOf}, Indices.{count_of, name_at}, Tables.{IsEdgeTable}};

use crate::edge_table::EdgeTable;
use crate::indices::{index_of, names_at};
use parallel_load::Loaded;
use plain_values::Items;
use setting_rules::{DepKind, DependencyList};
use std::alloc::{AllocError, Global};
use unit_name::UnitName;

/// Returns the edges from the unit with this main name: for each kind, in the order of the kinds, the units to which
/// edges of it lead, in byte order. All lists are empty for a name without a unit. Fails only if memory runs out. Costs a
/// search for the name, and the lists.
pub fn edges_of(
    alloc: Global,
    loaded: &Loaded,
    table: &EdgeTable,
    name: &UnitName,
) -> Result<Items<DependencyList>, AllocError>
    requires table { IsEdgeTable loaded.now table.now }
    ensures lists { IfOk result (AreEdgesOf loaded.now name.now) }
{
    match index_of(loaded, name) {
        Some(index) => edges_at(alloc, loaded, table, index),
        None => no_edges(alloc),
    }
}

/// Returns the same for the name with this index. Costs only the lists.
pub fn edges_at(
    alloc: Global,
    loaded: &Loaded,
    table: &EdgeTable,
    index: usize,
) -> Result<Items<DependencyList>, AllocError>
    requires table { IsEdgeTable loaded.now table.now }
    requires index { index < count_of loaded.now }
    ensures lists { IfOk result (AreEdgesOf loaded.now (name_at loaded.now index)) }
{
    let kinds = DepKind::all();
    let mut lists = Vec::with_capacity(alloc, kinds.len())?;
    for kind in kinds {
        let names = names_at(alloc, loaded, table.adjacency(*kind).neighbors(index))?;
        lists.push(DependencyList {
            kind: *kind,
            names: Items::from_vec(names),
        })?;
    }
    Ok(Items::from_vec(lists))
}

// An empty list for each kind.
fn no_edges(alloc: Global) -> Result<Items<DependencyList>, AllocError>
    ensures kinds { IfOk result (λ lists. map (λ list. list.kind) lists ≡ kinds) }
    ensures none { IfOk result (All (λ list. list.names ≡ [])) }
{
    let kinds = DepKind::all();
    let mut lists = Vec::with_capacity(alloc, kinds.len())?;
    for kind in kinds {
        lists.push(DependencyList {
            kind: *kind,
            names: Items::new(alloc),
        })?;
    }
    Ok(Items::from_vec(lists))
}
