//! The edges of a load by index: adjacency lists for each kind of dependency.
ghost use Rattle.std.specs.Prelude.{◌≡◌, IfOk, length, OnOk};
ghost use Rattle.inverse_deps.specs.{EdgeAdjacency.{adjacency_at}, Links.{links_in}, MakingLaws.{AreMade}, Tables.{AreIndicesBy, IsEdgeTable, IsKindList}};

use crate::links::links_of;
use crate::rows::rows_of;
use index_rows::{AdjacencyLists, put_in_order};
use parallel_load::{Dependency, Loaded};
use setting_rules::DepKind;
use std::alloc::{AllocError, Global};
use std::marker::Model;

/// The edges between the units of a load by index, in both directions: for each kind of dependency the adjacency lists
/// of its edges. Names are indexed in byte order; each list is in ascending order without repeats, and empty for a name
/// without a unit. Contracts see the adjacency lists of each kind, in the order of the kinds.
#[derive(Debug)]
pub struct EdgeTable {
    by_kind: Vec<AdjacencyLists>,
}

impl Drop for EdgeTable {
    fn drop(self) {
        let EdgeTable { by_kind: _ } = self;
    }
}

impl Model for EdgeTable {
    ghost use Rattle.std.specs.Prelude.{length, List, ℕ, ◌≡◌};
    ghost use Rattle.setting_rules.specs.Kinds.{kinds};

    ghost Value = { List (List (List ℕ)) };

    ghost view = { λ t. t.by_kind.items };

    ghost invariant = { λ t. length t.by_kind.items ≡ length kinds };
}

impl EdgeTable {
    /// Returns the edges of a load. Fails only if memory runs out. O(n + m log k), for n names and m dependencies, where
    /// no unit has more than k edges; for a manager O((n + m) log n), where the mounts of units count too.
    pub fn of(alloc: Global, loaded: &Loaded) -> Result<EdgeTable, AllocError>
        ensures table { IfOk result (IsEdgeTable loaded.now) }
    {
        let rows = rows_of(alloc, loaded)?;
        let links = links_of(alloc, &rows)?;
        let all = DepKind::all();
        let mut by_kind = Vec::with_capacity(alloc, all.len())?;
        for kind in all {
            by_kind.push(adjacency_by(alloc, &links, *kind)?)?;
        }
        Ok(EdgeTable { by_kind })
    }

    /// Returns the adjacency lists of a kind. Allocates nothing.
    pub fn adjacency(&self, kind: DepKind) -> &AdjacencyLists
        ensures adjacency { result.now ≡ adjacency_at self.now kind }
    {
        &self.by_kind[kind as usize]
    }
}

// The adjacency lists of the edges of a kind.
pub(crate) fn adjacency_by(
    alloc: Global,
    links: &[Vec<Dependency>],
    kind: DepKind,
) -> Result<AdjacencyLists, AllocError>
    ensures lists { IfOk result
        (AreMade (IsKindList (links_in links.now) kind) (length links.now)) }
{
    let mut adjacency = AdjacencyLists::with_capacity(alloc, links.len())?;
    let mut indices = Vec::new(alloc);
    for deps in links {
        indices_by(&mut indices, deps, kind)?;
        put_in_order(&mut indices);
        adjacency.push(&indices)?;
    }
    Ok(adjacency)
}

// Puts the indices of the dependencies of a kind in place of these indices.
fn indices_by(
    indices: &mut Vec<usize>,
    deps: &[Dependency],
    kind: DepKind,
) -> Result<(), AllocError>
    ensures indices { OnOk result (AreIndicesBy deps.now kind indices.new.items) }
{
    indices.clear();
    for dep in deps {
        if dep.kind == kind {
            indices.push(dep.index)?;
        }
    }
    Ok(())
}
