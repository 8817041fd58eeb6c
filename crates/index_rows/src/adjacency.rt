//! Edges as adjacency lists.
ghost use Rattle.std.specs.{List.{slice_range}, Ordering.{nat_cmp}, Prelude.{[], IfOk, length, OnOk, ℕ, ◌++◌, ◌<◌, ◌↔◌, ◌∷◌, ◌≡◌, ◌≤◌}};
ghost use Rattle.index_rows.specs.{Adjacency.{neighbors as neighbors_of}, Compressed.{start_at}, Words.{IsAmong, IsStrictlySortedBy}};

use std::alloc::{AllocError, Global};
use std::marker::Model;

/// Adjacency lists of the nodes from 0 on: for each node those to which an edge leads from it. All are in one vector,
/// one after another. Contracts see the list of each node.
#[derive(Debug)]
pub struct AdjacencyLists {
    // Where each list ends among the targets. It begins where the one before it ends.
    ends: Vec<usize>,
    targets: Vec<usize>,
}

impl Drop for AdjacencyLists {
    fn drop(self) {
        let AdjacencyLists {
            ends: _,
            targets: _,
        } = self;
    }
}

impl Model for AdjacencyLists {
    ghost use Rattle.std.specs.Prelude.{length, List, ℕ};
    ghost use Rattle.index_rows.specs.Compressed.{AreEnds, cut};

    ghost Value = { List (List ℕ) };

    ghost view = { λ a. cut 0 a.ends.items a.targets.items };

    ghost invariant = { λ a. AreEnds 0 a.ends.items (length a.targets.items) };
}

impl AdjacencyLists {
    /// Returns no lists, with room for those of this many nodes. Fails only if memory runs out.
    pub fn with_capacity(alloc: Global, count: usize) -> Result<AdjacencyLists, AllocError>
        ensures none { IfOk result (λ adjacency. adjacency ≡ []) }
    {
        Ok(AdjacencyLists {
            ends: Vec::with_capacity(alloc, count)?,
            targets: Vec::new(alloc),
        })
    }

    /// Adds the list of the next node. Fails only if memory runs out.
    pub fn push(&mut self, nodes: &[usize]) -> Result<(), AllocError>
        ensures added { OnOk result (self.new ≡ self.old ++ nodes.now ∷ []) }
    {
        self.ends.reserve(1)?;
        self.targets.extend_from_slice(nodes)?;
        self.ends.push(self.targets.len())?;
        Ok(())
    }

    /// Returns the adjacency list of a node. O(1); allocates nothing.
    pub fn neighbors(&self, node: usize) -> &[usize]
        requires { node < length self.now }
        ensures { result.now ≡ neighbors_of self.now node }
    {
        let ends = self.ends.as_slice();
        let start = start_of(ends, node);
        between(&self.targets, start, ends[node])
    }
}

// Where the list of a node begins.
fn start_of(ends: &[usize], node: usize) -> usize
    requires { node < length ends.now }
    ensures { result ≡ start_at 0 ends.now node }
{
    if node == 0 { 0 } else { ends[node - 1] }
}

// The targets from one position up to another.
fn between(targets: &[usize], start: usize, end: usize) -> &[usize]
    requires ordered { start ≤ end }
    requires within { end ≤ length targets.now }
    ensures { result.now ≡ slice_range targets.now start end }
{
    &targets[start..end]
}

/// Sorts the nodes and removes repeats. O(k log k) for k nodes, linear if they are in order already. Allocates nothing.
pub fn put_in_order(nodes: &mut Vec<usize>)
    ensures ascending { IsStrictlySortedBy nat_cmp nodes.new.items }
    ensures members { (v : ℕ) → IsAmong v nodes.new.items ↔ IsAmong v nodes.old.items }
    ensures bound { length nodes.new.items ≤ length nodes.old.items }
{
    nodes.sort_unstable();
    nodes.dedup();
}
