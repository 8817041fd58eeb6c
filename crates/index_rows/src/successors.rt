//! Edges of one or more kinds.
ghost use Rattle.std.specs.Prelude.{◌≡◌, ◌<◌, ◌++◌, ◌∷◌, [], ℕ, length, IfOk, OnOk, MatchOption};
ghost use Rattle.index_rows.specs.{Least.{IsLeast}, Adjacency.{IsMember}, Spreads.{IsSpread}, Successors.{AreSuccessorsOf, successors_from, successors_inside}};
ghost use Rattle.index_rows.specs.Words.{IsAmong, nat_cmp};

use crate::adjacency::AdjacencyLists;
use crate::bits::{least_member, lesser, spread_inside};
use std::alloc::{AllocError, Global};
use std::marker::Model;

/// Edges between nodes, of one or more kinds. Each kind has its own adjacency lists, which are borrowed.
pub struct Successors<'a> {
    kinds: Vec<&'a AdjacencyLists>,
}

impl<'a> Drop for Successors<'a> {
    fn drop(self) {
        let Successors { kinds: _ } = self;
    }
}

impl<'a> Model for Successors<'a> {
    ghost use Rattle.std.specs.Prelude.{ℕ, List, map};

    ghost Value = { List (List (List ℕ)) };

    ghost view = { λ s. map (λ adjacency. adjacency.now) s.kinds.items };
}

impl<'a> Successors<'a> {
    /// Returns a graph without edges.
    pub fn new(alloc: Global) -> Successors<'a>
        ensures none { result ≡ [] }
    {
        Successors {
            kinds: Vec::new(alloc),
        }
    }

    /// Adds the edges of one more kind.
    pub fn push(&mut self, adjacency: &'a AdjacencyLists) -> Result<(), AllocError>
        ensures added { OnOk result (self.new ≡ self.old ++ adjacency.now ∷ []) }
    {
        self.kinds.push(adjacency)?;
        Ok(())
    }

    /// Returns the edges of both.
    pub fn both(
        alloc: Global,
        first: &Successors<'a>,
        second: &Successors<'a>,
    ) -> Result<Successors<'a>, AllocError>
        ensures both { IfOk result (λ successors. successors ≡ first.now ++ second.now) }
    {
        let mut kinds = Vec::from_slice(alloc, &first.kinds)?;
        kinds.extend_from_slice(&second.kinds)?;
        Ok(Successors { kinds })
    }

    /// Returns the least successor of a node that is a member of the set. Linear in the node's edges; allocates
    /// nothing.
    pub fn least_member(&self, node: usize, bits: &[bool]) -> Option<usize>
        requires successors { AreSuccessorsOf (length bits.now) self.now }
        requires node { node < length bits.now }
        ensures least { MatchOption result
            ((v : ℕ) → IsAmong v (successors_from self.now node) → ¬ IsMember bits.now v)
            (IsLeast nat_cmp
            (λ v. IsAmong v (successors_from self.now node) × IsMember bits.now v)) }
    {
        let mut least = None;
        for adjacency in &self.kinds {
            least = lesser(least, least_member(adjacency.neighbors(node), bits));
        }
        least
    }

    // Adds those successors of a node that are in `inside` to `seen`, and appends to `noted` those that weren't in it.
    pub(crate) fn spread(
        &self,
        seen: &mut Vec<bool>,
        noted: &mut Vec<usize>,
        inside: &[bool],
        node: usize,
    ) -> Result<(), AllocError>
        requires successors { AreSuccessorsOf (length seen.old.items) self.now }
        requires inside { length inside.now ≡ length seen.old.items }
        requires node { node < length seen.old.items }
        ensures spread { OnOk result
            (IsSpread seen.old.items seen.new.items noted.old.items noted.new.items
            (successors_inside inside.now self.now node)) }
    {
        for adjacency in &self.kinds {
            spread_inside(seen, noted, inside, adjacency.neighbors(node))?;
        }
        Ok(())
    }
}
