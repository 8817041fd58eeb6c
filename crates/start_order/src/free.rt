//! The nodes that can start.
ghost use Rattle.std.specs.Prelude.{◌≡◌, ◌≤◌, ◌<◌, ◌↔◌, ◌⊎◌, ℕ, slice_index, length, IfOk, OnOk, IsTrue, MatchOption};
ghost use Rattle.std.specs.{List.Sorted.{IsStrictlySortedBy}, Ordering.{nat_cmp}};
ghost use Rattle.list_laws.specs.Members.{IsAmong};
ghost use Rattle.index_rows.specs.Adjacency.{IsMember};
ghost use Rattle.start_order.specs.Counts.{IsLeastIn};

use index_rows::{lesser, members_of};
use std::alloc::{AllocError, Global};
use std::collections::{BTreeSet, VecDeque};
use std::marker::Model;

/// Nodes that can start: those that could from the beginning, in ascending order, and those that were added later. Only
/// the latter need a tree.
pub struct Free {
    first: VecDeque<usize>,
    later: BTreeSet<usize>,
}

impl Drop for Free {
    fn drop(self) {
        let Free { first: _, later: _ } = self;
    }
}

impl Model for Free {
    ghost use Rattle.std.specs.{Prelude.{◌++◌, ℕ, List}, List.Sorted.{IsStrictlySortedBy}, Ordering.{nat_cmp}};

    ghost Value = { List ℕ };

    ghost view = { λ f. f.first.items ++ f.later.keys };

    ghost invariant = { λ f. IsStrictlySortedBy nat_cmp f.first.items };
}

impl Free {
    /// Returns the members of a set. O(n).
    pub fn of(alloc: Global, bits: &[bool]) -> Result<Free, AllocError>
        ensures free { IfOk result (λ free. (v : ℕ) → IsAmong v free ↔ IsMember bits.now v) }
    {
        let first = VecDeque::from(members_of(alloc, bits)?);
        let later = BTreeSet::new(alloc);
        Ok(Free { first, later })
    }

    /// Adds a node. O(log n).
    pub fn add(&mut self, node: usize) -> Result<(), AllocError>
        ensures added { OnOk result
            ((v : ℕ) → IsAmong v self.new ↔ (IsAmong v self.old ⊎ (node ≡ v))) }
    {
        self.later.insert(node)?;
        Ok(())
    }

    /// Removes the least node and returns it. O(log n).
    pub fn take_least(&mut self) -> Option<usize>
        ensures least { MatchOption result ((v : ℕ) → ¬ IsAmong v self.old) (IsLeastIn self.old) }
        ensures rest { MatchOption result ((v : ℕ) → ¬ IsAmong v self.new)
            (λ u. (v : ℕ) → IsAmong v self.new ↔ (IsAmong v self.old × ¬ (u ≡ v))) }
    {
        let least = lesser(prefix_of(&self.first), first_of(&self.later))?;
        drop_prefix(&mut self.first, least);
        drop_first(&mut self.later, least);
        Some(least)
    }
}

// The least of nodes in ascending order.
fn prefix_of(nodes: &VecDeque<usize>) -> Option<usize>
    requires { IsStrictlySortedBy nat_cmp nodes.now.items }
    ensures { MatchOption result ((v : ℕ) → ¬ IsAmong v nodes.now.items)
        (IsLeastIn nodes.now.items) }
{
    match nodes.front() {
        Some(node) => Some(*node),
        None => None,
    }
}

// The least node of a tree.
fn first_of(nodes: &BTreeSet<usize>) -> Option<usize>
    ensures { MatchOption result ((v : ℕ) → ¬ IsAmong v nodes.now.keys) (IsLeastIn nodes.now.keys) }
{
    match nodes.first() {
        Some(node) => Some(*node),
        None => None,
    }
}

// Removes a node from nodes in ascending order, none of which is less than it.
fn drop_prefix(nodes: &mut VecDeque<usize>, node: usize)
    requires ascending { IsStrictlySortedBy nat_cmp nodes.old.items }
    requires least { (v : ℕ) → IsAmong v nodes.old.items → node ≤ v }
    ensures ascending { IsStrictlySortedBy nat_cmp nodes.new.items }
    ensures rest { (v : ℕ) → IsAmong v nodes.new.items
        ↔ (IsAmong v nodes.old.items × ¬ (node ≡ v)) }
{
    if let Some(prefix) = prefix_of(nodes) {
        if prefix == node {
            nodes.pop_front();
        }
    }
}

// Removes a node from a tree in which none is less.
fn drop_first(nodes: &mut BTreeSet<usize>, node: usize)
    requires least { (v : ℕ) → IsAmong v nodes.old.keys → node ≤ v }
    ensures rest { (v : ℕ) → IsAmong v nodes.new.keys ↔ (IsAmong v nodes.old.keys × ¬ (node ≡ v)) }
{
    if let Some(first) = first_of(nodes) {
        if first == node {
            nodes.pop_first();
        }
    }
}

// The set of the chosen nodes whose counts are 0.
pub(crate) fn ready(
    alloc: Global,
    chosen: &[bool],
    counts: &[usize],
) -> Result<Vec<bool>, AllocError>
    requires { length counts.now ≡ length chosen.now }
    ensures { IfOk result (λ bits. (v : ℕ) → IsMember bits.items v
        ↔ (IsMember chosen.now v × (slice_index counts.now v ≡ 0))) }
{
    let mut bits = Vec::new(alloc);
    for (node, is_chosen) in chosen.iter().enumerate() {
        bits.push(*is_chosen && counts[node] == 0)?;
    }
    Ok(bits)
}
