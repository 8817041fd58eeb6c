//! The cycle that is found by following the least stuck node back.
ghost use Rattle.std.specs.{Prelude.{◌≡◌, ◌<◌, ◌≤◌, ℕ, slice_index, length, IfOk}, Ordering.{nat_cmp}};
ghost use Rattle.list_laws.specs.Members.{IsAmong};
ghost use Rattle.index_rows.specs.{Adjacency.{IsMember, AllBelow}, Least.{IsLeast}};
ghost use Rattle.start_order.specs.{StartOrder.{IsBlocker, IsCycle}, Precedes.{Precedes}, Walks.{IsWalk}};

use index_rows::{AdjacencyLists, empty_bits, least_member};
use std::alloc::{AllocError, Global};

// The least stuck node before a stuck one.
fn blocker(stuck: &[bool], before: &AdjacencyLists, node: usize) -> usize
    requires units { length before.now ≡ length stuck.now }
    requires adjacency { AllBelow (length stuck.now) before.now }
    requires node { node < length stuck.now }
    requires blocked { (v : ℕ) × (IsMember stuck.now v × Precedes before.now v node) }
    ensures { IsBlocker nat_cmp (IsMember stuck.now) (Precedes before.now) result node }
{
    least_member(before.neighbors(node), stuck).unwrap()
}

// Walks from the least stuck node, from each node to the least stuck node before it, until it meets a node again.
// Returns the nodes that it met, and the one that it met twice.
fn walk(
    alloc: Global,
    stuck: &[bool],
    before: &AdjacencyLists,
    start: usize,
) -> Result<(Vec<usize>, usize), AllocError>
    requires units { length before.now ≡ length stuck.now }
    requires adjacency { AllBelow (length stuck.now) before.now }
    requires start { IsLeast nat_cmp (IsMember stuck.now) start }
    requires blocked { (u : ℕ) → IsMember stuck.now u
        → (v : ℕ) × (IsMember stuck.now v × Precedes before.now v u) }
    ensures walk { IfOk result
        (λ r. IsWalk (IsMember stuck.now) (Precedes before.now) r.0.items r.1) }
    ensures met { IfOk result (λ r. IsAmong r.1 r.0.items) }
{
    let mut seen = empty_bits(alloc, stuck.len())?;
    let mut met = Vec::new(alloc);
    let mut next = start;
    while !seen[next] {
        met.push(next)?;
        seen[next] = true;
        next = blocker(stuck, before, next);
    }
    Ok((met, next))
}

// The first position of `node` in the list. It must be there.
fn position_of(list: &[usize], node: usize) -> usize
    requires { IsAmong node list.now }
    ensures within { result < length list.now }
    ensures at { slice_index list.now result ≡ node }
{
    for (i, other) in list.iter().enumerate() {
        if *other == node {
            return i;
        }
    }
    list.len()
}

// The position of the least number in a list.
fn least_at(list: &[usize]) -> usize
    requires { 0 < length list.now }
    ensures within { result < length list.now }
    ensures least { (k : ℕ) → k < length list.now
        → slice_index list.now result ≤ slice_index list.now k }
{
    let mut at = 0;
    for (i, node) in list.iter().enumerate() {
        if *node < list[at] {
            at = i;
        }
    }
    at
}

// The cycle that the walk from `start`, the least stuck node, ends in.
pub(crate) fn cycle_from(
    alloc: Global,
    stuck: &[bool],
    before: &AdjacencyLists,
    start: usize,
) -> Result<Vec<usize>, AllocError>
    requires units { length before.now ≡ length stuck.now }
    requires adjacency { AllBelow (length stuck.now) before.now }
    requires start { IsLeast nat_cmp (IsMember stuck.now) start }
    requires blocked { (u : ℕ) → IsMember stuck.now u
        → (v : ℕ) × (IsMember stuck.now v × Precedes before.now v u) }
    ensures { IfOk result
        (λ cycle. IsCycle nat_cmp (IsMember stuck.now) (Precedes before.now) cycle.items) }
{
    let (met, next) = walk(alloc, stuck, before, start)?;
    let (_, round) = met.split_at(position_of(&met, next));
    let mut ring = Vec::from_slice(alloc, round)?;
    ring.reverse();
    let first = least_at(&ring);
    ring.rotate_left(first);
    Ok(ring)
}
