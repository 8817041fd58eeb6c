//! The start list, or the cycle that prevents it.
ghost use Rattle.std.specs.{Prelude.{◌≡◌, ◌↔◌, ℕ, length, IfOk, IfErr}, Ordering.{nat_cmp}};
ghost use Rattle.list_laws.specs.Members.{IsAmong};
ghost use Rattle.index_rows.specs.Adjacency.{IsMember, AllBelow, AreAdjacencyOf, AreTransposed};
ghost use Rattle.start_order.specs.{StartOrder.{IsStartList, IsStuck, IsCycle}, Precedes.{Precedes}};

use crate::counts::{counts_of, lower};
use crate::cycles::cycle_from;
use crate::free::{Free, ready};
use index_rows::{AdjacencyLists, empty_bits, first_member, without};
use std::alloc::{AllocError, Global};

// Returns the start list, and the set of its nodes. `after` is the transposed graph of `before`.
fn listed(
    alloc: Global,
    chosen: &[bool],
    before: &AdjacencyLists,
    after: &AdjacencyLists,
) -> Result<(Vec<usize>, Vec<bool>), AllocError>
    requires before { AreAdjacencyOf (length chosen.now) before.now }
    requires after { AreAdjacencyOf (length chosen.now) after.now }
    requires transposed { AreTransposed before.now after.now }
    ensures list { IfOk result
        (λ r. IsStartList nat_cmp (IsMember chosen.now) (Precedes before.now) r.0.items) }
    ensures bits { IfOk result (λ r. (v : ℕ) → IsMember r.1.items v ↔ IsAmong v r.0.items) }
    ensures units { IfOk result (λ r. length r.1.items ≡ length chosen.now) }
{
    let mut standing = empty_bits(alloc, chosen.len())?;
    let mut counts = counts_of(alloc, chosen, &standing, before)?;
    let mut free = Free::of(alloc, &ready(alloc, chosen, &counts)?)?;
    let mut list = Vec::new(alloc);
    while let Some(node) = free.take_least() {
        list.push(node)?;
        standing[node] = true;
        lower(chosen, &mut counts, &mut free, after.neighbors(node))?;
    }
    Ok((list, standing))
}

/// Returns the order in which the chosen nodes start, or, if some are stuck, the cycle that is reported of them.
/// `before` has for each node the nodes before it, and `after` is the transposed graph.
///
/// O(n log n + m), for n nodes and m entries of the adjacency lists.
pub fn start_order(
    alloc: Global,
    chosen: &[bool],
    before: &AdjacencyLists,
    after: &AdjacencyLists,
) -> Result<Result<Vec<usize>, Vec<usize>>, AllocError>
    requires before { AreAdjacencyOf (length chosen.now) before.now }
    requires after { AreAdjacencyOf (length chosen.now) after.now }
    requires transposed { AreTransposed before.now after.now }
    ensures list { IfOk result
        (λ answer. IfOk answer
        (λ list. IsStartList nat_cmp (IsMember chosen.now) (Precedes before.now) list.items)) }
    ensures all { IfOk result
        (λ answer. IfOk answer (λ list. (u : ℕ) → IsMember chosen.now u → IsAmong u list.items)) }
    ensures none_stuck { IfOk result (λ answer. IfOk answer (λ _. (u : ℕ)
        → ¬ IsStuck (IsMember chosen.now) (Precedes before.now) u)) }
    ensures cycle { IfOk result (λ answer. IfErr answer (λ cycle. IsCycle nat_cmp
        (IsStuck (IsMember chosen.now) (Precedes before.now)) (Precedes before.now) cycle.items)) }
{
    let (list, standing) = listed(alloc, chosen, before, after)?;
    let left = without(alloc, chosen, &standing)?;
    match first_member(&left) {
        None => Ok(Ok(list)),
        Some(start) => Ok(Err(cycle_from(alloc, &left, before, start)?)),
    }
}
