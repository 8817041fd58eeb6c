//! How many predecessors each node still waits for.
ghost use Rattle.std.specs.Prelude.{◌≡◌, ◌<◌, ◌≤◌, ℕ, slice_index, length, All, IfOk, OnOk};
ghost use Rattle.index_rows.specs.Adjacency.{AllBelow, times, neighbors as neighbors_of};
ghost use Rattle.start_order.specs.Counts.{waiting as waiting_of, IsLowered};

use crate::free::Free;
use index_rows::AdjacencyLists;
use std::alloc::{AllocError, Global};

// The number of chosen nodes in `nodes` that aren't started yet.
fn waiting(chosen: &[bool], standing: &[bool], nodes: &[usize]) -> usize
    requires bits { length standing.now ≡ length chosen.now }
    requires nodes { All (λ v. v < length chosen.now) nodes.now }
    ensures { result ≡ waiting_of chosen.now standing.now nodes.now }
{
    let mut count = 0;
    for other in nodes {
        if chosen[*other] && !standing[*other] {
            count += 1;
        }
    }
    count
}

// For each node, the number of chosen nodes before it that aren't started yet.
pub(crate) fn counts_of(
    alloc: Global,
    chosen: &[bool],
    standing: &[bool],
    before: &AdjacencyLists,
) -> Result<Vec<usize>, AllocError>
    requires units { length before.now ≡ length chosen.now }
    requires bits { length standing.now ≡ length chosen.now }
    requires adjacency { AllBelow (length chosen.now) before.now }
    ensures units { IfOk result (λ counts. length counts.items ≡ length chosen.now) }
    ensures counts { IfOk result
        (λ counts. (v : ℕ) → v < length chosen.now → slice_index counts.items v
        ≡ waiting_of chosen.now standing.now (neighbors_of before.now v)) }
{
    let mut counts = Vec::new(alloc);
    for node in 0..chosen.len() {
        counts.push(waiting(chosen, standing, before.neighbors(node)))?;
    }
    Ok(counts)
}

// Decrements the counts of the nodes in `nodes`, and adds the chosen ones whose counts become 0 to `free`.
pub(crate) fn lower(
    chosen: &[bool],
    counts: &mut Vec<usize>,
    free: &mut Free,
    nodes: &[usize],
) -> Result<(), AllocError>
    requires units { length counts.old.items ≡ length chosen.now }
    requires nodes { All (λ v. v < length chosen.now) nodes.now }
    requires enough { (v : ℕ) → times v nodes.now ≤ slice_index counts.old.items v }
    ensures { OnOk result (IsLowered chosen.now nodes.now counts.old.items counts.new.items free.old
        free.new) }
{
    for other in nodes {
        let count = counts[*other] - 1;
        counts[*other] = count;
        if chosen[*other] && count == 0 {
            free.add(*other)?;
        }
    }
    Ok(())
}
