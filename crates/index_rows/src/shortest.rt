//! Least distances from sources.
ghost use Rattle.std.specs.{Prelude.{◌≡◌, ◌<◌, ◌++◌, [], length, flat_map, map, replicate, true, All, IfOk, OnOk}, Ordering.{nat_cmp}};
ghost use Rattle.name_closure.specs.{Chains.{IsDistances}, ListedLaws.{Listed, Named}};
ghost use Rattle.index_rows.specs.{Spreads.{IsSpread}, Successors.{AreSuccessorsOf, successors_from}};

use crate::adjacency::put_in_order;
use crate::bits::{empty_bits, full_bits, spread};
use crate::successors::Successors;
use std::alloc::{AllocError, Global};

// Adds the successors of the nodes of a level to `seen`, and returns those that weren't in it. `all` is the set of all
// nodes.
fn next_level(
    alloc: Global,
    seen: &mut Vec<bool>,
    successors: &Successors,
    all: &[bool],
    level: &[usize],
) -> Result<Vec<usize>, AllocError>
    requires all { all.now ≡ replicate (length seen.old.items) true }
    requires successors { AreSuccessorsOf (length seen.old.items) successors.now }
    requires level { All (λ v. v < length seen.old.items) level.now }
    ensures { IfOk result (λ next. IsSpread seen.old.items seen.new.items [] next.items
        (flat_map (successors_from successors.now) level.now)) }
{
    let mut next = Vec::new(alloc);
    for node in level {
        successors.spread(seen, &mut next, all, *node)?;
    }
    Ok(next)
}

// Appends the nodes of a level with their distance.
fn push_level(
    pairs: &mut Vec<(usize, usize)>,
    distance: usize,
    level: &[usize],
) -> Result<(), AllocError>
    ensures { OnOk result
        (pairs.new.items ≡ pairs.old.items ++ map (λ v. (distance, v)) level.now) }
{
    for node in level {
        pairs.push((distance, *node))?;
    }
    Ok(())
}

/// Returns those of `count` nodes that are reached from the sources, each with its least distance, ordered by distance
/// and then by node. O(n log n + m), for n nodes, and m sources and edges from what is reached.
pub fn distances(
    alloc: Global,
    count: usize,
    successors: &Successors,
    sources: &[usize],
) -> Result<Vec<(usize, usize)>, AllocError>
    requires successors { AreSuccessorsOf count successors.now }
    requires sources { All (λ v. v < count) sources.now }
    ensures { IfOk result
        (λ pairs. IsDistances (Listed sources.now)
        (Named (successors_from successors.now)) nat_cmp pairs.items) }
{
    let all = full_bits(alloc, count)?;
    let mut seen = empty_bits(alloc, count)?;
    let mut pairs = Vec::new(alloc);
    let mut level = Vec::new(alloc);
    spread(&mut seen, &mut level, sources)?;
    let mut distance = 0;
    while !level.is_empty() {
        put_in_order(&mut level);
        push_level(&mut pairs, distance, &level)?;
        level = next_level(alloc, &mut seen, successors, &all, &level)?;
        distance += 1;
    }
    Ok(pairs)
}
