//! The nodes that are reached from sources.
ghost use Rattle.std.specs.{Prelude.{◌≡◌, ◌<◌, ◌↔◌, ℕ, length, All, IfOk}, Ordering.{nat_cmp}};
ghost use Rattle.name_closure.specs.{Chains.{IsReached, IsClosure}, ListedLaws.{Listed, Named}};
ghost use Rattle.index_rows.specs.{Adjacency.{IsMember}, Successors.{AreSuccessorsOf, LeadsInside, LeadsOn, successors_from}};

use crate::bits::{empty_bits, full_bits, members_of, spread};
use crate::successors::Successors;
use std::alloc::{AllocError, Global};

/// Returns the bit set of the nodes that are reached from the sources. It goes on from members of `going` alone: along
/// firm edges to any node, and along weak edges to members of `inside`. The sources needn't be members. O(n + m), for n
/// nodes, and m sources and edges from what is reached.
pub fn reached_on(
    alloc: Global,
    firm: &Successors,
    weak: &Successors,
    inside: &[bool],
    going: &[bool],
    sources: &[usize],
) -> Result<Vec<bool>, AllocError>
    requires firm { AreSuccessorsOf (length going.now) firm.now }
    requires weak { AreSuccessorsOf (length going.now) weak.now }
    requires inside { length inside.now ≡ length going.now }
    requires sources { All (λ v. v < length going.now) sources.now }
    ensures units { IfOk result (λ bits. length bits.items ≡ length going.now) }
    ensures reached { IfOk result (λ bits. (v : ℕ) → IsMember bits.items v
        ↔ IsReached (Listed sources.now) (LeadsOn firm.now weak.now inside.now going.now) v) }
{
    let all = full_bits(alloc, going.len())?;
    let mut seen = empty_bits(alloc, going.len())?;
    let mut todo = Vec::new(alloc);
    spread(&mut seen, &mut todo, sources)?;
    while let Some(node) = todo.pop() {
        if !going[node] {
            continue;
        }
        firm.spread(&mut seen, &mut todo, &all, node)?;
        weak.spread(&mut seen, &mut todo, inside, node)?;
    }
    Ok(seen)
}

/// Returns the bit set of the nodes that are reached from the sources along edges to members of `inside`. The sources
/// needn't be members. O(n + m), for n nodes, and m sources and edges from what is reached.
pub fn reached_inside(
    alloc: Global,
    successors: &Successors,
    inside: &[bool],
    sources: &[usize],
) -> Result<Vec<bool>, AllocError>
    requires successors { AreSuccessorsOf (length inside.now) successors.now }
    requires sources { All (λ v. v < length inside.now) sources.now }
    ensures units { IfOk result (λ bits. length bits.items ≡ length inside.now) }
    ensures reached { IfOk result (λ bits. (v : ℕ) → IsMember bits.items v
        ↔ IsReached (Listed sources.now) (LeadsInside inside.now successors.now) v) }
{
    let all = full_bits(alloc, inside.len())?;
    let none = Successors::new(alloc);
    reached_on(alloc, &none, successors, inside, &all, sources)
}

/// Returns the bit set of those of `count` nodes that are reached from the sources. O(n + m), for n nodes, and m
/// sources and edges from what is reached.
pub fn reached(
    alloc: Global,
    count: usize,
    successors: &Successors,
    sources: &[usize],
) -> Result<Vec<bool>, AllocError>
    requires successors { AreSuccessorsOf count successors.now }
    requires sources { All (λ v. v < count) sources.now }
    ensures units { IfOk result (λ bits. length bits.items ≡ count) }
    ensures reached { IfOk result (λ bits. (v : ℕ) → IsMember bits.items v
        ↔ IsReached (Listed sources.now) (Named (successors_from successors.now)) v) }
{
    let all = full_bits(alloc, count)?;
    let none = Successors::new(alloc);
    reached_on(alloc, successors, &none, &all, &all, sources)
}

/// Returns those of `count` nodes that are reached from the sources, in ascending order. O(n + m), for n nodes, and m
/// sources and edges from what is reached.
pub fn closure(
    alloc: Global,
    count: usize,
    successors: &Successors,
    sources: &[usize],
) -> Result<Vec<usize>, AllocError>
    requires successors { AreSuccessorsOf count successors.now }
    requires sources { All (λ v. v < count) sources.now }
    ensures { IfOk result
        (λ nodes. IsClosure (Listed sources.now)
        (Named (successors_from successors.now)) nat_cmp nodes.items) }
{
    let bits = reached(alloc, count, successors, sources)?;
    members_of(alloc, &bits)
}
