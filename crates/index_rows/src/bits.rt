//! Bit sets of nodes.
ghost use Rattle.std.specs.Prelude.{◌≡◌, ◌<◌, ◌≤◌, ◌↔◌, ◌∷◌, [], ℕ, length, filter, replicate, false, true, All, MatchOption, IfOk, OnOk};
ghost use Rattle.index_rows.specs.{Least.{IsLeast}, Adjacency.{IsMember}, Spreads.{IsSpread, lesser_of}, Successors.{is_member}};
ghost use Rattle.index_rows.specs.Words.{IsAmong, IsStrictlySortedBy, nat_cmp};

use std::alloc::{AllocError, Global};

/// Returns the empty set over `count` nodes.
pub fn empty_bits(alloc: Global, count: usize) -> Result<Vec<bool>, AllocError>
    ensures none { IfOk result (λ bits. bits.items ≡ replicate count false) }
    ensures units { IfOk result (λ bits. length bits.items ≡ count) }
{
    vec![in alloc; false; count]
}

// The set of all of `count` nodes.
pub(crate) fn full_bits(alloc: Global, count: usize) -> Result<Vec<bool>, AllocError>
    ensures all { IfOk result (λ bits. bits.items ≡ replicate count true) }
    ensures units { IfOk result (λ bits. length bits.items ≡ count) }
{
    vec![in alloc; true; count]
}

/// Returns the members of the set, in ascending order. O(n).
pub fn members_of(alloc: Global, bits: &[bool]) -> Result<Vec<usize>, AllocError>
    ensures ascending { IfOk result (λ nodes. IsStrictlySortedBy nat_cmp nodes.items) }
    ensures members { IfOk result (λ nodes. (v : ℕ) → IsAmong v nodes.items ↔ IsMember bits.now v) }
{
    let mut nodes = Vec::new(alloc);
    for (node, is_member) in bits.iter().enumerate() {
        if *is_member {
            nodes.push(node)?;
        }
    }
    Ok(nodes)
}

/// Returns the complement of the set. O(n).
pub fn non_members(alloc: Global, bits: &[bool]) -> Result<Vec<bool>, AllocError>
    ensures units { IfOk result (λ others. length others.items ≡ length bits.now) }
    ensures others { IfOk result (λ others. (v : ℕ) → IsMember others.items v
        ↔ ((v < length bits.now) × ¬ IsMember bits.now v)) }
{
    let mut others = Vec::new(alloc);
    for is_member in bits {
        others.push(!*is_member)?;
    }
    Ok(others)
}

/// Returns the members of the first set that aren't in the second. O(n).
pub fn without(alloc: Global, bits: &[bool], others: &[bool]) -> Result<Vec<bool>, AllocError>
    requires { length others.now ≡ length bits.now }
    ensures units { IfOk result (λ left. length left.items ≡ length bits.now) }
    ensures left { IfOk result (λ left. (v : ℕ) → IsMember left.items v
        ↔ (IsMember bits.now v × ¬ IsMember others.now v)) }
{
    let mut left = Vec::new(alloc);
    for (node, is_member) in bits.iter().enumerate() {
        left.push(*is_member && !others[node])?;
    }
    Ok(left)
}

/// Returns the least member of the set. O(n).
pub fn first_member(bits: &[bool]) -> Option<usize>
    ensures { MatchOption result ((v : ℕ) → ¬ IsMember bits.now v)
        (IsLeast nat_cmp (IsMember bits.now)) }
{
    bits.iter().position(|is_member| *is_member)
}

/// Returns the least node of a list that is a member of the set. O(n) for a list of n nodes.
pub fn least_member(nodes: &[usize], bits: &[bool]) -> Option<usize>
    requires { All (λ v. v < length bits.now) nodes.now }
    ensures { MatchOption result ((v : ℕ) → IsAmong v nodes.now → ¬ IsMember bits.now v)
        (IsLeast nat_cmp (λ v. IsAmong v nodes.now × IsMember bits.now v)) }
{
    let mut least = bits.len();
    for node in nodes {
        if bits[*node] && *node < least {
            least = *node;
        }
    }
    if least < bits.len() {
        Some(least)
    } else {
        None
    }
}

/// Returns the lesser of two indices, each of which may be missing.
pub fn lesser(first: Option<usize>, second: Option<usize>) -> Option<usize>
    ensures { result ≡ lesser_of first second }
{
    match (first, second) {
        (Some(one), Some(other)) => Some(one.min(other)),
        (one, None) => one,
        (None, other) => other,
    }
}

// Adds the nodes to `seen`, and appends to `noted` those that weren't in it.
pub(crate) fn spread(
    seen: &mut Vec<bool>,
    noted: &mut Vec<usize>,
    nodes: &[usize],
) -> Result<(), AllocError>
    requires { All (λ v. v < length seen.old.items) nodes.now }
    ensures { OnOk result
        (IsSpread seen.old.items seen.new.items noted.old.items noted.new.items nodes.now) }
{
    for node in nodes {
        add_member(seen, noted, *node)?;
    }
    Ok(())
}

// Adds those of the nodes that are in `inside` to `seen`, and appends to `noted` those that weren't in it.
pub(crate) fn spread_inside(
    seen: &mut Vec<bool>,
    noted: &mut Vec<usize>,
    inside: &[bool],
    nodes: &[usize],
) -> Result<(), AllocError>
    requires nodes { All (λ v. v < length seen.old.items) nodes.now }
    requires inside { length inside.now ≡ length seen.old.items }
    ensures { OnOk result (IsSpread seen.old.items seen.new.items noted.old.items noted.new.items
        (filter (is_member inside.now) nodes.now)) }
{
    for node in nodes {
        if inside[*node] {
            add_member(seen, noted, *node)?;
        }
    }
    Ok(())
}

// Adds a node to `seen`, and appends it to `noted` if it wasn't in it.
fn add_member(seen: &mut Vec<bool>, noted: &mut Vec<usize>, node: usize) -> Result<(), AllocError>
    requires { node < length seen.old.items }
    ensures { OnOk result
        (IsSpread seen.old.items seen.new.items noted.old.items noted.new.items (node ∷ [])) }
{
    if !seen[node] {
        seen[node] = true;
        noted.push(node)?;
    }
    Ok(())
}
