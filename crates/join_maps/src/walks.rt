//! Walks over all pairs in chunks: copying, comparing, and borrowing the keys.
ghost use Rattle.std.specs.Prelude.{◌≡◌, ◌↔◌, IsTrue, IfOk, map};

use crate::maps::JoinMap;
use chunked_pairs::Chunks;
use join_law::Join;
use plain_values::Key;
use std::alloc::{AllocError, Global};

// Returns a copy of the runs, each of exact capacity.
pub fn copy_chunks<K: Key, V: Join>(chunks: &Chunks<K, V>) -> Result<Chunks<K, V>, AllocError>
    ensures copy { IfOk result (λ copy. copy ≡ chunks.now) }
{
    let alloc = chunks.allocator();
    let mut copy = Chunks::of_run(copy_pairs(alloc, chunks.run(0))?);
    for at in 0..chunks.last_run() {
        let run = copy_pairs(alloc, chunks.run(at + 1))?;
        copy.add_run(chunks.separator(at).try_clone()?, run)?;
    }
    Ok(copy)
}

// Returns a copy of the pairs.
fn copy_pairs<K: Key, V: Join>(alloc: Global, pairs: &[(K, V)]) -> Result<Vec<(K, V)>, AllocError>
    ensures copy { IfOk result (λ copy. copy.items ≡ pairs.now) }
{
    let mut copy = Vec::with_capacity(alloc, pairs.len())?;
    for pair in pairs {
        copy.push(copy_pair(pair)?)?;
    }
    Ok(copy)
}

// Returns a copy of a pair.
pub fn copy_pair<K: Key, V: Join>(pair: &(K, V)) -> Result<(K, V), AllocError>
    ensures copy { IfOk result (λ copy. copy ≡ pair.now) }
{
    Ok((pair.0.try_clone()?, pair.1.try_clone()?))
}

// Returns whether all pairs are equal, however they stand in runs.
pub fn same_maps<K: Key, V: Join>(left: &JoinMap<K, V>, right: &JoinMap<K, V>) -> bool
    ensures same { IsTrue result ↔ (left.now ≡ right.now) }
{
    let mut pairs = left.pairs();
    let mut others = right.pairs();
    while let Some(pair) = pairs.next() {
        let Some(other) = others.next() else {
            return false;
        };
        if !same_pair(pair, other) {
            return false;
        }
    }
    match others.next() {
        Some(_) => false,
        None => true,
    }
}

// Returns whether two pairs are equal.
fn same_pair<K: Key, V: Join>(left: &(K, V), right: &(K, V)) -> bool
    ensures same { IsTrue result ↔ (left.now ≡ right.now) }
{
    left.0.cmp(&right.0).is_eq() && left.1.same(&right.1)
}

// Borrows the keys of the pairs, in order.
pub fn keys_of<K: Key, V: Join>(all: &JoinMap<K, V>) -> Result<Vec<&K>, AllocError>
    ensures keys { IfOk result
        (λ keys. map (λ k. k.now) keys.items ≡ map (λ pair. pair.0) all.now) }
{
    let mut keys = Vec::with_capacity(all.allocator(), all.len())?;
    let mut pairs = all.pairs();
    while let Some(pair) = pairs.next() {
        keys.push(&pair.0)?;
    }
    Ok(keys)
}
