//! The nodes that a round names and that aren't its own.
ghost use Rattle.std.specs.{Prelude.{◌↔◌, ◌++◌, All, IfOk, OnOk, IsTrue}, List.{flat_map}, List.Sorted.{IsStrictlySortedBy}, Map.{keys_of}};
ghost use Rattle.list_laws.specs.Members.{IsAmong};
ghost use Rattle.name_closure.specs.Loading.{AreApart, AreLoaded, AreOthers, IsRound};

use crate::loads::{Loads, Round, load_each};
use plain_values::Key;
use std::alloc::{AllocError, Global};

/// Loads a round on one thread. Returns each of its nodes with what is loaded for it, and the other nodes that are
/// named there, each once, in ascending order. Fails only if memory runs out. Besides the loads it costs
/// O(m log m + m log n), for n nodes of the round and m names in all.
pub(crate) fn load_round<K: Key, L: Loads<K>>(
    alloc: Global,
    loader: &L,
    fresh: Vec<K>,
) -> Result<Round<K, L::Loaded>, AllocError>
    requires nodes { All (L.is_node loader.now) fresh.items }
    ensures round { IfOk result
        (λ round. IsRound (L.is_node loader.now) (L.is_loaded loader.now)
        (L.named loader.now) fresh.items round.pairs.items round.names.items) }
{
    let pairs = load_each(alloc, loader, fresh)?;
    let names = others_named(alloc, loader, &pairs, &pairs)?;
    Ok(Round { pairs, names })
}

/// Returns the nodes that are named in `part`, a part of what a round loaded, and aren't the round's own: each once, in
/// ascending order. If the round's nodes aren't in ascending order, some of them may be returned too. Fails only if
/// memory runs out. It costs O(m log m + m log n), for n nodes of the round and m names in the part.
pub fn others_named<K: Key, L: Loads<K>>(
    alloc: Global,
    loader: &L,
    pairs: &[(K, L::Loaded)],
    part: &[(K, L::Loaded)],
) -> Result<Vec<K>, AllocError>
    requires nodes { All (L.is_node loader.now) (keys_of part.now) }
    requires loaded { AreLoaded (L.is_loaded loader.now) part.now }
    ensures others { IfOk result (λ names. AreOthers (keys_of pairs.now)
        (flat_map (λ pair. L.named loader.now pair.1) part.now) names.items) }
    ensures nodes { IfOk result (λ names. All (L.is_node loader.now) names.items) }
    ensures ascending { IfOk result (λ names. IsStrictlySortedBy K.cmp names.items) }
    ensures apart { IsStrictlySortedBy K.cmp (keys_of pairs.now)
        → IfOk result (λ names. AreApart (keys_of pairs.now) names.items) }
{
    let mut names = Vec::new(alloc);
    for (_, one) in part {
        let more = loader.names(alloc, one)?;
        add_others(pairs, &mut names, each_once(more))?;
    }
    Ok(each_once(names))
}

// Appends those of the nodes that aren't the round's own.
fn add_others<K: Key, U>(
    pairs: &[(K, U)],
    names: &mut Vec<K>,
    more: Vec<K>,
) -> Result<(), AllocError>
    ensures added { OnOk result
        (AreOthers (keys_of pairs.now) (names.old.items ++ more.items) names.new.items) }
    ensures apart { IsStrictlySortedBy K.cmp (keys_of pairs.now)
        → AreApart (keys_of pairs.now) names.old.items
        → OnOk result (AreApart (keys_of pairs.now) names.new.items) }
{
    for node in more {
        if !is_own(pairs, &node) {
            names.push(node)?;
        }
    }
    Ok(())
}

// Whether a search finds the node among the round's own. It always finds one if these are in ascending order. O(log n).
fn is_own<K: Key, U>(pairs: &[(K, U)], node: &K) -> bool
    ensures own { IsTrue result → IsAmong node.now (keys_of pairs.now) }
    ensures seen { IsStrictlySortedBy K.cmp (keys_of pairs.now)
        → IsAmong node.now (keys_of pairs.now) → IsTrue result }
{
    match pairs.binary_search_by(|pair| pair.0.cmp(node)) {
        Ok(at) => pairs[at].0 == *node,
        Err(_) => false,
    }
}

// Sorts the nodes and removes repeats. In place, allocating nothing; O(m log m) for m nodes.
pub(crate) fn each_once<K: Key>(nodes: Vec<K>) -> Vec<K>
    ensures ascending { IsStrictlySortedBy K.cmp result.items }
    ensures members { (n : K) → IsAmong n result.items ↔ IsAmong n nodes.items }
{
    let mut once = nodes;
    if once.len() > 1 {
        once.sort_unstable();
        once.dedup();
    }
    once
}
