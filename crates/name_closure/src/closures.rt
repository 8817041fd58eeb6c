//! Closures: all nodes that are reached, each with what is loaded for it, computed in rounds.
ghost use Rattle.std.specs.{Prelude.{◌≤◌, length, All, IfOk, IfErr}, BTreeMap.{keys}, List.Sorted.{IsStrictlySortedBy}};
ghost use Rattle.name_closure.specs.{Chains.{IsClosure, HasOver}, Faults.{OnTooMany}, ListedLaws.{Listed}};
ghost use Rattle.name_closure.specs.Loading.{LeadsByLoad, AreLoaded, IsRound};

use crate::loads::{ClosureFault, Loads, Round};
use crate::names::load_round;
use crate::rounds::{add_loaded, new_of};
use plain_values::{Key, copied};
use std::alloc::{AllocError, Global};
use std::collections::BTreeMap;

/// Returns all nodes that are reached from the sources, each with what is loaded for it: the least set that has the
/// sources, and all nodes that are named in what is loaded for its members. The loader must be able to load the
/// sources.
///
/// Fails with `TooMany` exactly where more nodes than `limit` are reached, whatever the order of the nodes, and before
/// it loads the round that would pass the limit. Fails with `Memory` only if memory runs out. Each node is loaded once,
/// and only the sources are copied. Besides the loads the cost is O(n + m log m + m log n), for n nodes that are
/// reached and m names in all, the sources included.
pub fn close_loaded<K: Key, L: Loads<K>>(
    alloc: Global,
    loader: &L,
    sources: &[K],
    limit: usize,
) -> Result<BTreeMap<K, L::Loaded>, ClosureFault>
    requires sources { All (L.is_node loader.now) sources.now }
    ensures closure { IfOk result (λ found. IsClosure (Listed sources.now)
        (LeadsByLoad (L.is_loaded loader.now) (L.named loader.now)) K.cmp (keys found)) }
    ensures loaded { IfOk result (λ found. AreLoaded (L.is_loaded loader.now) found.entries) }
    ensures nodes { IfOk result (λ found. All (L.is_node loader.now) (keys found)) }
    ensures room { IfOk result (λ found. length found.entries ≤ limit) }
    ensures over { IfErr result (λ fault. OnTooMany fault (HasOver (Listed sources.now)
        (LeadsByLoad (L.is_loaded loader.now) (L.named loader.now)) K.cmp limit)) }
    ensures not_over { IfOk result (λ _. ¬ HasOver (Listed sources.now)
        (LeadsByLoad (L.is_loaded loader.now) (L.named loader.now)) K.cmp limit) }
{
    close_by_rounds(
        alloc,
        loader,
        sources,
        limit,
        |fresh| load_round(alloc, loader, fresh),
    )
}

/// Like `close_loaded`, with the same errors and cost, but `load_round` loads the new nodes of a round. It is called
/// with these nodes in ascending order, all of which the loader can load. It returns each of them with what the loader
/// loads for it, and the other nodes that are named there.
pub fn close_by_rounds<
    K: Key,
    L: Loads<K>,
    F: Fn(Vec<K>) -> Result<Round<K, L::Loaded>, AllocError>,
>(
    alloc: Global,
    loader: &L,
    sources: &[K],
    limit: usize,
    load_round: F,
) -> Result<BTreeMap<K, L::Loaded>, ClosureFault>
    requires sources { All (L.is_node loader.now) sources.now }
    requires ready { (fresh : _) → IsStrictlySortedBy K.cmp fresh.items
        → All (L.is_node loader.now) fresh.items → F.pre load_round fresh }
    requires loads { (fresh : _) (loads : _) → F.post load_round fresh loads
        → IfOk loads
        (λ round. IsRound (L.is_node loader.now) (L.is_loaded loader.now)
        (L.named loader.now) fresh.items round.pairs.items round.names.items) }
    ensures closure { IfOk result (λ found. IsClosure (Listed sources.now)
        (LeadsByLoad (L.is_loaded loader.now) (L.named loader.now)) K.cmp (keys found)) }
    ensures loaded { IfOk result (λ found. AreLoaded (L.is_loaded loader.now) found.entries) }
    ensures nodes { IfOk result (λ found. All (L.is_node loader.now) (keys found)) }
    ensures room { IfOk result (λ found. length found.entries ≤ limit) }
    ensures over { IfErr result (λ fault. OnTooMany fault (HasOver (Listed sources.now)
        (LeadsByLoad (L.is_loaded loader.now) (L.named loader.now)) K.cmp limit)) }
    ensures not_over { IfOk result (λ _. ¬ HasOver (Listed sources.now)
        (LeadsByLoad (L.is_loaded loader.now) (L.named loader.now)) K.cmp limit) }
{
    let sources = copied(alloc, sources)?;
    let mut found = BTreeMap::new(alloc);
    let mut fresh = new_of(&found, sources);
    while !fresh.is_empty() {
        if fresh.len() > limit - found.len() {
            return Err(ClosureFault::TooMany);
        }
        let Round { pairs, names } = load_round(fresh)?;
        add_loaded(alloc, loader, &mut found, pairs)?;
        fresh = new_of(&found, names);
    }
    Ok(found)
}
