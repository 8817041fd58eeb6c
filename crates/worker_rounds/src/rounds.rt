//! The rounds of a closure, each loaded by workers.
ghost use Rattle.std.specs.{Prelude.{◌≡◌, ◌↔◌, ◌⊎◌, ◌<◌, ◌≤◌, Err, length, All, IfOk, IfErr}, BTreeMap.{keys}};
ghost use Rattle.std.specs.List.Sorted.{IsStrictlySortedBy};
ghost use Rattle.name_closure.specs.{Chains.{IsClosure, HasOver}, ListedLaws.{Listed}, Loading.{LeadsByLoad, AreLoaded, IsRound}};
ghost use Rattle.worker_rounds.specs.{Refusals.{OnTooMany}, declared.faults.RoundFault.TheVariants.{Workers}};

use crate::faults::RoundFault;
use crate::gates::Gate;
use crate::worker_counts::is_worker_count;
use crate::workers::{WorkerResources, load_by_workers};
use name_closure::{Loads, Round, close_by_rounds};
use plain_values::Key;
use std::alloc::{AllocError, Global};
use std::collections::BTreeMap;
use std::thread::Threads;

/// Returns all nodes that are reached from the sources, each with what is loaded for it, like `close_loaded`. The
/// loader must be able to load the sources.
///
/// Fails with `Workers` exactly where `workers` isn't 1 to 64, before anything else. Otherwise the result is that of
/// one thread: `TooMany` exactly where more nodes than the limit are reached, and `Memory` only if memory runs out.
///
/// The new nodes of a round are cut in their order into chunks, none of them empty: as many as the lesser of the
/// workers and the nodes, numbered from 0 in that round. Each chunk has its own worker, which asks the gate first. If
/// no thread can be made for a worker, it runs in its caller's thread. The nodes that the round names are then
/// collected by at most as many workers, which don't ask the gate.
pub fn close_loaded_by_workers<
    R: Threads + Sync,
    K: Key + Send + Sync,
    L: Loads<K> + Sync,
    G: Gate + Sync,
>(
    rt: &R,
    alloc: Global,
    loader: &L,
    sources: &[K],
    limit: usize,
    workers: usize,
    gate: &G,
) -> Result<BTreeMap<K, L::Loaded>, RoundFault>
where
    L::Loaded: Send + Sync,
    requires sources { All (L.is_node loader.now) sources.now }
    ensures workers { (result ≡ Err Workers) ↔ ((workers ≡ 0) ⊎ (64 < workers)) }
    ensures closure { IfOk result (λ found. IsClosure (Listed sources.now)
        (LeadsByLoad (L.is_loaded loader.now) (L.named loader.now)) K.cmp (keys found)) }
    ensures loaded { IfOk result (λ found. AreLoaded (L.is_loaded loader.now) found.entries) }
    ensures nodes { IfOk result (λ found. All (L.is_node loader.now) (keys found)) }
    ensures room { IfOk result (λ found. length found.entries ≤ limit) }
    ensures over { IfErr result (λ fault. OnTooMany fault (HasOver (Listed sources.now)
        (LeadsByLoad (L.is_loaded loader.now) (L.named loader.now)) K.cmp limit)) }
    ensures not_over { IfOk result (λ _. ¬ HasOver (Listed sources.now)
        (LeadsByLoad (L.is_loaded loader.now) (L.named loader.now)) K.cmp limit) }
{
    if !is_worker_count(workers) {
        return Err(RoundFault::Workers);
    }
    let resources = WorkerResources { rt, workers, gate };
    let load_round = |fresh: Vec<K>| -> Result<Round<K, L::Loaded>, AllocError>
        requires some { 0 < resources.workers }
        requires ascending { IsStrictlySortedBy K.cmp fresh.items }
        requires nodes { All (L.is_node loader.now) fresh.items }
        ensures round { IfOk result
            (λ round. IsRound (L.is_node loader.entry.now) (L.is_loaded loader.entry.now)
            (L.named loader.entry.now) fresh.items round.pairs.items round.names.items) }
    { load_by_workers(&resources, alloc, loader, fresh) };
    let found = close_by_rounds(alloc, loader, sources, limit, load_round)?;
    Ok(found)
}
