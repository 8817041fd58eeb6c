//! Workers, each of which loads a chunk of a round.
ghost use Rattle.std.specs.{Prelude.{◌≡◌, ℕ, ◌<◌, ◌≤◌, ◌*◌, length, take, drop, slice_index_or, All, IfOk}, List.{flat_map}};
ghost use Rattle.std.specs.{List.Sorted.{IsStrictlySortedBy}, Map.{keys_of}};
ghost use Rattle.name_closure.specs.Loading.{AreLoaded, AreLoads, AreOthers, IsRound};

use crate::chunks::{Chunk, put_together, work_by_chunks};
use crate::gates::{Gate, pass_gate};
use name_closure::{Loads, Round, load_each, others_named};
use plain_values::Key;
use std::alloc::{AllocError, Global};
use std::thread;
use std::thread::Threads;

// What loads a round: the number of workers, the runtime of their threads, and the gate that each of them asks.
#[derive(Drop)]
pub(crate) struct WorkerResources<'a, R, G> {
    pub rt: &'a R,
    pub workers: usize,
    pub gate: &'a G,
}

// What a worker does: it passes the gate, and loads the nodes of its chunk.
fn load_chunk<K: Key, L: Loads<K>, G: Gate>(
    alloc: Global,
    loader: &L,
    gate: &G,
    chunk: Chunk<K>,
) -> Result<Vec<(K, L::Loaded)>, AllocError>
    requires nodes { All (L.is_node loader.now) chunk.nodes.items }
    ensures pairs { IfOk result
        (λ pairs. AreLoads (L.is_loaded loader.now) chunk.nodes.items pairs.items) }
{
    pass_gate(gate, chunk.number);
    load_each(alloc, loader, chunk.nodes)
}

// Returns the nodes that are named in what a round loaded and aren't the round's own, collected by this many workers. A
// node that several workers find is returned several times. Their parts have one size, except for the last.
fn name_by_workers<R: Threads + Sync, K: Key + Send + Sync, L: Loads<K> + Sync>(
    rt: &R,
    alloc: Global,
    loader: &L,
    workers: usize,
    pairs: &[(K, L::Loaded)],
) -> Result<Vec<K>, AllocError>
where
    L::Loaded: Sync,
    requires some { 0 < workers }
    requires nodes { All (L.is_node loader.now) (keys_of pairs.now) }
    requires loaded { AreLoaded (L.is_loaded loader.now) pairs.now }
    ensures others { IfOk result (λ names. AreOthers (keys_of pairs.now)
        (flat_map (λ pair. L.named loader.now pair.1) pairs.now) names.items) }
    ensures nodes { IfOk result (λ names. All (L.is_node loader.now) names.items) }
{
    let size = pairs.len().div_ceil(workers).max(1);
    let name = |_start: usize, part: &[(K, L::Loaded)]| -> Result<Vec<K>, AllocError>
        requires nodes { All (L.is_node loader.now) (keys_of part.now) }
        requires loaded { AreLoaded (L.is_loaded loader.now) part.now }
        ensures others { IfOk result (λ names. AreOthers (keys_of pairs.entry.now)
            (flat_map (λ pair. L.named loader.entry.now pair.1) part.entry.now) names.items) }
        ensures nodes { IfOk result (λ names. All (L.is_node loader.entry.now) names.items) }
    { others_named(alloc, loader, pairs, part) };
    let named = thread::map_chunks(rt, alloc, pairs, size, &name)?;
    put_together(alloc, named)
}

// Loads a round of new nodes by workers: returns each node with what is loaded for it, and the other nodes that are
// named there.
pub(crate) fn load_by_workers<
    R: Threads + Sync,
    K: Key + Send + Sync,
    L: Loads<K> + Sync,
    G: Gate + Sync,
>(
    resources: &WorkerResources<R, G>,
    alloc: Global,
    loader: &L,
    fresh: Vec<K>,
) -> Result<Round<K, L::Loaded>, AllocError>
where
    L::Loaded: Send + Sync,
    requires some { 0 < resources.now.workers }
    requires ascending { IsStrictlySortedBy K.cmp fresh.items }
    requires nodes { All (L.is_node loader.now) fresh.items }
    ensures round { IfOk result
        (λ round. IsRound (L.is_node loader.now) (L.is_loaded loader.now)
        (L.named loader.now) fresh.items round.pairs.items round.names.items) }
{
    let pairs = pairs_by_workers(resources, alloc, loader, fresh)?;
    let names = name_by_workers(resources.rt, alloc, loader, resources.workers, &pairs)?;
    Ok(Round { pairs, names })
}

// Returns each new node of a round with what is loaded for it. Each chunk has its own worker.
fn pairs_by_workers<R: Threads + Sync, K: Key + Send, L: Loads<K> + Sync, G: Gate + Sync>(
    resources: &WorkerResources<R, G>,
    alloc: Global,
    loader: &L,
    fresh: Vec<K>,
) -> Result<Vec<(K, L::Loaded)>, AllocError>
where
    L::Loaded: Send,
    requires some { 0 < resources.now.workers }
    requires nodes { All (L.is_node loader.now) fresh.items }
    ensures pairs { IfOk result
        (λ pairs. AreLoads (L.is_loaded loader.now) fresh.items pairs.items) }
{
    let gate = resources.gate;
    let load = |chunk: Chunk<K>| -> Result<Vec<(K, L::Loaded)>, AllocError>
        requires { All (L.is_node loader.now) chunk.nodes.items }
        ensures { IfOk result
            (λ pairs. AreLoads (L.is_loaded loader.entry.now) chunk.nodes.items pairs.items) }
    { load_chunk(alloc, loader, gate, chunk) };
    work_by_chunks(resources.rt, alloc, fresh, resources.workers, &load)
}
