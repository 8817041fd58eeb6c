//! A list is cut into chunks for workers, and their results are put together.
ghost use Rattle.std.specs.{Prelude.{◌≡◌, ◌<◌, length, map, min, All, IfOk}, List.{flat_map, range_with_len}};
ghost use Rattle.std.specs.Fork.{AcceptsJobs, GivesJobs};
ghost use Rattle.worker_rounds.specs.{Joined.{IsJoined}, Chunks.{AreChunks, AreWorked}};

use std::alloc::{AllocError, Global};
use std::collections::VecDeque;
use std::thread;
use std::thread::Threads;

/// Consecutive nodes, for one worker.
#[derive(Drop)]
pub struct Chunk<K> {
    /// The position of the chunk among the chunks, from 0.
    pub number: usize,
    pub nodes: Vec<K>,
}

// Cuts the nodes into chunks, as many as the lesser of the workers and the nodes. Linear; copies no node.
pub(crate) fn cut<K: Drop>(
    alloc: Global,
    nodes: Vec<K>,
    workers: usize,
) -> Result<Vec<Chunk<K>>, AllocError>
    requires some { 0 < workers }
    ensures whole { IfOk result
        (λ chunks. flat_map (λ chunk. chunk.nodes.items) chunks.items ≡ nodes.items) }
    ensures count { IfOk result (λ chunks. length chunks.items ≡ min workers (length nodes.items)) }
    ensures filled { IfOk result
        (λ chunks. All (λ chunk. 0 < length chunk.nodes.items) chunks.items) }
    ensures numbered { IfOk result (λ chunks. map (λ chunk. chunk.number) chunks.items
        ≡ range_with_len 0 (length chunks.items)) }
{
    let count = workers.min(nodes.len());
    let mut rest = VecDeque::from(nodes);
    let mut chunks = VecDeque::new(alloc);
    for done in 0..count {
        let left = count - done;
        let last = rest.split_off(rest.len() - rest.len() / left)?;
        chunks.push_front(Chunk {
            number: left - 1,
            nodes: Vec::from(last),
        })?;
    }
    Ok(Vec::from(chunks))
}

/// Runs `work` on each chunk of the nodes, for this many workers, and returns the results in the order of the chunks.
/// Fails if a call fails or if memory runs out. May wait for threads.
pub fn work_by_chunks<
    R: Threads + Sync,
    K: Send + Drop,
    X: Send + Drop,
    F: Fn(Chunk<K>) -> Result<Vec<X>, AllocError> + Sync,
>(rt: &R, alloc: Global, nodes: Vec<K>, workers: usize, work: &F) -> Result<Vec<X>, AllocError>
    requires some { 0 < workers }
    requires ready { (chunks : _) → AreChunks workers nodes.items chunks
        → AcceptsJobs F.Fn work.now chunks }
    ensures worked { IfOk result
        (λ all. AreWorked (GivesJobs F.Fn work.now) workers nodes.items all.items) }
{
    let chunks = cut(alloc, nodes, workers)?;
    let parts = thread::map_vec(rt, chunks, work)?;
    put_together(alloc, parts)
}

// Concatenates the results. Fails if one of them is an error, or if memory runs out. Linear; copies no element.
pub(crate) fn put_together<X: Drop>(
    alloc: Global,
    parts: Vec<Result<Vec<X>, AllocError>>,
) -> Result<Vec<X>, AllocError>
    ensures joined { IfOk result (λ all. IsJoined parts.items all.items) }
{
    let mut all = Vec::with_capacity(alloc, room_for(&parts))?;
    for part in parts {
        let mut more = part?;
        all.append(&mut more)?;
    }
    Ok(all)
}

// The number of elements in the results, so that their room is reserved at once. Linear in the number of results.
fn room_for<X>(parts: &[Result<Vec<X>, AllocError>]) -> usize {
    let mut room = 0usize;
    for each in parts {
        if let Ok(held) = each {
            room = room.saturating_add(held.len());
        }
    }
    room
}
