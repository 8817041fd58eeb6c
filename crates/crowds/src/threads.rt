//! The workers of a crowd, each in its own thread.
ghost use Rattle.std.specs.Prelude.{◌≡◌, ℕ, ◌<◌, length, slice_index_or, slice_get, Some, IfOk, All};
ghost use Rattle.shared_node.specs.Seats.{SeatNow};
ghost use Rattle.crowds.specs.Workers.{AreFresh, AreGathered, HasWorked, HaveWorked};

use crate::workers::work;
use node_histories::NodeName;
use shared_node::{Node, Seat};
use std::alloc::{AllocError, Global};
use std::sync::Wait;
use std::thread;
use std::thread::Threads;
use worker_rounds::Gate;

// A seat for each worker, with the same number as the worker.
fn seats_of<N: NodeName, R: Wait>(
    rt: &R,
    alloc: Global,
    node: &Node<N>,
    workers: usize,
) -> Result<Vec<Seat<N>>, AllocError>
    ensures count { IfOk result (λ seats. length seats.items ≡ workers) }
    ensures fresh { IfOk result (λ seats. AreFresh seats.items) }
{
    let mut seats = Vec::new(alloc);
    for worker in 0..workers {
        let Ok(seat) = node.seat(rt) else {
            return Err(AllocError);
        };
        if seat.number() != worker {
            return Err(AllocError);
        }
        seats.push(seat)?;
    }
    Ok(seats)
}

// The result of each worker, in the order of the workers' numbers. Each runs in its own thread.
fn work_all<N: NodeName + Send + Sync, R: Threads + Wait + Sync, G: Gate + Sync>(
    rt: &R,
    alloc: Global,
    node: &Node<N>,
    seats: Vec<Seat<N>>,
    edits: u64,
    gate: &G,
) -> Result<Vec<Result<Seat<N>, AllocError>>, AllocError>
    requires fresh { All (λ seat. seat.calls ≡ 0) seats.items }
    ensures count { IfOk result (λ done. length done.items ≡ length seats.items) }
    ensures each { IfOk result
        (λ done. (i : ℕ) (seat : _) (came : _) → i < length seats.items
        → IfOk (slice_index_or done.items i came)
        (HasWorked edits (slice_index_or seats.items i seat).number)) }
{
    let work_one = |seat: Seat<N>| -> Result<Seat<N>, AllocError>
        requires { seat.calls ≡ 0 }
        ensures { IfOk result (HasWorked edits seat.number) }
    { work(rt, alloc, node, seat, edits, gate) };
    thread::map_vec(rt, seats, &work_one)
}

// The seats that came back, if none is missing.
fn gather<N: NodeName>(
    alloc: Global,
    done: Vec<Result<Seat<N>, AllocError>>,
) -> Result<Vec<Seat<N>>, AllocError>
    ensures gathered { IfOk result (λ seats. AreGathered done.items seats.items) }
{
    let mut seats = Vec::new(alloc);
    for came in done {
        seats.push(came?)?;
    }
    Ok(seats)
}

/// Lets `workers` workers make `edits` edits each, each in its own thread where one can be made, and returns their
/// seats.
pub fn work_side_by_side<N: NodeName + Send + Sync, R: Threads + Wait + Sync, G: Gate + Sync>(
    rt: &R,
    alloc: Global,
    node: &Node<N>,
    workers: usize,
    edits: u64,
    gate: &G,
) -> Result<Vec<Seat<N>>, AllocError>
    ensures count { IfOk result (λ seats. length seats.items ≡ workers) }
    ensures worked { IfOk result (λ seats. HaveWorked edits seats.items) }
{
    let seats = seats_of(rt, alloc, node, workers)?;
    let done = work_all(rt, alloc, node, seats, edits, gate)?;
    gather(alloc, done)
}
