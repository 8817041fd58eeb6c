//! A crowd at a node.
ghost use Rattle.std.specs.{Prelude.{◌≡◌, ◌+◌, ◌-◌, ◌*◌, ◌<◌, ◌≤◌, ◌⊎◌, ◌↔◌, length, Err, IfOk}, List.{sum_by}};
ghost use Rattle.edit_sums.specs.Sums.{high_of};
ghost use Rattle.node_histories.specs.Histories.{IsLegal, replica_of, takes_in};
ghost use Rattle.shared_node.specs.Seats.{AllAgree};
ghost use Rattle.crowds.specs.{declared.faults.CrowdFault.TheVariants.{Seats}, Crowds.{crowd_places, places_with}};

use crate::faults::CrowdFault;
use crate::threads::work_side_by_side;
use node_histories::NodeName;
use replica_store::Replica;
use shared_node::{Blank, Closed, MOST_SEATS, Node, Seat};
use std::alloc::{AllocError, Global};
use std::marker::Brand;
use std::sync::Wait;
use std::thread::Threads;
use worker_rounds::Gate;

/// The most edits of one worker.
pub const MOST_EDITS: u64 = 1_000;

/// The most counters that a crowd uses.
pub const ROOM: u64 = 64_000;

/// The result of a crowd: the number of takes of its node when it was closed, and the number of places that it held,
/// removals included.
#[derive(Clone, Copy, Debug, PartialEq, Eq)]
pub struct Counted {
    pub takes: u64,
    pub paths: u64,
}

// Closes a node with all its seats.
fn close<N: NodeName, R: Wait>(
    rt: &R,
    node: Node<N>,
    seats: Vec<Seat<N>>,
) -> Result<Closed, AllocError>
    ensures legal { IfOk result (λ d. IsLegal N.opening d.seen.log) }
    ensures agree { IfOk result (λ d. AllAgree d.seen.log seats.items) }
    ensures takes { IfOk result (λ d. d.takes ≡ takes_in d.seen.log) }
    ensures sum { IfOk result (λ d. d.takes ≡ sum_by (λ s. s.calls) seats.items) }
    ensures replica { IfOk result (λ d. d.replica ≡ replica_of d.seen.log) }
{
    match node.close(rt, seats) {
        Ok(closed) => Ok(closed),
        Err(fault) => {
            fault.end(rt);
            Err(AllocError)
        }
    }
}

// Runs the crowd at the node of this blank.
fn crowd_at<N: NodeName + Send + Sync, R: Threads + Wait + Sync, G: Gate + Sync>(
    rt: &R,
    alloc: Global,
    blank: Blank,
    seats: usize,
    edits: u64,
    gate: &G,
) -> Result<Counted, AllocError>
    requires book { blank.book ≡ N.book }
    requires opening { blank.opening ≡ N.opening }
    requires seats { blank.seats ≡ N.seats }
    ensures takes { IfOk result (λ counted. counted.takes ≡ seats * edits) }
    ensures paths { IfOk result
        (λ counted. counted.paths ≡ places_with N.opening.store (crowd_places seats edits)) }
{
    let node = Node::<N>::open(blank);
    match work_side_by_side(rt, alloc, &node, seats, edits, gate) {
        Ok(seats) => {
            let closed = close(rt, node, seats)?;
            Ok(Counted {
                takes: closed.takes,
                paths: closed.replica.store().len() as u64,
            })
        }
        Err(fault) => {
            node.end(rt);
            Err(fault)
        }
    }
}

/// Lets `seats` workers edit a copy of a replica concurrently, as one node with a seat for each, and returns how many
/// takes and places the node had at the end. The copy is dropped, and the replica is unchanged.
///
/// Worker K, from 0, makes edits J, from 0, one after another, each of the file `/etc/systemd/system/crowd-K.service`
/// with the lines `[Unit]` and `Description=K J`. Before its first edit it asks the gate for K until the answer is
/// true, at most `worker_rounds::TURNS` times. Each worker has its own thread where one can be made. May wait, as the
/// calls of a node do.
///
/// Fails with `Seats` exactly where `seats` isn't 1 to 64, before anything else. Fails with `Memory` if memory runs
/// out, or if the node refuses anything, which it does only if memory runs out. Each edit costs what `Node::edit`
/// costs.
pub fn crowd<R: Threads + Wait + Sync, G: Gate + Sync>(
    rt: &R,
    alloc: Global,
    replica: &Replica,
    seats: usize,
    edits: u64,
    gate: &G,
) -> Result<Counted, CrowdFault>
    requires edits { edits ≤ MOST_EDITS }
    requires room { high_of replica.now.store ≤ u64.MAX - ROOM }
    ensures takes { IfOk result (λ counted. counted.takes ≡ seats * edits) }
    ensures paths { IfOk result
        (λ counted. counted.paths ≡ places_with replica.now.store (crowd_places seats edits)) }
    ensures seats { (result ≡ Err Seats) ↔ ((seats ≡ 0) ⊎ (64 < seats)) }
{
    if seats == 0 || seats > MOST_SEATS {
        return Err(CrowdFault::Seats);
    }
    let Ok(replica) = replica.try_clone() else {
        return Err(CrowdFault::Memory);
    };
    let Ok(blank) = Blank::new(rt, replica, seats) else {
        return Err(CrowdFault::Memory);
    };
    let counted = crowd_at::<Brand, R, G>(rt, alloc, blank, seats, edits, gate);
    counted.map_err(|_| CrowdFault::Memory)
}
