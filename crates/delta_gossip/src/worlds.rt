//! Running worlds of replicas.
ghost use Rattle.std.specs.Prelude.{◌≡◌, length, map, List, IfOk};
ghost use Rattle.world_law.specs.{Worlds.{blank}, declared.events.Event.{Event}};
ghost use Rattle.delta_gossip.specs.{Convergence.{Agrees, AgreesLater, HoldsSums, HoldsSumsByEvents}, Shows.{world_after, IsWorld}};

use crate::steps::step;
use delta_pieces::{Digest, Piece};
use replica_store::Replica;
use std::alloc::{AllocError, Global};
use world_law::{Event, converges};

/// The state of a world after some events: the replica of each node, and every ask and piece made so far, in the order
/// of their events.
#[derive(Debug)]
pub struct World {
    /// The replica of each node.
    pub replicas: Vec<Replica>,
    /// The digests that the asks were made with.
    pub asks: Vec<Digest>,
    /// The pieces that were cut. A piece stays after it was given, and may be given again.
    pub pieces: Vec<Piece>,
}

impl Drop for World {
    fn drop(self) {
        let World {
            replicas: _,
            asks: _,
            pieces: _,
        } = self;
    }
}

/// Runs a list of events in a world with one node for each writer. All stores are empty at first.
///
/// An event that names a node, an ask or a piece that doesn't exist is ignored. Fails only if memory runs out; nothing
/// remains then.
///
/// The clauses say that the world converges: whatever is put, asked, cut and given, in whatever order, nodes that took
/// the same edits hold the same store (Shapiro, Preguica, Baquero, Zawirski, "Conflict-free Replicated Data Types",
/// 2011). A node took the edits that it put and the entries of each piece given to it. If a piece was cut for the
/// node's own ask, it also took everything that the cutting node had taken by then at the places of the cut.
pub fn run_world(alloc: Global, writers: &[u32], events: &[Event]) -> Result<World, AllocError>
    // The replicas write under these numbers, in this order.
    ensures writers { IfOk result
        (λ world. map (λ r. r.writer) world.replicas.items ≡ writers.now) }

    // Stores, asks and pieces are those of the model world after these events, even if two edits of one place have one version.
    ensures model { IfOk result
        (λ world. IsWorld (world_after (length writers.now) events.now) world) }

    // If no two different edits of one place that were put have one version, replica k holds the sum of the edits that node k took:
    // the greatest of them at each place.
    ensures sums { IfOk result (HoldsSums (length writers.now) events.now) }

    // The same, where `Took` defines what node k took from the events alone.
    ensures by_events { IfOk result (HoldsSumsByEvents (length writers.now) events.now) }

    // So if nodes k and l took the same edits, in whatever order and with whatever repetitions, replicas k and l hold
    // the same.
    ensures agree { IfOk result (Agrees (length writers.now) events.now) }

    // The same at two moments: if node k took by now the same edits as node l by some later moment, replica k holds now
    // what replica l holds then.
    ensures same { IfOk result (λ world. (later : List Event) → AgreesLater
        (length writers.now) events.now world later) }
{
    converges();
    let mut world = begin(alloc, writers)?;
    for event in events {
        step(alloc, &mut world, event)?;
    }
    Ok(world)
}

// Returns the world before any event.
fn begin(alloc: Global, writers: &[u32]) -> Result<World, AllocError>
    ensures writers { IfOk result
        (λ world. map (λ r. r.writer) world.replicas.items ≡ writers.now) }
    ensures model { IfOk result (λ world. IsWorld (blank (length writers.now)) world) }
{
    let mut replicas = Vec::with_capacity(alloc, writers.len())?;
    for writer in writers {
        replicas.push(Replica::new(alloc, *writer))?;
    }
    Ok(World {
        replicas,
        asks: Vec::new(alloc),
        pieces: Vec::new(alloc),
    })
}
