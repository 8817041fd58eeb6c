//! A crowd on a copy of what a node holds.
ghost use Rattle.script_commands.specs.Outcomes.{IsSaid};
ghost use Rattle.script_answers.specs.Crowds.{RendersCrowd};

use crate::answers::crowd_done;
use crowds::{CrowdFault, ROOM, crowd};
use replica_store::Replica;
use script_commands::{EditCount, Fault, LineRefusal};
use std::alloc::Global;
use std::sync::Wait;
use std::thread::Threads;
use worker_rounds::OpenGate;

/// Lets `seats` workers make `edits` edits each at a copy of a replica, concurrently, and returns the line that says
/// how many takes they made and how many paths are held then. It is refused if `seats` isn't 1 to 64. The copy is
/// dropped. May wait.
///
/// A replica whose counters leave a crowd no room is none of a script: for it the answer is `Memory`.
pub fn render_crowd<R: Threads + Wait + Sync>(
    rt: &R,
    alloc: Global,
    replica: &Replica,
    seats: u32,
    edits: EditCount,
) -> Result<Vec<u8>, Fault>
    ensures rendered { IsSaid (λ text. text.items) result
        (RendersCrowd seats edits replica.now.store) }
{
    if replica.high() > u64::MAX - ROOM {
        return Err(Fault::Memory);
    }
    let edits = u64::from(edits.count());
    match crowd(rt, alloc, replica, seats as usize, edits, &OpenGate) {
        Ok(counted) => Ok(crowd_done(alloc, counted.takes, counted.paths)?),
        Err(CrowdFault::Seats) => Err(Fault::Refused(LineRefusal::Seats)),
        Err(CrowdFault::Memory) => Err(Fault::Memory),
    }
}
