//! A limit to what several replicas cache.
ghost use Rattle.std.specs.Prelude.{◌≡◌, ◌↔◌, ◌⊎◌, ◌<◌, [], Err, IfOk, length, slice_index_or};
ghost use Rattle.std.specs.Option.{IfSome};
ghost use Rattle.replica_store.specs.Replicas.{Replicated};
ghost use Rattle.fleet_answers.specs.Answers.{IsAnswer};
ghost use Rattle.fleet_answers.specs.declared.questions.AnswerFault.TheVariants.{Workers};

use crate::caches::MOST_SNAPSHOTS;
use crate::questions::{Answer, AnswerFault, Question};
use crate::tracked::TrackedReplica;
use parallel_load::Gate;
use replica_store::Viewer;
use std::alloc::{AllocError, Global};
use std::thread::Threads;

// A snapshot that a replica may have cached: the replica's index, and who it is for.
struct Used {
    at: usize,
    viewer: Viewer,
}

impl Drop for Used {
    fn drop(self) {
        let Used { at: _, viewer: _ } = self;
    }
}

/// Which snapshots several replicas have cached, at most 64 in all. The least recently used one is dropped first. No answer
/// depends on it.
pub struct SnapshotLimit {
    used: Vec<Used>,
}

impl Drop for SnapshotLimit {
    fn drop(self) {
        let SnapshotLimit { used: _ } = self;
    }
}

impl SnapshotLimit {
    /// A limit to replicas of which nothing is cached. Allocates nothing.
    pub fn new(alloc: Global) -> SnapshotLimit {
        SnapshotLimit {
            used: Vec::new(alloc),
        }
    }

    /// The answer of one of the replicas. If memory runs out, drops all snapshots and tries once more.
    pub fn answer<R: Threads + Sync, G: Gate + Sync>(
        &mut self,
        rt: &R,
        alloc: Global,
        replicas: &mut [TrackedReplica],
        at: usize,
        question: &Question,
        workers: usize,
        gate: &G,
    ) -> Result<Answer, AnswerFault>
        requires within { at < length replicas.old }
        ensures workers { (result ≡ Err Workers) ↔ ((workers ≡ 0) ⊎ (64 < workers)) }
        ensures answer { IfOk result (λ answer. (d : Replicated)
            → IsAnswer (slice_index_or replicas.old at d).store [] question.now answer) }
        ensures same { replicas.new ≡ replicas.old }
    {
        let answered = answer_of(rt, alloc, replicas, at, question, workers, gate);
        if let Err(AnswerFault::Memory) = answered {
            self.clear(replicas);
            return answer_of(rt, alloc, replicas, at, question, workers, gate);
        }
        self.note(replicas, at, question.viewer());
        answered
    }

    // Drops all snapshots.
    fn clear(&mut self, replicas: &mut [TrackedReplica])
        ensures same { replicas.new ≡ replicas.old }
    {
        for one in &self.used {
            drop_snapshot(replicas, one.at, &one.viewer);
        }
        self.used.clear();
    }

    // Notes that a replica's snapshot for a viewer was used last. Drops the one that was used before all others, if they are too
    // many.
    fn note(&mut self, replicas: &mut [TrackedReplica], at: usize, viewer: &Viewer)
        ensures same { replicas.new ≡ replicas.old }
    {
        if let Some(place) = self.place_of(at, viewer) {
            self.used.remove(place);
        }
        if self.used.len() >= MOST_SNAPSHOTS {
            let oldest = self.used.remove(0);
            drop_snapshot(replicas, oldest.at, &oldest.viewer);
        }
        if self.append(at, viewer).is_err() {
            drop_snapshot(replicas, at, viewer);
        }
    }

    // Where a replica's snapshot for a viewer is.
    fn place_of(&self, at: usize, viewer: &Viewer) -> Option<usize>
        ensures there { IfSome result (λ place. place < length self.now.used.items) }
    {
        for (place, one) in self.used.iter().enumerate() {
            if one.at == at && one.viewer == *viewer {
                return Some(place);
            }
        }
        None
    }

    // Appends a replica's snapshot for a viewer.
    fn append(&mut self, at: usize, viewer: &Viewer) -> Result<(), AllocError> {
        let viewer = viewer.try_clone()?;
        self.used.push(Used { at, viewer })?;
        Ok(())
    }
}

// The answer of one of the replicas.
fn answer_of<R: Threads + Sync, G: Gate + Sync>(
    rt: &R,
    alloc: Global,
    replicas: &mut [TrackedReplica],
    at: usize,
    question: &Question,
    workers: usize,
    gate: &G,
) -> Result<Answer, AnswerFault>
    requires within { at < length replicas.old }
    ensures workers { (result ≡ Err Workers) ↔ ((workers ≡ 0) ⊎ (64 < workers)) }
    ensures answer { IfOk result (λ answer. (d : Replicated)
        → IsAnswer (slice_index_or replicas.old at d).store [] question.now answer) }
    ensures same { replicas.new ≡ replicas.old }
{
    replicas[at].answer(rt, alloc, question, workers, gate)
}

// Drops a replica's snapshot for a viewer, if there is such a replica.
fn drop_snapshot(replicas: &mut [TrackedReplica], at: usize, viewer: &Viewer)
    ensures same { replicas.new ≡ replicas.old }
{
    if at < replicas.len() {
        replicas[at].drop_snapshot(viewer);
    }
}
