//! The number of workers that load.
ghost use Rattle.std.specs.Prelude.{◌≡◌, MatchOption};
ghost use Rattle.worker_rounds.specs.WorkerCounts.{IsWorkerCount};

use std::marker::Model;
use worker_rounds::is_worker_count;

/// The number of workers that load: 1 to 64.
#[derive(Debug, Drop)]
pub struct WorkerCount {
    count: u32,
}

impl Model for WorkerCount {
    ghost use Rattle.std.specs.Prelude.{ℕ};
    ghost use Rattle.worker_rounds.specs.WorkerCounts.{IsWorkerCount};

    ghost Value = { ℕ };

    ghost view = { λ c. c.count };

    ghost invariant = { λ c. IsWorkerCount c.count };
}

impl WorkerCount {
    /// Returns one worker, which needs no thread.
    pub fn one() -> WorkerCount
        ensures one { result ≡ 1 }
    {
        WorkerCount { count: 1 }
    }

    /// Returns this number of workers, or none if it isn't 1 to 64.
    pub fn of(count: u32) -> Option<WorkerCount>
        ensures worker_count { MatchOption result (¬ IsWorkerCount count)
            (λ worker_count. worker_count ≡ count) }
    {
        if is_worker_count(count as usize) {
            Some(WorkerCount { count })
        } else {
            None
        }
    }

    /// Returns the number of workers.
    pub fn count(&self) -> u32
        ensures count { result ≡ self.now }
        ensures well_formed { IsWorkerCount self.now }
    {
        self.count
    }
}
