//! The number of workers that may load.
ghost use Rattle.std.specs.Prelude.{◌≡◌, ◌⊎◌, ◌<◌, MatchBool};
ghost use Rattle.worker_rounds.specs.WorkerCounts.{IsWorkerCount};

/// The most workers that may load.
pub const MOST_WORKERS: usize = 64;

/// Whether this is a valid number of workers: 1 to `MOST_WORKERS`. Everything that loads by workers checks this first.
pub fn is_worker_count(workers: usize) -> bool
    ensures worker_count { MatchBool result (IsWorkerCount workers)
        ((workers ≡ 0) ⊎ (64 < workers)) }
{
    workers != 0 && workers <= MOST_WORKERS
}
