//! Closures whose nodes are loaded by several workers in each round. The result is that of one thread, for any number
//! of workers and any order in which they finish.
//!
//! Promise: any number of workers; gates change nothing.
//!
//! - `rounds`: the closure, `close_loaded_by_workers`.
//! - `shares`: a list cut into chunks, one for each worker, and the results put together.
//! - `gates`: where a worker waits before it loads, so that a test can see that workers run at the same time.
//! - `crews`: how many workers are allowed.
#![tactic(auto)]

mod chunks;
mod faults;
mod gates;
mod rounds;
mod worker_counts;
mod workers;

pub use chunks::{Chunk, work_by_chunks};
pub use faults::RoundFault;
pub use gates::{Gate, OpenGate, TURNS, pass_gate};
pub use rounds::close_loaded_by_workers;
pub use worker_counts::{MOST_WORKERS, is_worker_count};
