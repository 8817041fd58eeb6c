//! Crowds: several workers that edit one node concurrently, each in its own thread. `crowd` returns how many takes the
//! node had and how many places it held, and drops everything else.
//!
//! Promise: the count at close is exact.
//!
//! `crowd` opens a node over a copy of a replica, gives each worker a seat, lets each make its edits, and closes the
//! node with all seats.
//!
//! - `crowding`: `crowd`.
//! - `workers`, `threads`: what one worker does, and all of them in threads.
//! - `texts`: what the workers write, and where.
#![tactic(auto)]

mod crowding;
mod faults;
mod texts;
mod threads;
mod workers;

pub use crowding::{Counted, MOST_EDITS, ROOM, crowd};
pub use faults::CrowdFault;
pub use worker_rounds::Gate;
