//! Replicas that learn from each other by merging whole stores, or by asks and the pieces cut for them. `exchange`
//! brings two together, `sweep` any number, and `run_world` runs a list of events among nodes.
//!
//! Promise: every world converges; a sweep joins all.
//!
//! A world is an execution: nodes put edits, make asks, cut pieces for them, and are given pieces in any order, late,
//! twice or never. The contract of `run_world` says that nodes that took the same edits hold the same store (Shapiro,
//! Preguica, Baquero, Zawirski, "Conflict-free Replicated Data Types", 2011).
#![tactic(auto)]

mod exchanges;
mod laws;
mod steps;
mod sweeps;
mod worlds;

pub use delta_pieces::{Digest, Piece, Rest, TakeFault, delta_at, delta_for, digest, take};
pub use exchanges::exchange;
pub use laws::joins_of_all;
pub use sweeps::sweep;
pub use world_law::{Event, Places};
pub use worlds::{World, run_world};
