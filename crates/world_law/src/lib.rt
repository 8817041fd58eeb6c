//! Worlds: executions of nodes that put edits, make asks, cut pieces for them, and are given pieces, as a list of
//! events says. By the law of convergence each node's store is the sum of the edits that the node took, if no version
//! belongs to two of them.
//!
//! Promise: every world converges.
//!
//! A world is determined by its list of events alone (`specs/Worlds.antt`). Pieces may be delayed, reordered, lost or
//! repeated: each may be given to any node, at once, late, twice or never. An ask is a digest of a store, and a piece
//! is a delta that was cut for an ask (anti-entropy). What a node took is its delivered set.
//!
//! - `Event` and `Places`: what happens in a world.
//! - `converges`: the laws.
#![tactic(auto)]

mod events;
mod laws;

pub use events::{Event, Places};
pub use laws::converges;
