//! Nodes that last, in a world: each life of a node, from one open to the next crash, is a node of its own there. So a run
//! of lives is a list of events, and what holds of each list of events holds over crashes and restarts.
//!
//! Promise: every world converges.
//!
//! - `Life`: a node that lasts, and what happens to it (in `specs/LifeEvents.antt`, with its events).
//! - `lives_are_events`: the law.
#![tactic(auto)]

mod laws;

pub use laws::lives_are_events;
