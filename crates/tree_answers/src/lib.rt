//! What a host's tree answers, read alone. A unit manager finds the tree of its host on its disk, and knows nothing of a
//! fleet: this crate says that it comes to the same units, edges and plans.
//!
//! Promise: trees answer as their stores do.
//!
//! One case is left out, and can be told: a unit is crossed if of its drop-ins and links the host has others than its tree,
//! read alone (`host_trees::reads_alike`).
//!
//! - `tree_answer_laws`: what the definitions imply.
#![tactic(auto)]

mod laws;

pub use laws::tree_answer_laws;
