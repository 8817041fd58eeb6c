//! Closures and distances: the nodes that are reached from some sources along edges, for any type of node. The code
//! works on keys, caches what was loaded for each, and computes a closure in rounds.
//!
//! Promise: the universe and its graph are exact.
//!
//! The definitions and laws hold for any nodes, sources and edges, so they serve closures over names, over indices, and
//! over any part of the edges. A user shows what its sources and edges are, and cites the laws.
//!
//! - `closures`: closures whose nodes are loaded; one call loads all new nodes of a round, since loading takes time and
//!   can be spread over threads.
//! - `loads`: the trait of loaders.
//! - `names`: the nodes that a round names.
//! - `laws`: laws of closures.
//!
//! Code over indices, which can keep the nodes that it has found in a bit set, is in the crates that use it.
#![tactic(auto)]

mod closures;
mod laws;
mod loads;
mod names;
mod rounds;

pub use closures::{close_by_rounds, close_loaded};
pub use laws::{EdgeSet, NodeSet, closure_laws};
pub use loads::{ClosureFault, Loads, Round, load_each};
pub use names::others_named;
