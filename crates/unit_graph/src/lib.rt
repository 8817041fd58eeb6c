//! The graph of a load: its names indexed in byte order, and the edges of each kind from each unit. What is reached
//! from a unit, and at which distance, is returned by name; a planner uses the edges by index.
//!
//! Promise: the universe and its graph are exact.
//!
//! - `graph`: `Graph`, which borrows a load and its edges by name.
//! - `indexed_graph`: `IndexedGraph`, which borrows a load and its edges by index: adjacency lists, reachability and
//!   distances.
#![tactic(auto)]

mod graph;
mod indexed_graph;
mod laws;

pub use graph::Graph;
pub use indexed_graph::IndexedGraph;
pub use laws::graph_laws;
