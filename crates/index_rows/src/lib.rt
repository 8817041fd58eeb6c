//! Graphs whose nodes are indices from 0: bit sets of nodes, edges as adjacency lists, and what is reached.
//! Reachability and distance are those of `name_closure`, for indices.
//!
//! Promise: the universe and its graph are exact.
//!
//! A set of nodes is a slice of booleans, one for each node. A node's adjacency list has the nodes to which an edge
//! leads from it, in any order; a node may be there more than once.
//!
//! - `bits`: bit sets.
//! - `adjacency`: adjacency lists of one kind of edge.
//! - `successors`: several kinds of edges, taken together.
//! - `closures`, `shortest`: what is reached, and at which distance.
#![tactic(auto)]

mod adjacency;
mod bits;
mod closures;
mod shortest;
mod successors;

pub use adjacency::{AdjacencyLists, put_in_order};
pub use bits::{empty_bits, first_member, least_member, lesser, members_of, non_members, without};
pub use closures::{closure, reached, reached_inside, reached_on};
pub use shortest::distances;
pub use successors::Successors;
