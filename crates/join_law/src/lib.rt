//! Values with a join: the trait `Join` with its laws, entries with versions, and sorted pairs that are joined key by
//! key. Joining the same values gives the same result in whatever order they arrive.
//!
//! Promise: merge is the least upper bound.
//!
//! A join semilattice is an order in which any two values have a least upper bound, their join. Replicas whose states
//! form one reach the same state in whatever order they receive each other's state (Shapiro, Preguica, Baquero,
//! Zawirski, "Conflict-free Replicated Data Types", 2011).
//!
//! - `Join`: the trait; `Rest`: what a failed join leaves to do.
//! - `Version`, `Entry` and `Versioned`: a last-writer-wins register.
//! - `Change` and `Overwrite`: changes a value that is already held, in place.
//! - `join_pair`, `join_value` and `insert_pair`: joins one pair into sorted pairs. The maps of `join_maps` are made of such.
#![tactic(auto)]

mod changes;
mod edits;
mod inserts;
mod joins;
mod versions;

pub use changes::{Change, Overwrite};
pub use edits::{join_pair, join_value};
pub use inserts::insert_pair;
pub use joins::{Join, Rest};
pub use plain_values::Key;
pub use versions::{Entry, Version, Versioned};
