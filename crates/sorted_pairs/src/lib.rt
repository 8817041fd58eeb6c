//! Key-value pairs in a vector sorted by key. The crate has a binary search among them, and the steps of one linear
//! pass that merges a second sorted list into them.
//!
//! Promise: merge is the least upper bound.
//!
//! `seek` finds the index of a key, or where it belongs. `pass_below` and `pass_all` move pairs from the list that is
//! still ahead to the list of those already passed.
#![tactic(auto)]

mod passes;
mod places;

pub use passes::{pass_all, pass_below};
pub use places::seek;
