//! Sorted pairs in chunks: a first run of pairs and, past it, runs behind separators. A pair is added or taken away
//! with a move of at most one run's pairs, however many there are.
//!
//! Promise: merge is the least upper bound.
//!
//! - `Chunks`: the runs, which are searched, edited one at a time, and cut in two.
//! - `Position`: where a key stands, or where it would be inserted.
//! - `Pairs`: a cursor over the pairs, which also meets keys in ascending order.
//! - `Sought`: a key that is looked for, maybe in another form than the keys that are held.
#![tactic(auto)]

mod chunks;
mod cursors;
mod cuts;
mod searches;

pub use chunks::{Chunks, HALF, MOST, Position};
pub use cursors::Pairs;
pub use searches::{Sought, find_by, seek_by};
