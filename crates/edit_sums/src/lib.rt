//! Edits of unit files, the sum of a list of edits, and the laws of sums. A store holds the sum of the edits that it
//! received: at each place the greatest one, so the last writer wins.
//!
//! Promise: merge is the least upper bound; the store is its map.
//!
//! Sums are defined from the list of edits alone, without any store.
//!
//! - `Content`: a file, a link or a removal; `ContentFault` says why bytes can't become one.
//! - `Edit` and `Entry`: a write to a place, and what a store holds at a place; `FlatEdit`: an edit without a host.
//! - `sum_laws`, `joins_of_stores`: the laws.
#![tactic(auto)]

mod contents;
mod entries;
mod laws;

pub use contents::{Content, ContentFault, FILE_LIMIT, FileBytes, LinkTarget, TARGET_LIMIT};
pub use entries::{Edit, Entry, FlatEdit};
pub use laws::{joins_of_stores, sum_laws};
