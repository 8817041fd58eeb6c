//! A node's history is what the node opened over, and then its takes, one after another. A `HistoryPrefix` is a token of a
//! prefix of it that was seen, and a `PublishedCopy`, a published copy, is a replica with a token of the history whose sum its
//! store is.
//!
//! Promise: a view is a sum of a history; an answered edit stands in the history.
//!
//! A history is a list of events that exists only in proofs, in a log of `logbook`. A `HistoryPrefix` has no more bytes than a
//! number, and copies of it allocate nothing. Of two of one node the shorter is a prefix of the longer. Whoever reads a
//! published copy has, by its type, the sum of a valid history.
#![tactic(auto)]

mod book;
mod events;
mod laws;
mod prefixes;
mod published_copy;

pub use book::{Head, History, Law, Name, NodeName};
pub use events::HistoryEvent;
pub use laws::history_laws;
pub use prefixes::HistoryPrefix;
pub use published_copy::PublishedCopy;
