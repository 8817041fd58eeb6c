//! A node's replica is shared by threads, and its readers take no lock. Contracts describe what each seat sees, what it
//! was answered, and the counts at the end by the node's history (`node_histories`).
//!
//! Promise: a view is a sum of a history; an answered edit stands in the history; what a refused take leaves; the
//! count at close is exact; equal histories, equal answers; readers take no lock.
//!
//! A `Node` has its replica behind a lock, and publishes each version of it as one of two copies. Readers enter a copy
//! without a lock, without waiting and without allocating. Threads hold `Seat`s: a seat edits and absorbs under the
//! lock, and views what is published. The history has all takes in order, each a seat's edit or a piece that a seat
//! absorbed.
#![tactic(auto)]

mod account;
mod audit;
mod blank;
mod fault_names;
mod faults;
mod keeper;
mod laws;
mod node;
mod post;
mod reader_view;
mod seat;
mod serving;
mod takes;

pub use blank::{Blank, BlankFault, MOST_SEATS};
pub use faults::{CloseCause, NodeFault};
pub use laws::views_of_same_edits;
pub use node::{CloseFault, Closed, Node};
pub use node_histories::{HistoryEvent, NodeName};
pub use post::Told;
pub use seat::{NoEntry, Seat, View};
pub use serving::{Message, Served, serve};
