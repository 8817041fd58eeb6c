//! A node that lasts: a replica in memory, and a log that holds its edits over every crash. What the node does changes the
//! replica alone, and a commit writes what the log lacks, in one transaction.
//!
//! Promise: a file opens as what it holds; a commit is whole; compaction keeps the sum.
//!
//! Whatever crashes, the next open holds every edit of every commit that was answered, of the one in flight all edits or
//! none, and nothing else; so no version is given twice. `edit_log` has the laws over all lives of a node.
//!
//! - `NodeFile`: a node over a log. `open` makes one of a log; `put`, `remove` and `take` change it; `commit`, `history`,
//!   `histories` and `compact_into` use the log. `note_peers` and `peers` keep and tell whom the node has met.
//! - `NodeFault`: why a call was refused. `Logged`: an edit of a place's history; `LoggedAt`: with its place.
#![tactic(auto)]

mod changes;
mod commits;
mod compaction;
mod faults;
mod histories;
mod logs;
mod nodes;
mod opening;
mod peers;
mod takes;

pub use edit_log::{EditLog, LogFault, LogHead, LogPeer, LogRow};
pub use faults::NodeFault;
pub use histories::Logged;
pub use logs::LoggedAt;
pub use nodes::{FORMAT, NodeFile};
