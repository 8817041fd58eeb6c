//! A log of edits: what outlives a node's process of all that the node wrote and took. Edits are appended in groups, each
//! whole or not at all, and a group whose append was answered stays over every crash.
//!
//! Promise: what was answered lasts.
//!
//! What a log holds is said of its rows, and what a crash leaves of it as a set of outcomes, of which one comes true. The
//! premise of honest files (nothing else writes them, and each read gives back what was written) stands inside each
//! sentence that needs it.
//!
//! - `EditLog`: what a log does. `LogHead` is what it says of itself, `LogRow` an edit with the time of its commit, `LogPeer`
//!   a node that this one has met or was told of, and `LogFault` says why a log was not made, opened, read or appended to.
//! - `MemoryLog`: a log in memory, for tests, which fails at a step of one's choice.
//! - `Happening`, `answered_edits_stay`, `only_asked_edits`, `versions_are_made_once`, `lives_are_one_history`: the laws over
//!   all lives of a node, from crash to crash.
#![tactic(auto)]

mod happenings;
mod laws;
mod logs;
mod memory;

pub use happenings::Happening;
pub use laws::{
    answered_edits_stay, lives_are_one_history, only_asked_edits, versions_are_made_once,
};
pub use logs::{EditLog, LogFault, LogHead, LogPeer, LogRow};
pub use memory::MemoryLog;
