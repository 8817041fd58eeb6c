//! A log of edits in an SQLite file, which SQLite's own programs open. Each edit is a row of the table `edit`, what the log
//! says of itself is the one row of `meta`, and each node that was met or told of is a row of `peer`.
//!
//! Promise: a commit is whole; a file opens as what it holds.
//!
//! Edits and peers are inserted and never changed, each group in one transaction. What a crash leaves of one, what an open finds, and
//! when a read gives other bytes than were written: the kit's crate `sqlite` says it, and each sentence here has its premise,
//! a clean disk.
//!
//! - `SqliteLog`: the log, over any store of the crate `sqlite`. `FileLog`: the log in a file, which `create` and `open` give; its
//!   `close` leaves one file.
//! - `remove`, `remove_write_ahead_log`: remove the files of a log, or the one that a closed log needs no longer.
//! - `FileLog::found_again`, `found_closed`: what an open finds is what a crash of an earlier log left, or its close.
#![tactic(auto)]

mod adding;
mod closing;
mod faults;
mod file_logs;
mod files;
mod log;
mod making;
mod peers;
mod reading;
mod removing;
mod schemas;
mod spelling;
mod values;

pub use closing::found_closed;
pub use file_logs::FileLog;
pub use files::{create, open};
pub use log::SqliteLog;
pub use removing::{remove, remove_write_ahead_log};
