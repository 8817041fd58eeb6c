//! What an operator asks of a node that lasts: its digest, its store, what another node lacks of it, what it takes of another,
//! its identity, its log, and whom it knows. All stand over any log, any reader and any writer.
//!
//! Promise: bytes are read exactly; a commit is whole.
//!
//! - `write_digest`, `write_store`, `write_id`: write what the node holds, in the bytes of `store_bytes`.
//! - `read_digest`, `read_piece`: read what another node sent.
//! - `write_delta`: writes the piece that a digest's owner lacks. `take_piece`: takes a piece, commits it, and tells how many
//!   places that changed.
//! - `write_history`, `write_log`: write a line for each edit of a place, or of all, that stands in the log. `write_content`: writes
//!   what one of these put.
//! - `write_peers`: writes a line for the node itself, and for each that it knows.
//! - `Work`, `do_work`: each of these as a value, and what does it.
//! - `CommandFault`: why a command was not done.
#![tactic(auto)]

mod contents;
mod exchanges;
mod faults;
mod histories;
mod inputs;
mod logs;
mod outputs;
mod peers;
mod works;

pub use byte_fields::SpellingFault;
pub use contents::write_content;
pub use exchanges::{take_piece, write_delta};
pub use faults::CommandFault;
pub use histories::write_history;
pub use inputs::{MAX_INPUT_BYTES, read_digest, read_piece};
pub use logs::write_log;
pub use outputs::{write_digest, write_id, write_store};
pub use peers::write_peers;
pub use works::{Work, do_work};
