//! The exchange of a node that lasts with a peer, over any two streams of bytes: each gets what it lacks of the other. The
//! sides speak in turns, so neither writes while the other does, and a pipe of any size carries them.
//!
//! Promise: a node loses nothing in an exchange; two files of one number are refused (`node_meetings`).
//!
//! A message goes as frames of at most a megabyte, each behind its length in four bytes. The entries of a frame are committed
//! before the next one is read: so an exchange that is cut off keeps what came whole, and needs memory for one frame of them.
//!
//! - `call`: begins, and `respond`: lets the peer begin. Each ends when one side asks for no answer.
//! - `knowing`: whom the node knows; `reading`, `saying`: frames on the streams; `hearing`: what is taken of a message; `turns`:
//!   who speaks when.
//! - `ExchangeFault`: why an exchange ended before that.
#![tactic(auto)]

mod faults;
mod hearing;
mod knowing;
mod reading;
mod saying;
mod turns;

pub use byte_fields::SpellingFault;
pub use faults::ExchangeFault;
pub use turns::{call, respond};
