//! What two sides say in turns until their replicas hold the same. A side keeps nothing about the other: all that it says
//! follows from its replica, from the seed of the session and from what was said to it.
//!
//! Promise: what is answered in an exchange is what a world cuts.
//!
//! A message tells prints of ranges, asks for ranges, and brings pieces. The first tells the print of everything (`open`).
//! To each, `reply` takes the pieces, and then says something to each print that isn't the replica's own and to each ask.
//! A message without prints and asks needs no answer (`is_quiet`). Because each side speaks only when it was spoken to, both
//! are never writing at once.
//!
//! - `messages`: `Message`, `RangePrint`, `RangeAsk`.
//! - `replies`: `open`, `answer` and `reply`; `comparing` has what is said to prints, and `asking` what is said to asks.
//! - `session_laws`: a piece that answers an ask is a cut of the world for the ask of which it was told a part.
#![tactic(auto)]

mod asking;
mod comparing;
mod laws;
mod messages;
mod reconciling;
mod replies;

pub use laws::session_laws;
pub use messages::{Message, RangeAsk, RangePrint};
pub use reconciling::reconcile;
pub use replies::{answer, open, reply};
