//! Frames of an exchange as bytes. Each has one string of bytes, and no other string is read as it; docs/FORMAT.md says
//! which, so that another program can write and read them.
//!
//! Promise: one spelling each; bytes are read exactly; frames say what the message says.
//!
//! Two sides that compare their replicas send each other messages. A message goes as a list of frames, each of which is
//! short, and says whether more come. A range in a frame costs one bound where it begins at the end of the range before it,
//! as the parts of a range that is cut do.
//!
//! - `frames`, `peers`: the values. `Hello` stands in a side's first frame.
//! - `frame_to_bytes`, `frame_from_bytes`: whole frames. `frames_are_one_to_one` is their law.
//! - `frames_of`: a message, cut into frames. `frames_are_short` says how long they are.
//! - `DecodeFault` and `SpellingFault`: why bytes can't be read.
#![tactic(auto)]

mod cutting;
mod frames;
mod laws;
mod peers;
mod reading;
mod spelled;
mod writing;

pub use byte_fields::{DecodeFault, SpellingFault};
pub use cutting::{FRAME_LIMIT, frames_of};
pub use frames::{Frame, Hello};
pub use laws::{frames_are_one_to_one, frames_are_short};
pub use peers::{Peer, Peers};
pub use spelled::{frame_from_bytes, frame_to_bytes};
