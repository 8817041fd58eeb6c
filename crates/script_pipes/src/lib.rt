//! Input and output of scripts: reads a whole script within limits, and writes the answers. A source and a sink count
//! failed calls, so that a contract can say that a fault occurs only if a call failed or a limit was exceeded.
//!
//! Promise: the script's answers.
//!
//! The contracts of std's readers and writers don't say whether a call failed, so `Watched` counts the calls of one and
//! makes it a `Source` or a `Sink`. `read_all` reads a script from a source, and `write_all` writes bytes to a sink.
#![tactic(auto)]

mod reading;
mod watching;
mod writing;

pub use reading::{MAX_READS, MAX_SCRIPT_BYTES, ReadFault, Source, read_all};
pub use watching::Watched;
pub use writing::{Sink, WriteFault, write_all};
