//! The commands of a script: what a line asks for, and why a line is refused. Parsing depends on the line alone
//! (`specs/Commands.antt`), not on any node.
//!
//! Promise: the script's answers; refusals are named.
//!
//! - `parse` returns the `Command` of a line, or a `LineRefusal`.
//! - `read_place`, `read_places`, `read_file`, `read_link` and `read_host` parse the words of a command; a `Fault` is a
//!   refusal or `Memory`.
//! - `commands_read_back` is the law that written commands are read back.
#![tactic(auto)]

mod commands;
mod edit_counts;
mod fields;
mod host_words;
mod laws;
mod parsing;
mod place_words;
mod profile_words;

pub use commands::{Command, Fault, Inquiry, LineRefusal, Word, Words};
pub use edit_counts::EditCount;
pub use host_words::read_host;
pub use laws::commands_read_back;
pub use parsing::parse;
pub use place_words::{read_file, read_link, read_place, read_places};
