//! A reader of unit files: it returns the assignments of each section, and notes on lines that are wrong. The syntax is
//! that of systemd.syntax(7), "Introduction"; this project decides what that page leaves open.
//!
//! Promise: names and files are read exactly.
//!
//! The crate doesn't know what a section or a key means. `read` takes bytes, returns `Sections` with an `Assignment` or
//! a `Note` for each line that has one, and fails only if memory runs out. `file_laws` say how comments,
//! blank lines and joined lines are read, and that written sections are read back.
#![tactic(auto)]

mod assignments;
mod laws;
mod lines;
mod logical;
mod parts;
mod places;
mod reader;
mod sections;

pub use assignments::{Assignment, Note, NoteKind};
pub use laws::file_laws;
pub use plain_values::Bytes;
pub use reader::read;
pub use sections::Sections;
