//! What the programs that run test data share: the words of a line, and lines with their answers. It also has two
//! gates: one at which two workers wait for each other, which shows that they run at the same time, and one that counts
//! how often it is asked.
//!
//! Promise: none; no clause can say it.
//!
//! - `words`: `Words`, from which a call reads its arguments; `spelled` and `edits` read single words.
//! - `answers`: `Answer`, to which a call writes.
//! - `lines`: runs each line of a text.
//! - `gates`: the two gates.
//! - `faults`: `LineFault`.
#![tactic(auto)]

mod answers;
mod edits;
mod faults;
mod gates;
mod lines;
mod spelled;
mod words;

pub use answers::Answer;
pub use edits::{edit_of, placed_of, version_of};
pub use faults::LineFault;
pub use gates::{CountingGate, Meeting};
pub use lines::{answer_lines, work_input};
pub use spelled::{
    asked_of, byte_of, cut_at, each_of, index_of, is, number_of, parts_of, place_of, text_of,
    writer_of,
};
pub use words::Words;
