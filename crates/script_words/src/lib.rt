//! The lines of a script, the words of a line, and what words spell: numbers, names and escaped text. Nothing here
//! knows the commands.
//!
//! Promise: the script's answers.
//!
//! Each function takes bytes and returns a borrowed part of them or a value; only `unescape` allocates. `cut_line` and
//! `cut_word` split off the first line and the first word, `text_of_rest` returns the text after a word, and
//! `parse_number`, `is_name` and `unescape` read a word or a text. The laws say that what is written is read back.
#![tactic(auto)]

mod laws;
mod lines;
mod names;
mod numbers;
mod text;
mod words;

pub use laws::script_laws;
pub use lines::{cut_line, is_passed_over};
pub use names::is_name;
pub use numbers::parse_number;
pub use text::unescape;
pub use words::{cut_word, text_of_rest};
