//! How what stands at a place is written: a file as `systemctl cat` writes it, a link with its target. The command `text`
//! answers with it.
//!
//! Promise: the script's answers.
//!
//! - `render_text`: the answer for a place that a text writes.
//! - `append_file`, `append_shown`: a file, and any content, behind other text.
#![tactic(auto)]

mod texts;

pub use texts::{append_file, append_shown, render_text};
