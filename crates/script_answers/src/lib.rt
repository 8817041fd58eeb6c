//! How a script's answers are written: what a node holds, units and their files, what they pull, plans and crowds. The
//! layers below compute the answers; this crate renders them as text.
//!
//! Promise: the script's answers.
//!
//! - `asking`, `requests`: an inquiry, from its words to its answer.
//! - `unit_lines`, `pulled_lines`, `plan_lines`, `files`, `trees`: the text of each kind of answer.
//! - `answers`, `names`, `refusals`: single lines, names and refusals.
//! - `crews`, `crowding`: the number of workers, and crowds.
//! - `rendering_laws`: each question has one answer.
#![tactic(auto)]

mod answers;
mod asking;
mod crowding;
mod files;
mod laws;
mod names;
mod plan_lines;
mod pulled_lines;
mod refusals;
mod requests;
mod trees;
mod unit_lines;
mod worker_counts;

pub use answers::{list_files, merge_done, part_done, put_done, refused};
pub use asking::render_inquiry;
pub use crowding::render_crowd;
pub use files::render_files;
pub use laws::rendering_laws;
pub use worker_counts::WorkerCount;
