//! A fleet answers each question about a unit, about what a unit pulls and about a plan as a function of the edits that
//! the node took. Two nodes that took the same edits give the same unit with the same settings, and for every request
//! the same plan or refusal, with any number of workers.
//!
//! Promise: convergence.
//!
//! A question is put to a store, to a snapshot, which is the result of loading a store, or to a replica whose takes are
//! tracked, which reads again only what they touched. A question to a node of a world is put to its store, whatever was
//! put, asked, cut and given before, in whatever order.
#![tactic(auto)]

mod answers;
mod caches;
mod from_loads;
mod laws;
mod limits;
mod names;
mod questions;
mod renewing;
mod snapshots;
mod tracked;
mod worlds;

pub use answers::{answer_here, answer_question};
pub use caches::{MOST_SNAPSHOTS, MOST_TOUCHED};
pub use laws::answer_laws;
pub use limits::SnapshotLimit;
pub use questions::{Answer, AnswerFault, LinkedUnit, Question};
pub use snapshots::Snapshot;
pub use tracked::TrackedReplica;
pub use worlds::answer_in_world;
