//! Nodes in files: a node whose log is the SQLite file at a path. They are made, opened and compacted here.
//!
//! Promise: a file opens as what it holds; compaction keeps the sum.
//!
//! These are the few functions of a node that touch real files; what a node does is `durable_node`'s, over any log. Each
//! sentence on what a file holds has the premise of honest files: nothing else writes them, and each read gives back what was
//! written (`HasCleanDisk`, `AreClean`). A parameter `S: Start` stands for what the files held; a program gives `Unknown`.
//!
//! - `create` and `open`: make and open the node at a path. `PathNode` and `PathLog` are their types.
//! - `compact`: writes each place's entry once into a file beside a node's, and renames it over that. `prepare` does all but
//!   the rename, and `Compacted` the rename.
#![tactic(auto)]

mod compaction;
mod names;
mod opening;

pub use compaction::{Compacted, compact, prepare};
pub use durable_node::NodeFault;
pub use opening::{PathLog, PathNode, create, open};
