//! A host's tree of unit files as files in a folder. A manifest beside them lists what was written.
//!
//! Promise: the tree is exact.
//!
//! The manifest is proved: its bytes list the paths, and no other bytes are read as it. What reaches the disk is tested.
//!
//! - `write_tree`: makes a folder hold a tree. `MANIFEST` is the name of its manifest.
//! - `manifest_of`, `paths_in`, `gone_from`: the manifest, what it lists, and what the next tree no longer has.
//! - `TreeFault`: why a tree was not written.
#![tactic(auto)]

mod faults;
mod files;
mod folders;
mod manifests;

pub use faults::TreeFault;
pub use folders::{MANIFEST, write_tree};
pub use manifests::{gone_from, manifest_of, paths_in};
