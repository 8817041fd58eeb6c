//! The tree of a host: the files and links that a unit manager finds there. Each path has one content: the host's own,
//! or else the fleet's.
//!
//! Promise: the tree is exact.
//!
//! Where units are read, some contents are passed over (systemd.unit(5), "Unit File Load Path" and "Description"): under
//! a unit's own name a link to that name or to its template, among drop-ins a link to anything but `/dev/null`, and
//! among the links of units a file. Where the host's own content is one of these, the fleet's stands in its place,
//! unless that is passed over too.
//!
//! - `tree`: the tree of a host, or the tree without a host; `tree_store`: a store that shows just a tree.
//! - `is_crossed`: whether a unit has other drop-ins or links in the tree, read alone, than it has for the host.
//! - `tree_laws`, `part_laws`, `choice_laws` and `crossing_laws`: what the definitions imply.
#![tactic(auto)]

mod crossings;
mod laws;
mod links;
mod merged;
mod own_folders;
mod parts;
mod trees;

pub use crossings::is_crossed;
pub use laws::{choice_laws, crossing_laws, part_laws, tree_laws};
pub use trees::{tree, tree_store};
