//! A replica is what one node holds of the edits of a whole fleet, and the number under which the node writes. Its
//! store is a finite map from places to entries: the sum of the edits that it took, the greatest one at each place.
//!
//! Promise: the store is its map; a refused edit changes nothing.
//!
//! `Replica` puts and removes contents under versions of its own, and joins other stores; `EditFault` says why an edit
//! was refused. Joining two stores gives their least upper bound (Shapiro, Preguica, Baquero, Zawirski, "Conflict-free
//! Replicated Data Types", 2011).
//!
//! The crate also exports the types of the crates below it that a user of replicas needs: contents, edits, versions,
//! paths, places, hosts, viewers, `Store` and its cursors.
#![tactic(auto)]

mod replicas;

pub use edit_sums::{Content, ContentFault, Edit, Entry, FileBytes, FlatEdit, LinkTarget};
pub use join_law::{Rest, Version};
pub use load_path::{Path, PathFault};
pub use load_places::{HOST_LIMIT, HostFault, HostName, Place, PlaceFault, Scope, Viewer};
pub use path_maps::{
    Entries, FolderMap, HostView, HostViewEntries, HostViewEntry, NameMap, Placed, RankMap,
    ScopeMap, Store, Zipped,
};
pub use replicas::{EditFault, Replica};
