//! The entries of a node's store, kept in nested maps: by scope, rank, folder and name. Contracts see them as one map
//! from places to entries.
//!
//! Promise: the store is its map.
//!
//! - `Store`: joins edits and other stores, and answers look-ups; `ScopeMap`, `RankMap`, `FolderMap` and `NameMap` are
//!   its nested maps.
//! - `Entries` and `Placed`: a store's entries in place order, each with its place.
//! - `Zipped`: a store's entries in place order, each with what another store holds at its place.
//! - `HostView`, `HostViewEntries` and `HostViewEntry`: what a host sees of a store, or what is seen without a host, by level,
//!   folder and name.
//! - `host_view_laws`: the laws of what a host sees.
#![tactic(auto)]

mod changes;
mod counts;
mod cursors;
mod differences;
mod entries;
mod folders;
mod held;
mod laws;
mod levels;
mod look_ups;
mod nested;
mod others;
mod places;
mod places_zipped;
mod stores;
mod together;
mod view;

pub use folders::{FolderMap, NameMap};
pub use laws::host_view_laws;
pub use places::{Entries, Placed};
pub use places_zipped::Zipped;
pub use stores::{RankMap, ScopeMap, Store};
pub use view::{HostView, HostViewEntries, HostViewEntry};
