//! The dependencies between the units of a load, in both directions. The edges of a kind from a unit lead to what it
//! has as a dependency by that kind, and to all that have it by the inverse kind, whether or not they are planned for.
//!
//! Promise: the universe and its graph are exact.
//!
//! A unit's files name others by a kind, and the other unit then has the inverse of that kind. By files these are all
//! dependencies. For a manager there are also those that need two units: a unit comes after the mounts on the way to its
//! paths (systemd.unit(5), "RequiresMountsFor="), and a target after what it pulls (systemd.target(5), "Default
//! Dependencies").
//!
//! - `edge_table`, `links`: the edges of a load by index, `EdgeTable`.
//! - `rows`: the dependencies of each unit by index; `mounts`, `following`: those that need two units.
//! - `unit_edges`: the edges of one unit by name.
//! - `building`, `lists`: all edges by name, `Edges`.
//! - `indices`: indices of names.
//! - `laws`: laws of edges.
#![tactic(auto)]

mod building;
mod edge_table;
mod following;
mod indices;
mod laws;
mod links;
mod lists;
mod mounts;
mod rows;
mod unit_edges;

pub use building::edges;
pub use edge_table::EdgeTable;
pub use indices::{index_of, main_index, names_at};
pub use laws::edge_laws;
pub use lists::Edges;
pub use unit_edges::{edges_at, edges_of};
