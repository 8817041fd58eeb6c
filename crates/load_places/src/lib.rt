//! Places: a path of the load path, for the whole fleet or for one host, at which an edit's content stands. A place's
//! level has precedence: of all that stands for a name, the first level that says something counts.
//!
//! Promise: places are their texts; units are exact.
//!
//! `Viewer` says who reads a store: whose places are seen, and by which rules units are loaded.
#![tactic(auto)]

mod hosts;
mod laws;
mod levels;
mod places;
mod viewers;

pub use hosts::{HOST_LIMIT, HostFault, HostName};
pub use laws::{level_laws, place_laws};
pub use levels::LEVELS;
pub use places::{Place, PlaceFault, Scope};
pub use viewers::Viewer;
