//! One unit of a store: its names, its fragment, its drop-ins, and the effective settings of these files and of its
//! links. The unit is a function of the store.
//!
//! Promise: units are exact.
//!
//! A load of all units of a store makes one of these calls for each unit. A store has one unit for each main name.
//!
//! - `units`: the types `Unit`, `Status` and `UnitNote`.
//! - `loads`: `load_unit` and its variants.
//! - `found`, `files`, `links`, `dependencies`, `effective`: how a unit's files and links are read.
//! - `laws`: laws of units.
#![tactic(auto)]

mod dependencies;
mod effective;
mod files;
mod found;
mod laws;
mod links;
mod loads;
mod units;

pub use laws::unit_laws;
pub use loads::{load_named, load_one, load_resolved, load_unit};
pub use units::{Status, Unit, UnitNote};
