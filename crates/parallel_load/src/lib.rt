//! All units that a manager must load from one store, and for each name the unit for which it stands. What is
//! loaded is a function of the store and of the names that are asked for, however many workers load.
//!
//! Promise: the universe and its graph are exact; any number of workers.
//!
//! The names are the least set that has those that are asked for and all at which something is visible, and that is
//! closed under what names stand for and what units name. For each name stands its unit, or the main name of which
//! it is an alias.
//!
//! `patches_for` and `refreshed_anew` are what `load_refreshes` refreshes a load by.
#![tactic(auto)]

mod affected_units;
mod asked;
mod faults;
mod finishing;
mod footprints;
mod held;
mod kept;
mod laws;
mod loaded;
mod loader;
mod loads;
mod mains;
mod patching;
mod refreshing;
mod search_prefixes;
mod secondary_names;
mod sources;
mod touched;
mod words;

pub use asked::are_sources;
pub use faults::LoadFault;
pub use finishing::copy_of_load;
pub use footprints::footprint;
pub use laws::{load_laws, stable_load_laws};
pub use loaded::{Dependency, Loaded, NameLoad, Patches};
pub use loads::{MOST_NAMES, load_fleet, load_here};
pub use refreshing::{patches_for, refreshed_anew};
pub use unit_loads::{Status, Unit, UnitNote, load_one};
pub use worker_rounds::{Gate, MOST_WORKERS, TURNS, is_worker_count};
