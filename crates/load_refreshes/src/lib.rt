//! Refreshes a load after few changes: units that changed are read again, and all others stay. The result is the load
//! that would be made anew.
//!
//! Promise: a refreshed load is the load.
//!
//! `refresh` makes the new load beside the old one, with its units shared; `refresh_in_place` takes the old one, and says
//! as `Refreshed` whether it was changed in place. What is read again `parallel_load` decides (`refreshing`).
#![tactic(auto)]

mod refreshing;

pub use refreshing::{Refreshed, refresh, refresh_in_place};
