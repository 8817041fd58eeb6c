//! What a manager adds of itself to a loaded unit: the names that the unit implies, whether it has default dependencies,
//! and its mounts. By files alone nothing is added.
//!
//! Promise: units are exact.
//!
//! `Additions` has what is added besides names; `Additions::make` makes it, and adds the names to a unit's lists, to each
//! those of its kind.
#![tactic(auto)]

mod additions;

pub use additions::Additions;
