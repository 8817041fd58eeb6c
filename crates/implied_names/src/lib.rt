//! What units imply: the names that a manager adds to those of a unit's files, whether the unit has default dependencies,
//! and the mounts that it comes after. All three are functions of the unit's name and its effective values.
//!
//! Promise: units are exact.
//!
//! The rules are those of the sections "Implicit Dependencies" and "Default Dependencies" in the page of each type of unit
//! (systemd.service(5), systemd.socket(5) and so on). They are in two tables; a unit is asked for the roles that it has.
//!
//! - `unit_facts`, `mounts`: what a unit's name and values say, read by `unit_values`.
//! - `paths`: paths and the units that are named after them.
//! - `roles`, `processes`, `mount_roles`: which roles a unit has.
//! - `sources`: which names a role gives; `tables`: by which kinds.
//! - `needed_paths`: the paths that a unit needs.
//! - `implied`: `Implied`, all that a unit implies. `laws`: laws of implied names.
#![tactic(auto)]

mod implied;
mod laws;
mod mount_roles;
mod mounts;
mod needed_paths;
mod paths;
mod processes;
mod roles;
mod sources;
mod tables;
mod unit_facts;

pub use implied::Implied;
pub use laws::implied_laws;
