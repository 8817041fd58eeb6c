//! By which rules units are loaded: as their files say alone, or with what systemd's system manager adds of itself. Who
//! reads a store chooses one.
//!
//! Promise: units are exact.
//!
//! `Profile` names the two.
#![tactic(auto)]

mod profiles;

pub use profiles::Profile;
