//! Decides what a unit name resolves to: its main file (the fragment), a mask or an alias, and which names a unit has.
//! The rules are those of systemd.unit(5), "Unit File Load Path" and "Description".
//!
//! Promise: units are exact.
//!
//! - `choose` and `Choice`: what the load path gives for one name; `Cause`: why a link makes a unit bad.
//! - `resolve` and `Resolution`: follows a name's aliases to the unit's main name.
//! - `names_of`: all names of a unit.
//! - `AliasIndex`: an index of a store's aliases, made once, that resolves many names and lists the names of many
//!   units.
//! - `LinkTargets`: what a name's own paths say of aliases.
//! - `choice_laws` and `alias_laws`: what the definitions imply.
#![tactic(auto)]

mod aliases;
mod choices;
mod laws;
mod link_targets;
mod links;
mod names;
mod resolutions;

pub use aliases::AliasIndex;
pub use choices::{Cause, Choice, choose};
pub use laws::{alias_laws, choice_laws};
pub use link_targets::LinkTargets;
pub use names::names_of;
pub use resolutions::{Resolution, resolve};
