//! Evaluation of a unit's assignments: the effective values of each key, and the units that it depends on. An empty
//! value resets a list, except for dependencies; of booleans the last valid one counts; specifiers of the unit's name
//! are expanded.
//!
//! Promise: units are exact.
//!
//! The rules are those of systemd.unit(5), systemd.service(5) and systemd.syntax(7). They depend on a `Profile`: a
//! manager reads four keys otherwise than files alone.
//!
//! - `apply` evaluates assignments to `Settings`, a `SettingMap` from `SettingKey` to effective values.
//! - `values` expands the specifiers in these values.
//! - `dependencies` returns the named units for each `DepKind`; `for_unit` resolves a template that a unit names.
//! - `refuses_manual_start` evaluates `RefuseManualStart`.
//! - `SettingNote` and `SettingNoteKind` say what is wrong with a value.
#![tactic(auto)]

mod booleans;
mod dependency_lists;
mod expansions;
mod keys;
mod kinds;
mod laws;
mod maps;
mod named_units;
mod names;
mod notes;
mod rows;
mod rules;
mod settings;
mod switches;
mod word_lists;
mod word_names;

pub use booleans::boolean;
pub use dependency_lists::{Dependencies, DependencyList, in_byte_order};
pub use expansions::values;
pub use keys::SettingKey;
pub use kinds::DepKind;
pub use laws::setting_laws;
pub use maps::SettingMap;
pub use named_units::dependencies;
pub use names::for_unit;
pub use notes::{SettingNote, SettingNoteKind};
pub use rows::{Row, Values};
pub use settings::{Settings, apply};
pub use switches::refuses_manual_start;
pub use word_lists::words;
