//! The names of systemd units: their parts, escaping and specifiers, as in systemd.unit(5). A name is parsed from
//! bytes, or the first fault in them is returned.
//!
//! Promise: names and files are read exactly.
//!
//! - `UnitName`: a parsed name with its `Kind` and `Shape` (plain, template or instance); `NameFault` says why bytes
//!   aren't a name.
//! - `escape` and `unescape`: bytes to escaped text and back.
//! - `expand`: replaces specifiers such as `%n` and `%i` in a value.
//! - `name_laws`: the laws.
#![tactic(auto)]

mod escapes;
mod kinds;
mod laws;
mod names;
mod parts;
mod specifiers;

pub use escapes::{escape, unescape};
pub use kinds::Kind;
pub use laws::name_laws;
pub use names::{NameFault, Shape, UnitName};
pub use specifiers::{ExpandFault, expand};
