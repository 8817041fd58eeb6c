//! Paths of the systemd unit load path (systemd.unit(5), "Unit File Load Path"): a directory, an optional folder, and a
//! name. A text is parsed into a path or refused with a named fault, and paths have a total order.
//!
//! Promise: refusals are named.
//!
//! `Path` is a parsed path, with `Path::parse` and access to its parts; `PathFault` says why a text was refused.
//! `is_component` says whether bytes are one component of a path.
//! `paths_are_their_texts` is the law that parsing and printing are inverses of each other.
#![tactic(auto)]

mod laws;
mod paths;
mod texts;

pub use laws::paths_are_their_texts;
pub use paths::{COMPONENT_LIMIT, Path, PathFault};
pub use texts::is_component;
