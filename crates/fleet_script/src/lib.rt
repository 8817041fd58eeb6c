//! Scripts over named nodes: from the bytes of a script to the bytes of its answers. What a script is answered by
//! is a relation between scripts and answers over worlds of nodes and events (`specs/Scripts.antt`), and `run` is
//! proved against it.
//!
//! Promise: the script's answers; convergence.
//!
//! `run_kept` begins with a node that is there already, whose edits it keeps in a home (`Home`).
#![tactic(auto)]

mod faults;
mod laws;
mod running;
mod states;

pub use faults::ShellFault;
pub use laws::{readings_agree, script_laws};
pub use running::{run, run_kept};
pub use script_homes::{Home, KeptFault, Unkept};
