//! Scripts over a node that lasts, which is `here` in them. An answer is written only when the edits of its line stand in the
//! node's log.
//!
//! Promise: the script's answers; what was answered lasts.
//!
//! What a script is answered by is a relation over worlds (`fleet_script`); a script over a log begins with the world in
//! which `here` has put each entry of what the log comes to.
//!
//! - `LastingHome`: a node, as the home of a script. `run_at`: answers a script there.
#![tactic(auto)]

mod homes;
mod running;

pub use homes::LastingHome;
pub use running::run_at;
