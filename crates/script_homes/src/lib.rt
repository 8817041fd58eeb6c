//! Where what a script's first node holds is kept while the script runs, over crashes too. Answers are written only when what
//! their lines did is kept.
//!
//! Promise: what was answered lasts.
//!
//! - `Home`: keeps stores, and says what is found of them later. `Nowhere`: keeps nothing, for scripts without a home.
//! - `write_kept`: has a home keep a store, and only then writes answers. `give_up`: what is written when memory ran out.
//! - `KeptFault`: why a script was not answered to its end.
#![tactic(auto)]

mod faults;
mod homes;
mod writing;

pub use faults::KeptFault;
pub use homes::{Home, Nowhere, Unkept};
pub use writing::{give_up, write_kept};
