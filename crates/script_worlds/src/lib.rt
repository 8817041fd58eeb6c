//! The world that a script builds: its nodes, the events so far, and the named pieces; at first without nodes, or with one
//! that holds a store. The crate defines valid worlds, in which versions tell the edits of each place apart, and proves that
//! each step keeps a world valid; it has no other code.
//!
//! Promise: convergence.
//!
//! The definitions are in `specs/`: the world and its steps, valid worlds, and bounds of their counters.
#![tactic(auto)]
