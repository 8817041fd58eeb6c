//! The order in which chosen nodes start, and what keeps some of them from starting. Each node starts after the chosen
//! nodes before it, and of the nodes that can start the least one is next.
//!
//! Promise: the plan is exact.
//!
//! Nodes that wait for each other are stuck; then one cycle among them is returned. The definitions are for any nodes.
//! The code works on indices, and a law carries its results over to names.
//!
//! - `orders`: the start order or the cycle.
//! - `counts`, `free`: how many nodes each node waits for, and which nodes can start.
//! - `cycles`: the cycle among stuck nodes.
#![tactic(auto)]

mod counts;
mod cycles;
mod free;
mod laws;
mod orders;

pub use laws::start_order_laws;
pub use orders::start_order;
