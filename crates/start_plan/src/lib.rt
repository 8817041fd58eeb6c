//! Start plans: which units start, in which order, and which stop. Where there is no plan, it returns exactly why: the
//! refusal whose cause is the first that holds.
//!
//! Promise: the plan is exact.
//!
//! By files alone running units pull others as well. A manager leaves them as they are, but for the target: they pull
//! nothing, and no unit stops for them.
//!
//! - `requests`: the types `Request`, `Plan` and `Refusal`.
//! - `planning`: `plan`, and `plan_by_index` for a graph by index.
//! - `checks`: whether a request names templates.
//! - `cases`, `bits`, `names`: a request by the indices of a graph, and the answer by name.
#![tactic(auto)]

mod bits;
mod cases;
mod checks;
mod laws;
mod names;
mod planning;
mod requests;

pub use checks::has_template;
pub use laws::plan_laws;
pub use planning::{plan, plan_by_index};
pub use requests::{Plan, Refusal, Request};
