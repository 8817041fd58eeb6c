//! Which units a plan starts and stops, and why there may be no plan. The definitions are for any units; the code works
//! on indices, and a law carries its results over to names.
//!
//! Promise: the plan is exact.
//!
//! The target pulls what it needs, and over weak dependencies (`Wants=`) those units that are good, that is, that can
//! be started along with it. Of two pulled units in conflict one is dropped, with all units that need it. The rest is
//! chosen: it starts, and running units that conflict with it stop.
//!
//! By files alone (`Profile::Files`) running units pull others as well. A manager (`Profile::Manager`) leaves them as they
//! are, but for the target: they pull nothing, and no unit stops for them. Of the units that the target only wants it
//! drops those that lack a requisite.
//!
//! - `cases`: the input of a plan.
//! - `case_sets`: which weak dependencies are good, which units are pulled, dropped and chosen, why there is no plan, and
//!   the plan: `indexed_plan`.
#![tactic(auto)]

mod answers;
mod case_sets;
mod cases;

pub use answers::{IndexedPlan, PlanRefusal};
pub use case_sets::indexed_plan;
pub use cases::IndexedCase;
