//! What planning returns.

use plain_values::Items;

/// The units that stop, in ascending order, and then the units that start, in their start order.
#[derive(Debug)]
pub struct IndexedPlan {
    pub stops: Vec<usize>,
    pub starts: Vec<usize>,
}

impl Drop for IndexedPlan {
    fn drop(self) {
        let IndexedPlan {
            stops: _,
            starts: _,
        } = self;
    }
}

/// Why there is no plan, by indices or by names of units, in the order in which the causes are tested.
#[derive(Debug)]
pub enum PlanRefusal<N: Drop> {
    /// The target isn't loaded.
    Target(N),
    /// The least needed unit that isn't loaded.
    Need(N),
    /// The target refuses to be started by hand.
    ManualStart,
    /// The least needed unit with a requisite that doesn't run and, for a manager, isn't pulled either, and the least
    /// such requisite.
    Requisite(N, N),
    /// The least needed unit that conflicts with a needed one, and the least of these.
    Conflict(N, N),
    /// Units that are to start and wait for each other, from the least on, each before the next.
    Cycle(Items<N>),
}

impl<N: Drop> Drop for PlanRefusal<N> {
    fn drop(self) {
        match self {
            PlanRefusal::Target(_) => (),
            PlanRefusal::Need(_) => (),
            PlanRefusal::ManualStart => (),
            PlanRefusal::Requisite(_, _) => (),
            PlanRefusal::Conflict(_, _) => (),
            PlanRefusal::Cycle(_) => (),
        }
    }
}
