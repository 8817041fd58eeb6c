//! What is asked of a plan, and what it answers.
use plain_values::Items;
use replica_store::Viewer;
use thiserror::Error;
use unit_name::UnitName;

/// A request to start a unit while others are running. Names may be aliases, and the running ones may repeat.
#[derive(Debug)]
pub struct Request {
    /// Whose units are meant: those of a host or of the fleet, by these rules.
    pub viewer: Viewer,
    /// The unit that is to start.
    pub target: UnitName,
    /// The running units.
    pub running: Items<UnitName>,
}

impl Drop for Request {
    fn drop(self) {
        let Request {
            viewer: _,
            target: _,
            running: _,
        } = self;
    }
}

/// What is to be done. Stops come before starts.
#[derive(Debug)]
pub struct Plan {
    /// The units that stop, in byte order.
    pub stop: Items<UnitName>,
    /// The units that start, in start order.
    pub start: Items<UnitName>,
}

impl Drop for Plan {
    fn drop(self) {
        let Plan { stop: _, start: _ } = self;
    }
}

/// Why there is no plan: the first of these whose cause holds, in this order. `NotFound`, `Masked` and `Bad` are tested
/// for the target, and then for the least of the other units that it needs and that aren't loaded.
#[derive(Debug, Error, Drop)]
pub enum Refusal {
    /// The target or a running name is a template.
    #[error("P1 Template")]
    Template,
    /// No file or link defines this unit.
    #[error("P2 NotFound")]
    NotFound(UnitName),
    #[error("P3 Masked")]
    Masked(UnitName),
    #[error("P4 Bad")]
    Bad(UnitName),
    /// The target refuses to be started by hand.
    #[error("P5 ManualStart")]
    ManualStart,
    /// The least needed unit with a requisite that isn't running, and the least such requisite. For a manager such a
    /// requisite isn't pulled either.
    #[error("P6 Requisite")]
    Requisite(UnitName, UnitName),
    /// The least needed unit that conflicts with a needed one, and the least of these.
    #[error("P7 Conflict")]
    Conflict(UnitName, UnitName),
    /// Units that are to start and wait for each other, from the least on, each before the next.
    #[error("P8 Cycle")]
    Cycle(Items<UnitName>),
    #[error("out of memory")]
    Memory,
}
