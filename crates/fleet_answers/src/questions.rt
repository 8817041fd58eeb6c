//! Questions about a store, and their answers.
ghost use Rattle.std.specs.{Prelude.{◌≡◌}};
ghost use Rattle.fleet_answers.specs.Answers.{viewer_asked};

use plain_values::{Items, Shared};
use replica_store::Viewer;
use setting_rules::DependencyList;
use start_plan::{Plan, Refusal, Request};
use thiserror::Error;
use unit_loads::Unit;
use unit_name::UnitName;

/// A question about a store, for one host or without a host, and by which rules. Names may be aliases.
#[derive(Debug)]
pub enum Question {
    /// Which unit a name resolves to, what it depends on, and what depends on it.
    Unit { viewer: Viewer, name: UnitName },
    /// Which units the unit of a name pulls, and their distances.
    Pulled { viewer: Viewer, name: UnitName },
    /// Which units start and which stop for a request.
    Plan(Request),
    /// All units, with what each depends on and what depends on it.
    Units { viewer: Viewer },
}

impl Drop for Question {
    fn drop(self) {
        match self {
            Question::Unit { viewer: _, name: _ } => (),
            Question::Pulled { viewer: _, name: _ } => (),
            Question::Plan(_) => (),
            Question::Units { viewer: _ } => (),
        }
    }
}

impl Question {
    /// Who asks: a host's manager or one without a host, and by which rules. Allocates nothing.
    pub fn viewer(&self) -> &Viewer
        ensures viewer { result.now ≡ viewer_asked self.now }
    {
        match self {
            Question::Unit { viewer, .. } | Question::Pulled { viewer, .. } => viewer,
            Question::Plan(request) => &request.viewer,
            Question::Units { viewer } => viewer,
        }
    }
}

/// A unit with its edges.
#[derive(Debug)]
pub struct LinkedUnit {
    /// The unit, shared with the load. Its dependencies are given by main names.
    pub unit: Shared<Unit>,
    /// For each kind, in the order of the kinds, the units to which edges of that kind lead, in byte order: those that
    /// the unit names, and those that name it by the inverse kind.
    pub edges: Items<DependencyList>,
}

impl Drop for LinkedUnit {
    fn drop(self) {
        let LinkedUnit { unit: _, edges: _ } = self;
    }
}

/// An answer.
#[derive(Debug, Drop)]
pub enum Answer {
    /// P1: a name that is asked for is a template. Nothing was loaded.
    Template,
    /// L2: more than 4,096 names must be loaded, aliases included.
    TooManyUnits,
    /// The unit, with its edges.
    Unit(LinkedUnit),
    /// The units that are pulled over `Requires`, `Requisite`, `BindsTo`, `Wants` and `Upholds`, with the unit itself,
    /// each with its least distance. Ordered by distance, then by name.
    Pulled(Items<(u64, UnitName)>),
    /// Which units stop, and which start.
    Planned(Plan),
    /// The first reason why there is no plan. Never a template, and never that memory ran out.
    Refused(Refusal),
    /// All units of the load, in byte order, each with its edges: those with files, and those that are only named.
    Units(Items<LinkedUnit>),
}

/// Why there is no answer.
#[derive(Clone, Copy, Debug, PartialEq, Eq, Error)]
pub enum AnswerFault {
    /// L1: the number of workers isn't 1 to 64.
    #[error("L1 Workers")]
    Workers,
    /// Memory ran out.
    #[error("out of memory")]
    Memory,
}
