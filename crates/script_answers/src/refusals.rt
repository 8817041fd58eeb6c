//! Refusals of plans.
ghost use Rattle.std.specs.Prelude.{◌≡◌};
ghost use Rattle.script_answers.specs.Plans.{fault_of_plan};

use script_commands::{Fault, LineRefusal};
use start_plan::Refusal as PlanRefusal;

/// Returns a plan's refusal as a fault of a command.
pub(crate) fn fault_of_plan(refusal: PlanRefusal) -> Fault
    ensures fault { result ≡ fault_of_plan refusal }
{
    match refusal {
        PlanRefusal::Template => Fault::Refused(LineRefusal::Template),
        PlanRefusal::NotFound(unit) => Fault::Refused(LineRefusal::NotFound(unit)),
        PlanRefusal::Masked(unit) => Fault::Refused(LineRefusal::Masked(unit)),
        PlanRefusal::Bad(unit) => Fault::Refused(LineRefusal::Bad(unit)),
        PlanRefusal::ManualStart => Fault::Refused(LineRefusal::ManualStart),
        PlanRefusal::Requisite(unit, needs) => Fault::Refused(LineRefusal::Requisite(unit, needs)),
        PlanRefusal::Conflict(unit, conflicting_unit) => Fault::Refused(LineRefusal::Conflict(
            unit,
            conflicting_unit,
        )),
        PlanRefusal::Cycle(units) => Fault::Refused(LineRefusal::Cycle(units)),
        PlanRefusal::Memory => Fault::Memory,
    }
}
