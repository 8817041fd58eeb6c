//! Laws of plans: the contract of a function that does nothing.
ghost use Rattle.start_plan.specs.PlanLaws.{OneCase, OnePlan, OneRefusal, PerpetualUnitsNeverStop, PlanOrRefusal, PlansByFilesKeepPromises, PlansKeepPromises};

/// A load and a request determine one plan or one refusal, and not both, unless memory runs out. In a load of a store the
/// units that a plan chooses include the target. They are all loaded and they don't conflict. Each unit starts after all
/// started units that are to start before it. By files alone the chosen units include all that they need, and their
/// requisites are running. For a manager the running units that it leaves alone are excepted, and a requisite may be
/// pulled instead. What for a manager always runs never stops.
pub fn plan_laws()
    ensures plan { OnePlan }
    ensures refusal { OneRefusal }
    ensures either { PlanOrRefusal }
    ensures case { OneCase }
    ensures promises { PlansKeepPromises }
    ensures by_files { PlansByFilesKeepPromises }
    ensures perpetual { PerpetualUnitsNeverStop }
{}
