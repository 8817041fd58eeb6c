//! A plan's indices are turned into names.
ghost use Rattle.std.specs.Prelude.{◌≡◌, ◌<◌, ℕ, Some, All, IfOk, false, map};
ghost use Rattle.parallel_load.specs.Loads.{unit_in};
ghost use Rattle.inverse_deps.specs.{Edges.{IsUnitIn}, Indices.{count_of, name_at}};
ghost use Rattle.start_plan.specs.{Requests.{is_loaded}, ReturnedRefusals.{IsFaultOf, IsReturnedBy, IsReturnable}};

use crate::requests::{Plan, Refusal};
use inverse_deps::names_at;
use parallel_load::{Loaded, NameLoad, Status};
use plain_values::Items;
use plan_choice::{IndexedPlan, PlanRefusal};
use std::alloc::{AllocError, Global};
use unit_name::UnitName;

// A plan, by name.
pub(crate) fn named_plan(
    alloc: Global,
    loaded: &Loaded,
    plan: &IndexedPlan,
) -> Result<Plan, AllocError>
    requires stops { All (λ i. i < count_of loaded.now) plan.now.stops.items }
    requires starts { All (λ i. i < count_of loaded.now) plan.now.starts.items }
    ensures stop { IfOk result
        (λ named. named.stop ≡ map (name_at loaded.now) plan.now.stops.items) }
    ensures start { IfOk result
        (λ named. named.start ≡ map (name_at loaded.now) plan.now.starts.items) }
{
    let stop = Items::from_vec(names_at(alloc, loaded, &plan.stops)?);
    let start = Items::from_vec(names_at(alloc, loaded, &plan.starts)?);
    Ok(Plan { stop, start })
}

// A refusal, by name.
pub(crate) fn named_refusal(
    alloc: Global,
    loaded: &Loaded,
    refusal: &PlanRefusal<usize>,
) -> Result<Refusal, AllocError>
    requires indices { IsReturnable loaded.now refusal.now }
    ensures returned { IfOk result (IsReturnedBy loaded.now refusal.now) }
{
    match refusal {
        PlanRefusal::Target(unit) => Ok(fault(loaded, *unit)?),
        PlanRefusal::Need(unit) => Ok(fault(loaded, *unit)?),
        PlanRefusal::ManualStart => Ok(Refusal::ManualStart),
        PlanRefusal::Requisite(unit, needs) => Ok(Refusal::Requisite(
            name_of(loaded, *unit)?,
            name_of(loaded, *needs)?,
        )),
        PlanRefusal::Conflict(unit, conflicting_unit) => Ok(Refusal::Conflict(
            name_of(loaded, *unit)?,
            name_of(loaded, *conflicting_unit)?,
        )),
        PlanRefusal::Cycle(units) => Ok(Refusal::Cycle(Items::from_vec(names_at(
            alloc,
            loaded,
            units.as_slice(),
        )?))),
    }
}

// Why a unit isn't loaded.
fn fault(loaded: &Loaded, index: usize) -> Result<Refusal, AllocError>
    requires below { index < count_of loaded.now }
    requires unit { IsUnitIn loaded.now (name_at loaded.now index) }
    requires unloaded { is_loaded (unit_in loaded.now (name_at loaded.now index)) ≡ false }
    ensures fault { IfOk result (IsFaultOf loaded.now (name_at loaded.now index)) }
{
    let name = name_of(loaded, index)?;
    match &loaded.names()[index].1 {
        NameLoad::Unit(unit) => match &unit.get().status {
            Status::NotFound => Ok(Refusal::NotFound(name)),
            Status::Masked => Ok(Refusal::Masked(name)),
            Status::Bad(_) => Ok(Refusal::Bad(name)),
            Status::Loaded(_) | Status::BuiltIn => unreachable!(),
        },
        NameLoad::Alias(_) => unreachable!(),
    }
}

// The name with an index.
fn name_of(loaded: &Loaded, index: usize) -> Result<UnitName, AllocError>
    requires below { index < count_of loaded.now }
    ensures name { IfOk result (λ name. name ≡ name_at loaded.now index) }
{
    loaded.names()[index].0.try_clone()
}
