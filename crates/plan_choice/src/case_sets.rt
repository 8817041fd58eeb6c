//! What a case comes to: the units that are pulled, dropped and chosen, and the plan, or the first refusal whose cause
//! holds.
ghost use Rattle.std.specs.{Ordering.{nat_cmp}, Prelude.{All, IfErr, IfOk, IsTrue, length, MatchOption, slice_index, ℕ, ◌++◌, ◌<◌, ◌↔◌, ◌≡◌, ◌⊎◌}};
ghost use Rattle.list_laws.specs.Members.{IsAmong};
ghost use Rattle.name_closure.specs.Chains.{IsClosure};
ghost use Rattle.index_rows.specs.{Adjacency.{IsMember}, Successors.{AreSuccessorsOf, successors_from}};
ghost use Rattle.plan_choice.specs.{Answers.{IsClearBelow, IsFirstPair, IsPlan, IsRefusal}, BitSets.{AreBitsOf, ArePairsOf, IsListOf}, IndexedCases.{case_of, count_of}, IndexedAnswers.{IsAnswer}, Losing.{SetsBits}, Sets.{AreInConflict, IsChosen, IsDropped, IsExtra, IsGood, IsLoser, IsPulled, IsStoppedByConflict, LosesTo, MissesRequisite, Starts, TakesAlong}, Soundness.{IsSound}, Walks.{HasIdleRequisite, IsAbsent, IsFree, IsGoing, NeedsSome}};

use crate::answers::{IndexedPlan, PlanRefusal};
use crate::cases::IndexedCase;
use index_rows::{
    Successors, empty_bits, first_member, members_of, non_members, reached_inside, reached_on,
    without,
};
use plain_values::Items;
use profiles::Profile;
use start_order::start_order;
use std::alloc::{AllocError, Global};
use std::marker::Model;

// A borrowed case, with the set of units that aren't running, the set of units from which what began at the target goes
// on, the set of units that the target needs, and edges from each unit to those that conflict with it. In contracts it
// is the case.
pub struct CaseSets<'c, 'a> {
    pub case: &'c IndexedCase<'a>,
    pub idle: Vec<bool>,
    pub going: Vec<bool>,
    pub needed: Vec<bool>,
    pub conflicting: Successors<'a>,
}

impl<'c, 'a> Drop for CaseSets<'c, 'a> {
    fn drop(self) {
        let CaseSets {
            case: _,
            idle: _,
            going: _,
            needed: _,
            conflicting: _,
        } = self;
    }
}

impl<'c, 'a> Model for CaseSets<'c, 'a> {
    ghost use Rattle.plan_choice.specs.{declared.cases.IndexedCase.{IndexedCase}, CaseSetFacts.{AreCaseSets}};

    ghost Value = { IndexedCase };

    ghost view = { λ m. m.case.now };

    ghost invariant = { λ m. AreCaseSets m.case.now m.idle.items m.going.items m.needed.items
        m.conflicting };
}

impl<'c, 'a> CaseSets<'c, 'a> {
    // Returns the case with its sets and edges. O(n + m), for n units and m edges.
    pub fn of(alloc: Global, case: &'c IndexedCase<'a>) -> Result<CaseSets<'c, 'a>, AllocError>
        ensures case { IfOk result (λ sets. sets ≡ case.now) }
    {
        let idle = non_members(alloc, &case.running)?;
        let going = going(alloc, case, &[case.target])?;
        let none = Successors::new(alloc);
        let needed = reached_on(alloc, &case.needs, &none, &going, &going, &[case.target])?;
        let conflicting = conflicting(alloc, case)?;
        Ok(CaseSets {
            case,
            idle,
            going,
            needed,
            conflicting,
        })
    }
}

// Edges from each unit to those that conflict with it.
fn conflicting<'a>(alloc: Global, case: &IndexedCase<'a>) -> Result<Successors<'a>, AllocError>
    ensures { IfOk result
        (λ successors. ArePairsOf (count_of case.now)
        (AreInConflict (case_of case.now)) successors) }
{
    let mut conflicting = Successors::new(alloc);
    conflicting.push(case.conflicts)?;
    conflicting.push(case.conflicted_by)?;
    Ok(conflicting)
}

// The set of units that aren't left alone: all of them or, for a manager, those that don't run.
fn free(alloc: Global, case: &IndexedCase) -> Result<Vec<bool>, AllocError>
    ensures { IfOk result
        (λ bits. AreBitsOf (count_of case.now)
        (IsFree (count_of case.now) (case_of case.now)) bits.items) }
{
    match case.profile {
        Profile::Files => {
            let none = empty_bits(alloc, case.loaded.len())?;
            non_members(alloc, &none)
        }
        Profile::Manager => non_members(alloc, &case.running),
    }
}

// The set of units from which what began at one of these goes on: these, and those that aren't left alone.
fn going(alloc: Global, case: &IndexedCase, units: &[usize]) -> Result<Vec<bool>, AllocError>
    requires { All (λ v. v < count_of case.now) units.now }
    ensures { IfOk result (λ bits. AreBitsOf (count_of case.now)
        (IsGoing (count_of case.now) (case_of case.now) units.now) bits.items) }
{
    let mut bits = free(alloc, case)?;
    set_bits(&mut bits, units, true);
    Ok(bits)
}

// The set of units that need one of these: they are reached backwards, from none that is left alone but these.
fn needing(alloc: Global, case: &IndexedCase, units: &[usize]) -> Result<Vec<bool>, AllocError>
    requires { All (λ v. v < count_of case.now) units.now }
    ensures { IfOk result
        (λ bits. AreBitsOf (count_of case.now)
        (NeedsSome (case_of case.now) units.now) bits.items) }
{
    let going = going(alloc, case, units)?;
    let none = Successors::new(alloc);
    reached_on(alloc, &case.needed_by, &none, &going, &going, units)
}

impl<'c, 'a> CaseSets<'c, 'a> {
    // The set of pulled units. Over a weak dependency only good ones are pulled.
    pub fn pulled(&self, alloc: Global) -> Result<Vec<bool>, AllocError>
        ensures { IfOk result
            (λ bits. AreBitsOf (count_of self.now) (IsPulled (case_of self.now)) bits.items) }
    {
        let good = self.good_weak_dependencies(alloc)?;
        let case = self.case;
        reached_on(
            alloc,
            &case.needs,
            &case.wants,
            &good,
            &self.going,
            &[case.target],
        )
    }

    // The units that are lacked as requisites: those that don't run and, for a manager, aren't pulled.
    fn absent(&self, alloc: Global, pulled: &[bool]) -> Result<Vec<bool>, AllocError>
        requires { AreBitsOf (count_of self.now) (IsPulled (case_of self.now)) pulled.now }
        ensures { IfOk result
            (λ bits. AreBitsOf (count_of self.now)
            (IsAbsent (count_of self.now) (case_of self.now)) bits.items) }
    {
        match self.case.profile {
            Profile::Files => non_members(alloc, &self.case.running),
            Profile::Manager => without(alloc, &self.idle, pulled),
        }
    }

    // The extra units that, for a manager, don't run and lack a requisite.
    fn missing(
        &self,
        alloc: Global,
        extra: &[bool],
        pulled: &[bool],
    ) -> Result<Vec<usize>, AllocError>
        requires extra { AreBitsOf (count_of self.now) (IsExtra (case_of self.now)) extra.now }
        requires pulled { AreBitsOf (count_of self.now) (IsPulled (case_of self.now)) pulled.now }
        ensures { IfOk result
            (λ units. IsListOf (count_of self.now)
            (MissesRequisite nat_cmp (case_of self.now)) units.items) }
    {
        match self.case.profile {
            Profile::Files => Ok(Vec::new(alloc)),
            Profile::Manager => {
                let absent = self.absent(alloc, pulled)?;
                let resting = without(alloc, extra, &self.case.running)?;
                leading_into(alloc, &resting, &self.case.requisites, &absent)
            }
        }
    }

    // The units that lose a conflict or lack a requisite.
    fn losers(&self, alloc: Global, pulled: &[bool]) -> Result<Vec<usize>, AllocError>
        requires { AreBitsOf (count_of self.now) (IsPulled (case_of self.now)) pulled.now }
        ensures { IfOk result
            (λ units. IsListOf (count_of self.now)
            (IsLoser nat_cmp (case_of self.now)) units.items) }
    {
        let extra = without(alloc, pulled, &self.needed)?;
        let mut losers = conflict_losers(alloc, self.case, &extra)?;
        let missing = self.missing(alloc, &extra, pulled)?;
        losers.extend_from_slice(&missing)?;
        Ok(losers)
    }

    // The pulled units that remain: those that need no loser.
    fn remaining(&self, alloc: Global, pulled: &[bool]) -> Result<Vec<bool>, AllocError>
        requires { AreBitsOf (count_of self.now) (IsPulled (case_of self.now)) pulled.now }
        ensures { IfOk result
            (λ bits. AreBitsOf (count_of self.now) (λ u. IsPulled (case_of self.now) u
            × ¬ IsDropped nat_cmp (case_of self.now) u) bits.items) }
    {
        let losers = self.losers(alloc, pulled)?;
        let fallen = needing(alloc, self.case, &losers)?;
        without(alloc, pulled, &fallen)
    }

    // The set of chosen units: those reached within what is pulled and not dropped.
    pub fn chosen(&self, alloc: Global, pulled: &[bool]) -> Result<Vec<bool>, AllocError>
        requires { AreBitsOf (count_of self.now) (IsPulled (case_of self.now)) pulled.now }
        ensures { IfOk result
            (λ bits. AreBitsOf (count_of self.now)
            (IsChosen nat_cmp (case_of self.now)) bits.items) }
    {
        let rest = self.remaining(alloc, pulled)?;
        let case = self.case;
        let asks = Successors::both(alloc, &case.needs, &case.wants)?;
        let none = Successors::new(alloc);
        reached_on(alloc, &none, &asks, &rest, &self.going, &[case.target])
    }
}

// Sets the bits of the nodes to `value`.
fn set_bits(bits: &mut Vec<bool>, nodes: &[usize], value: bool)
    requires { All (λ v. v < length bits.old.items) nodes.now }
    ensures { SetsBits bits.old.items bits.new.items nodes.now value }
{
    for node in nodes {
        bits[*node] = value;
    }
}

// Whether the unit loses a conflict: another member of `extra` names it, and either isn't named by it or is less.
fn loses(extra: &[bool], named: &[bool], namers: &[usize], unit: usize) -> bool
    requires named { length named.now ≡ length extra.now }
    requires namers { All (λ v. v < length extra.now) namers.now }
    ensures { IsTrue result
        ↔ ((v : ℕ)
        × (IsAmong v namers.now × IsMember extra.now v × (IsMember named.now v → v < unit))) }
{
    for other in namers {
        if extra[*other] && *other < unit {
            return true;
        }
        if extra[*other] && !named[*other] {
            return true;
        }
    }
    false
}

// The extra units that lose a conflict.
fn conflict_losers(
    alloc: Global,
    case: &IndexedCase,
    extra: &[bool],
) -> Result<Vec<usize>, AllocError>
    requires { AreBitsOf (count_of case.now) (IsExtra (case_of case.now)) extra.now }
    ensures { IfOk result (λ units. IsListOf (count_of case.now)
        (λ u. (v : ℕ) × LosesTo nat_cmp (case_of case.now) u v) units.items) }
{
    let mut named = empty_bits(alloc, extra.len())?;
    let mut units = Vec::new(alloc);
    for (unit, is_extra) in extra.iter().enumerate() {
        set_bits(&mut named, case.conflicts.neighbors(unit), true);
        let lost = loses(extra, &named, case.conflicted_by.neighbors(unit), unit);
        set_bits(&mut named, case.conflicts.neighbors(unit), false);
        if lost && *is_extra {
            units.push(unit)?;
        }
    }
    Ok(units)
}

// The first pair of a member of `sources` and a successor of it that is in `marks`.
fn first_pair(sources: &[bool], successors: &Successors, bits: &[bool]) -> Option<(usize, usize)>
    requires sources { length sources.now ≡ length bits.now }
    requires successors { AreSuccessorsOf (length bits.now) successors.now }
    ensures { MatchOption result
        ((u v : ℕ)
        → ¬ (IsMember sources.now u × IsAmong v (successors_from successors.now u)
        × IsMember bits.now v))
        (λ pair. IsFirstPair nat_cmp (λ u v. IsMember sources.now u
        × IsAmong v (successors_from successors.now u) × IsMember bits.now v) pair.0 pair.1) }
{
    for (unit, is_source) in sources.iter().enumerate() {
        if *is_source {
            if let Some(other) = successors.least_member(unit, bits) {
                return Some((unit, other));
            }
        }
    }
    None
}

impl<'c, 'a> CaseSets<'c, 'a> {
    // The first cause that holds among those that are tested before the start order.
    pub fn refusal(
        &self,
        alloc: Global,
        pulled: &[bool],
    ) -> Result<Option<PlanRefusal<usize>>, AllocError>
        requires { AreBitsOf (count_of self.now) (IsPulled (case_of self.now)) pulled.now }
        ensures { IfOk result
            (λ answer. MatchOption answer (IsClearBelow nat_cmp (case_of self.now) 6)
            (IsRefusal nat_cmp (case_of self.now))) }
    {
        let case = self.case;
        if !case.loaded[case.target] {
            return Ok(Some(PlanRefusal::Target(case.target)));
        }
        let unloaded = without(alloc, &self.needed, &case.loaded)?;
        if let Some(unit) = first_member(&unloaded) {
            return Ok(Some(PlanRefusal::Need(unit)));
        }
        if case.refuses_manual_start[case.target] {
            return Ok(Some(PlanRefusal::ManualStart));
        }
        let absent = self.absent(alloc, pulled)?;
        if let Some((unit, requisite)) = first_pair(&self.needed, &case.requisites, &absent) {
            return Ok(Some(PlanRefusal::Requisite(unit, requisite)));
        }
        match first_pair(&self.needed, &self.conflicting, &self.needed) {
            None => Ok(None),
            Some((unit, conflicting_unit)) => Ok(Some(PlanRefusal::Conflict(
                unit,
                conflicting_unit,
            ))),
        }
    }
}

impl<'c, 'a> CaseSets<'c, 'a> {
    // Whether, by files alone, a requisite of the unit doesn't run.
    fn has_idle_requisite(&self, unit: usize) -> bool
        requires { unit < count_of self.now }
        ensures { IsTrue result ↔ HasIdleRequisite (case_of self.now) unit }
    {
        let case = self.case;
        match case.profile {
            Profile::Files => case.requisites.least_member(unit, &self.idle).is_some(),
            Profile::Manager => false,
        }
    }

    // Whether nothing is wrong with the unit itself.
    fn is_sound(&self, unit: usize) -> bool
        requires { unit < count_of self.now }
        ensures { IsTrue result ↔ IsSound (case_of self.now) unit }
    {
        if !self.case.loaded[unit] {
            return false;
        }
        if self.has_idle_requisite(unit) {
            return false;
        }
        self.conflicting.least_member(unit, &self.needed).is_none()
    }

    // The units with which something is wrong.
    fn faults(&self, alloc: Global) -> Result<Vec<usize>, AllocError>
        ensures { IfOk result (λ units. IsListOf (count_of self.now)
            (λ u. (u < count_of self.now) × ¬ IsSound (case_of self.now) u) units.items) }
    {
        let mut units = Vec::new(alloc);
        for unit in 0..self.case.loaded.len() {
            if !self.is_sound(unit) {
                units.push(unit)?;
            }
        }
        Ok(units)
    }

    // The set of units that may be pulled over a weak dependency: those that need no unit with which something is
    // wrong.
    pub fn good_weak_dependencies(&self, alloc: Global) -> Result<Vec<bool>, AllocError>
        ensures { IfOk result
            (λ bits. AreBitsOf (count_of self.now) (IsGood (case_of self.now)) bits.items) }
    {
        let faulty = self.faults(alloc)?;
        let bad = needing(alloc, self.case, &faulty)?;
        Ok(non_members(alloc, &bad)?)
    }
}

// The members of `sources` from which an edge leads to a member of `bits`.
fn leading_into(
    alloc: Global,
    sources: &[bool],
    successors: &Successors,
    bits: &[bool],
) -> Result<Vec<usize>, AllocError>
    requires units { length bits.now ≡ length sources.now }
    requires successors { AreSuccessorsOf (length bits.now) successors.now }
    ensures { IfOk result (λ units. IsListOf (length bits.now) (λ u. IsMember sources.now u
        × ((v : ℕ) × (IsAmong v (successors_from successors.now u) × IsMember bits.now v)))
        units.items) }
{
    let mut units = Vec::new(alloc);
    for (unit, is_source) in sources.iter().enumerate() {
        if *is_source && successors.least_member(unit, bits).is_some() {
            units.push(unit)?;
        }
    }
    Ok(units)
}

impl<'c, 'a> CaseSets<'c, 'a> {
    // The units that stop, in ascending order: those stopped by a conflict, and those that stop with them. For chosen
    // units that are passed over, as they are left alone, none stops.
    fn stops(&self, alloc: Global, chosen: &[bool]) -> Result<Vec<usize>, AllocError>
        requires { AreBitsOf (count_of self.now) (IsChosen nat_cmp (case_of self.now)) chosen.now }
        ensures { IfOk result (λ units. IsClosure (IsStoppedByConflict nat_cmp (case_of self.now))
            (TakesAlong nat_cmp (case_of self.now)) nat_cmp units.items) }
    {
        let unchosen = without(alloc, &self.case.running, chosen)?;
        let outside = without(alloc, &unchosen, &self.case.perpetual)?;
        let passed_over = non_members(alloc, &self.going)?;
        let counting = without(alloc, chosen, &passed_over)?;
        let stopped_by_conflict = leading_into(alloc, &outside, &self.conflicting, &counting)?;
        let stopped = reached_inside(
            alloc,
            &self.case.takes_along,
            &outside,
            &stopped_by_conflict,
        )?;
        Ok(members_of(alloc, &stopped)?)
    }

    // The plan if nothing is wrong with what the target needs, or the cycle among the units that are to start.
    fn plan(
        &self,
        alloc: Global,
        pulled: &[bool],
    ) -> Result<Result<IndexedPlan, PlanRefusal<usize>>, AllocError>
        requires pulled { AreBitsOf (count_of self.now) (IsPulled (case_of self.now)) pulled.now }
        requires clear { IsClearBelow nat_cmp (case_of self.now) 6 }
        ensures { IfOk result (IsAnswer (case_of self.now)) }
    {
        let case = self.case;
        let chosen = self.chosen(alloc, pulled)?;
        let starting = without(alloc, &chosen, &case.running)?;
        match start_order(alloc, &starting, case.predecessors, case.successors)? {
            Err(cycle) => Ok(Err(PlanRefusal::Cycle(Items::from_vec(cycle)))),
            Ok(starts) => {
                let stops = self.stops(alloc, &chosen)?;
                Ok(Ok(IndexedPlan { stops, starts }))
            }
        }
    }
}

/// Returns the plan over indexed units, or why there is none: the refusal whose cause is the first that holds. Fails
/// only if memory runs out.
///
/// O(n log n + m), for n units and m edges.
pub fn indexed_plan(
    alloc: Global,
    case: &IndexedCase,
) -> Result<Result<IndexedPlan, PlanRefusal<usize>>, AllocError>
    ensures plan { IfOk result
        (λ answer. IfOk answer
        (λ plan. IsPlan nat_cmp (case_of case.now) plan.stops.items plan.starts.items)) }
    ensures all { IfOk result
        (λ answer. IfOk answer
        (λ plan. (u : ℕ) → Starts nat_cmp (case_of case.now) u → IsAmong u plan.starts.items)) }
    ensures refusal { IfOk result (λ answer. IfErr answer (IsRefusal nat_cmp (case_of case.now))) }
{
    let sets = CaseSets::of(alloc, case)?;
    let pulled = sets.pulled(alloc)?;
    match sets.refusal(alloc, &pulled)? {
        Some(refusal) => Ok(Err(refusal)),
        None => sets.plan(alloc, &pulled),
    }
}
