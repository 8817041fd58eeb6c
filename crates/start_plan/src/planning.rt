//! The plan of a request.
ghost use Rattle.std.specs.Prelude.{◌≡◌, IfOk, IfErr};
ghost use Rattle.index_rows.specs.Indexing.{IsIndexing};
ghost use Rattle.unit_name.specs.Names.{name_cmp};
ghost use Rattle.inverse_deps.specs.Indices.{count_of, name_at};
ghost use Rattle.start_plan.specs.{Indexed.{IsIndexedPlan, IsIndexedRefusal}, Outcomes.{IsPlanned, IsRefusalOf}};
ghost use Rattle.start_plan.specs.Requests.{AsksTemplate, IsOfGraph};

use crate::cases::case_of;
use crate::checks::asks_template;
use crate::names::{named_plan, named_refusal};
use crate::requests::{Plan, Refusal, Request};
use plan_choice::{IndexedPlan, PlanRefusal, indexed_plan};
use std::alloc::{AllocError, Global};
use unit_graph::{Graph, IndexedGraph};

// The answer by index, for a request without templates.
fn indexed_answer(
    alloc: Global,
    graph: &IndexedGraph,
    request: &Request,
) -> Result<Result<IndexedPlan, PlanRefusal<usize>>, AllocError>
    requires names { IsOfGraph graph.now.load request.now }
    requires whole { ¬ AsksTemplate request.now }
    ensures order { IfOk result
        (λ _. IsIndexing (count_of graph.now.load) (name_at graph.now.load) name_cmp) }
    ensures plan { IfOk result
        (λ answer. IfOk answer
        (λ plan. IsIndexedPlan graph.now.load graph.now.edges request.now plan.stops.items
        plan.starts.items)) }
    ensures refusal { IfOk result
        (λ answer. IfErr answer (IsIndexedRefusal graph.now.load graph.now.edges request.now)) }
{
    let case = case_of(alloc, graph, request)?;
    indexed_plan(alloc, &case)
}

// The same answer by name.
fn named_answer(
    alloc: Global,
    graph: &IndexedGraph,
    request: &Request,
) -> Result<Result<Plan, Refusal>, AllocError>
    requires names { IsOfGraph graph.now.load request.now }
    requires whole { ¬ AsksTemplate request.now }
    ensures plan { IfOk result
        (λ answer. IfOk answer (IsPlanned graph.now.load graph.now.edges request.now)) }
    ensures refusal { IfOk result
        (λ answer. IfErr answer (IsRefusalOf graph.now.load graph.now.edges request.now)) }
{
    match indexed_answer(alloc, graph, request)? {
        Ok(plan) => Ok(Ok(named_plan(alloc, graph.loaded(), &plan)?)),
        Err(refusal) => Ok(Err(named_refusal(alloc, graph.loaded(), &refusal)?)),
    }
}

/// Returns which units start, in which order, and which stop, or the first reason why not. The request must be for the
/// graph's viewer, and each of its names must be a template or resolve to a unit of the graph.
///
/// The target and what it pulls start if they aren't running: what it needs by `Requires` and `BindsTo`, and what these
/// want by `Wants` or `Upholds`, if that can start without a fault and without a conflict. Running units stop if they
/// conflict with what is chosen, and with them the units that stop along with them.
///
/// By files alone running units pull others as well, and each requisite must be running. A manager leaves running units
/// as they are, but for the target, and a requisite may be pulled instead. Fails with `Memory` only if memory runs out.
/// O(n log n + m), for n names and m edges, and O(log n) for each name of the request.
pub fn plan(alloc: Global, graph: &Graph, request: &Request) -> Result<Plan, Refusal>
    requires viewer { request.now.viewer ≡ graph.now.load.viewer }
    requires names { IsOfGraph graph.now.load request.now }
    ensures plan { IfOk result (IsPlanned graph.now.load graph.now.edges request.now) }
    ensures refusal { IfErr result (IsRefusalOf graph.now.load graph.now.edges request.now) }
{
    plan_by_index(alloc, &graph.indexed(), request)
}

/// Returns the same for a graph by index.
pub fn plan_by_index(
    alloc: Global,
    graph: &IndexedGraph,
    request: &Request,
) -> Result<Plan, Refusal>
    requires viewer { request.now.viewer ≡ graph.now.load.viewer }
    requires names { IsOfGraph graph.now.load request.now }
    ensures plan { IfOk result (IsPlanned graph.now.load graph.now.edges request.now) }
    ensures refusal { IfErr result (IsRefusalOf graph.now.load graph.now.edges request.now) }
{
    if asks_template(request) {
        return Err(Refusal::Template);
    }
    named_answer(alloc, graph, request).unwrap_or(Err(Refusal::Memory))
}
