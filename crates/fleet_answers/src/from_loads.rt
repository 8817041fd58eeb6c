//! What a load answers of the units that names resolve to.
ghost use Rattle.std.specs.{Map.{keys_of}, Prelude.{IfErr, IfOk, Some, ◌<◌, ◌≡◌}};
ghost use Rattle.inverse_deps.specs.{EdgeAdjacency.{edge_map}, Edges.{AreEdges, AreEdgesOf, IsUnitIn}, Indices.{count_of, name_at}, Tables.{IsEdgeTable}};
ghost use Rattle.parallel_load.specs.Loads.{unit_in};
ghost use Rattle.unit_graph.specs.Graphs.{IsKnown};
ghost use Rattle.start_plan.specs.{Outcomes.{IsPlanned, IsRefusalOf}, Requests.{IsOfGraph}};
ghost use Rattle.fleet_answers.specs.Answers.{AreLinkedUnits, ArePulled, IsLinkedUnit, IsPlanReturned};

use crate::questions::{Answer, LinkedUnit};
use inverse_deps::{EdgeTable, edges_at, main_index};
use parallel_load::{Loaded, NameLoad, Unit};
use plain_values::{Items, Shared, TryClone};
use start_plan::{Plan, Refusal, Request, plan_by_index};
use std::alloc::AllocError;
use unit_graph::IndexedGraph;
use unit_name::UnitName;

/// The unit of a name with its edges. One search for the name.
pub(crate) fn linked_unit(
    loaded: &Loaded,
    table: &EdgeTable,
    name: &UnitName,
) -> Result<LinkedUnit, AllocError>
    requires table { IsEdgeTable loaded.now table.now }
    requires known { IsKnown loaded.now name.now }
    ensures unit { IfOk result (IsLinkedUnit loaded.now name.now) }
{
    let index = main_index(loaded, name).unwrap();
    linked_at(loaded, table, index, unit_at(loaded, index))
}

/// All units, in byte order, each with its edges. One pass over the names and over the table of edges.
pub(crate) fn linked_units(
    loaded: &Loaded,
    table: &EdgeTable,
) -> Result<Items<LinkedUnit>, AllocError>
    requires table { IsEdgeTable loaded.now table.now }
    ensures units { IfOk result (AreLinkedUnits loaded.now) }
{
    let names = loaded.names();
    let mut all = Vec::new(loaded.allocator());
    for index in 0..names.len() {
        match &names[index].1 {
            NameLoad::Unit(unit) => all.push(linked_at(loaded, table, index, unit)?)?,
            NameLoad::Alias(_) => {}
        }
    }
    Ok(Items::from_vec(all))
}

// The unit of the name with an index, shared with the load, with its edges.
fn linked_at(
    loaded: &Loaded,
    table: &EdgeTable,
    index: usize,
    unit: &Shared<Unit>,
) -> Result<LinkedUnit, AllocError>
    requires table { IsEdgeTable loaded.now table.now }
    requires below { index < count_of loaded.now }
    ensures unit { IfOk result (λ one. one.unit ≡ unit.now) }
    ensures edges { IfOk result
        (λ one. AreEdgesOf loaded.now (name_at loaded.now index) one.edges) }
{
    let edges = edges_at(loaded.allocator(), loaded, table, index)?;
    let unit = unit.try_clone()?;
    Ok(LinkedUnit { unit, edges })
}

/// What the unit of a name pulls.
pub(crate) fn pulled(
    loaded: &Loaded,
    table: &EdgeTable,
    name: &UnitName,
) -> Result<Items<(u64, UnitName)>, AllocError>
    requires table { IsEdgeTable loaded.now table.now }
    requires known { IsKnown loaded.now name.now }
    ensures pulled { IfOk result (ArePulled loaded.now name.now) }
{
    let graph = IndexedGraph::build(loaded, table);
    Ok(Items::from_vec(graph.depths(name)?))
}

/// The plan of a request, or the first reason why there is none.
pub(crate) fn planned(
    loaded: &Loaded,
    table: &EdgeTable,
    request: &Request,
) -> Result<Answer, AllocError>
    requires table { IsEdgeTable loaded.now table.now }
    requires viewer { request.now.viewer ≡ loaded.now.viewer }
    requires names { IsOfGraph loaded.now request.now }
    ensures returned { IfOk result (IsPlanReturned loaded.now request.now) }
{
    match plan_of(loaded, table, request) {
        Ok(plan) => Ok(Answer::Planned(plan)),
        Err(Refusal::Memory) => Err(AllocError),
        Err(refusal) => Ok(Answer::Refused(refusal)),
    }
}

// The plan of a request, or the first reason why there is none.
fn plan_of(loaded: &Loaded, table: &EdgeTable, request: &Request) -> Result<Plan, Refusal>
    requires table { IsEdgeTable loaded.now table.now }
    requires viewer { request.now.viewer ≡ loaded.now.viewer }
    requires names { IsOfGraph loaded.now request.now }
    ensures edges { AreEdges loaded.now (edge_map (keys_of loaded.now.names) table.now) }
    ensures plan { IfOk result
        (IsPlanned loaded.now (edge_map (keys_of loaded.now.names) table.now) request.now) }
    ensures refusal { IfErr result
        (IsRefusalOf loaded.now (edge_map (keys_of loaded.now.names) table.now) request.now) }
{
    let graph = IndexedGraph::build(loaded, table);
    plan_by_index(loaded.allocator(), &graph, request)
}

// The unit at an index.
fn unit_at(loaded: &Loaded, index: usize) -> &Shared<Unit>
    requires below { index < count_of loaded.now }
    requires unit { IsUnitIn loaded.now (name_at loaded.now index) }
    ensures unit { unit_in loaded.now (name_at loaded.now index) ≡ Some result.now }
{
    match &loaded.names()[index].1 {
        NameLoad::Unit(unit) => unit,
        NameLoad::Alias(_) => unreachable!(),
    }
}
