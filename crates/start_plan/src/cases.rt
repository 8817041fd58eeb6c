//! The case of a plan, by index.
ghost use Rattle.std.specs.Prelude.{IfOk, [], ◌∷◌};
ghost use Rattle.name_closure.specs.ListedLaws.{Named};
ghost use Rattle.index_rows.specs.{Indexing.{AreNamedSuccessors, IsIndexing}, Successors.{AreSuccessorsOf, successors_from}};
ghost use Rattle.unit_name.specs.Names.{name_cmp};
ghost use Rattle.setting_rules.specs.declared.kinds.DepKind.TheVariants.{Requisite};
ghost use Rattle.plan_choice.specs.{NamedCases.{IsNamedCase}, IndexedCases.{case_of as case_of_indexed}};
ghost use Rattle.inverse_deps.specs.Indices.{count_of, name_at};
ghost use Rattle.unit_graph.specs.Graphs.{LeadsBy};
ghost use Rattle.start_plan.specs.Requests.{AsksTemplate, IsOfGraph, case_of, weak};

use crate::bits::{either, named_bits, status_bits};
use crate::requests::Request;
use index_rows::Successors;
use plan_choice::IndexedCase;
use setting_rules::DepKind;
use std::alloc::{AllocError, Global};
use unit_graph::IndexedGraph;

/// The kinds of what a unit needs.
const NEEDING: [DepKind; 2] = [DepKind::Requires, DepKind::BindsTo];

/// The inverses of `NEEDING`.
const NEEDED: [DepKind; 2] = [DepKind::RequiredBy, DepKind::BoundBy];

/// The kinds of what a unit wants.
const WEAK: [DepKind; 2] = [DepKind::Wants, DepKind::Upholds];

/// The kinds by which a unit stops along with another.
const TYING: [DepKind; 4] = [
    DepKind::Requires,
    DepKind::Requisite,
    DepKind::BindsTo,
    DepKind::PartOf,
];

/// The inverses of `TYING`.
const TAKING: [DepKind; 4] = [
    DepKind::RequiredBy,
    DepKind::RequisiteOf,
    DepKind::BoundBy,
    DepKind::ConsistsOf,
];

// The edges of some kinds, and of their inverses.
#[derive(Drop)]
struct BothWays<'b> {
    successors: Successors<'b>,
    inverses: Successors<'b>,
}

// Edges to what units want, and to what must be running when they start.
#[derive(Drop)]
struct Asked<'b> {
    wants: Successors<'b>,
    requisites: Successors<'b>,
}

// The case of a request, by index. Its adjacency lists are borrowed from the graph.
pub(crate) fn case_of<'b>(
    alloc: Global,
    graph: &'b IndexedGraph,
    request: &Request,
) -> Result<IndexedCase<'b>, AllocError>
    requires names { IsOfGraph graph.now.load request.now }
    requires whole { ¬ AsksTemplate request.now }
    ensures case { IfOk result
        (λ adjacency. IsNamedCase (count_of graph.now.load) (name_at graph.now.load)
        (case_of_indexed adjacency) (case_of graph.now.load graph.now.edges request.now)) }
    ensures order { IfOk result
        (λ _. IsIndexing (count_of graph.now.load) (name_at graph.now.load) name_cmp) }
{
    let target = graph.index(&request.target).unwrap();
    let loaded = graph.loaded();
    let status = status_bits(alloc, loaded)?;
    let asked_to_run = named_bits(alloc, graph, request.running.as_slice())?;
    let running = either(alloc, &status.perpetual, &asked_to_run)?;
    let needing = both_ways(graph, &NEEDING, &NEEDED)?;
    let asked = asked_of(graph)?;
    let tying = both_ways(graph, &TYING, &TAKING)?;
    Ok(IndexedCase {
        profile: loaded.viewer().profile,
        target,
        loaded: status.loaded,
        refuses_manual_start: status.manual,
        running,
        perpetual: status.perpetual,
        needs: needing.successors,
        needed_by: needing.inverses,
        wants: asked.wants,
        requisites: asked.requisites,
        conflicts: graph.adjacency(DepKind::Conflicts),
        conflicted_by: graph.adjacency(DepKind::ConflictedBy),
        predecessors: graph.adjacency(DepKind::After),
        successors: graph.adjacency(DepKind::Before),
        stops_with: tying.successors,
        takes_along: tying.inverses,
    })
}

// The edges of these kinds, and those of their inverses.
fn both_ways<'b>(
    graph: &'b IndexedGraph,
    kinds: &[DepKind],
    others: &[DepKind],
) -> Result<BothWays<'b>, AllocError>
    ensures successors { IfOk result
        (λ both. AreNamedSuccessors (count_of graph.now.load) (name_at graph.now.load)
        (Named (successors_from both.successors)) (LeadsBy graph.now.edges kinds.now)) }
    ensures within { IfOk result
        (λ both. AreSuccessorsOf (count_of graph.now.load) both.successors) }
    ensures inverses { IfOk result
        (λ both. AreNamedSuccessors (count_of graph.now.load) (name_at graph.now.load)
        (Named (successors_from both.inverses)) (LeadsBy graph.now.edges others.now)) }
    ensures inverses_within { IfOk result
        (λ both. AreSuccessorsOf (count_of graph.now.load) both.inverses) }
{
    let successors = graph.successors(kinds)?;
    let inverses = graph.successors(others)?;
    Ok(BothWays {
        successors,
        inverses,
    })
}

// The edges to what units want, and to their requisites.
fn asked_of<'b>(graph: &'b IndexedGraph) -> Result<Asked<'b>, AllocError>
    ensures wants { IfOk result
        (λ asked. AreNamedSuccessors (count_of graph.now.load) (name_at graph.now.load)
        (Named (successors_from asked.wants)) (LeadsBy graph.now.edges weak)) }
    ensures wants_within { IfOk result
        (λ asked. AreSuccessorsOf (count_of graph.now.load) asked.wants) }
    ensures requisites { IfOk result
        (λ asked. AreNamedSuccessors (count_of graph.now.load) (name_at graph.now.load)
        (Named (successors_from asked.requisites)) (LeadsBy graph.now.edges (Requisite ∷ []))) }
    ensures requisites_within { IfOk result
        (λ asked. AreSuccessorsOf (count_of graph.now.load) asked.requisites) }
{
    let wants = graph.successors(&WEAK)?;
    let requisites = graph.successors(&[DepKind::Requisite])?;
    Ok(Asked { wants, requisites })
}
