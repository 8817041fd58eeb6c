//! What loads come to, in words: all edges of all units, the members of the graph, and a plan.
ghost use Rattle.unit_graph.specs.Graphs.{IsKnown};

use crate::loads::edits::Done;
use crate::loads::graphs::append_steps;
use crate::loads::rendering::append_plan;
use inverse_deps::edges;
use parallel_load::Loaded;
use plain_values::Items;
use setting_rules::DepKind;
use start_plan::{Refusal, Request, plan};
use std::alloc::Global;
use unit_graph::Graph;
use unit_name::UnitName;
use worked_lines::{Answer, LineFault};

// Writes what starts for a unit where none runs, or why it can't be started.
fn append_started(out: &mut Answer, graph: &Graph, target: &UnitName) -> Done
    requires known { IsKnown graph.now.load target.now }
{
    let request = Request {
        viewer: graph.viewer().try_clone()?,
        target: target.try_clone()?,
        running: Items::new(out.alloc),
    };
    match plan(out.alloc, graph, &request) {
        Ok(plan) => append_plan(out, &plan),
        Err(Refusal::Memory) => return Err(LineFault::Memory),
        Err(refusal) => out.print(&refusal),
    }
    Ok(())
}

// Writes members of a graph, and the edges of each kind from each of them.
fn append_edges(out: &mut Answer, graph: &Graph, members: &[UnitName]) {
    out.names(members);
    for member in members {
        out.line(member.bytes());
        append_steps(out, graph, DepKind::all(), member);
    }
}

// Writes what a graph has: its members, the edges of each kind from each of them, and the plan of the first.
fn append_universe(out: &mut Answer, graph: &Graph) -> Done {
    let members = graph.members()?;
    append_edges(out, graph, &members);
    match members.first() {
        Some(first) if graph.has(first) => append_started(out, graph, first),
        _ => Ok(()),
    }
}

/// What a load comes to: the members of its graph, all edges of each, and the plan of the first, none running.
pub fn universe_of(alloc: Global, load: &Loaded) -> Result<Vec<u8>, LineFault> {
    let edges = edges(alloc, load)?;
    let graph = Graph::build(load, &edges);
    let mut out = Answer::new(alloc);
    append_universe(&mut out, &graph)?;
    out.finish()
}
