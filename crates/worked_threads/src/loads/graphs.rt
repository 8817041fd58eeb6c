//! Graphs of loads in words.
ghost use Rattle.unit_graph.specs.Graphs.{IsKnown};

use crate::loads::edits::{Asked, Done, asked_of};
use crate::loads::rendering::{append_fault, append_status};
use inverse_deps::edges;
use parallel_load::{Loaded, load_here};
use replica_store::Viewer;
use setting_rules::DepKind;
use std::alloc::Global;
use unit_graph::Graph;
use unit_name::UnitName;
use worked_lines::{Answer, LineFault, Words, each_of};

// The kind that a word writes.
fn kind_of(_alloc: Global, word: &[u8]) -> Result<DepKind, LineFault> {
    let mut all = DepKind::all().iter().copied();
    let kind = all.find(|kind| kind.word().as_bytes() == word);
    kind.ok_or(LineFault::Words)
}

// Writes what stands for a unit, and whether a person may start it.
fn append_main(out: &mut Answer, graph: &Graph, main: &UnitName) {
    out.write(main.bytes());
    if let Some(status) = graph.status(main) {
        out.write(b", ");
        append_status(out, status);
    }
    if graph.manual(main) == Some(true) {
        out.write(b", not by hand");
    }
}

/// Writes the units to which edges of each kind lead from a unit.
pub fn append_steps(out: &mut Answer, graph: &Graph, kinds: &[DepKind], main: &UnitName) {
    for kind in kinds {
        out.line(kind.word().as_bytes());
        out.names(graph.of(*kind, main));
    }
}

/// Writes names, each behind its distance.
pub fn append_far(out: &mut Answer, pairs: &[(u64, UnitName)]) {
    for (distance, name) in pairs {
        out.write_made(format!(in out.alloc; " {distance} "));
        out.write(name.bytes());
    }
}

// Writes what is reached from a name that stands for a unit.
fn append_reached(out: &mut Answer, graph: &Graph, kinds: &[DepKind], name: &UnitName) -> Done
    requires known { IsKnown graph.now.load name.now }
{
    out.line(b"reach");
    out.names(&graph.reach(kinds, name)?);
    out.line(b"depths");
    append_far(out, &graph.depths(name)?);
    Ok(())
}

// Writes what a graph has from a name.
fn append_from(out: &mut Answer, graph: &Graph, kinds: &[DepKind], name: &UnitName) -> Done {
    out.line(name.bytes());
    if !graph.has(name) {
        out.write(b": no unit");
        return Ok(());
    }
    out.write(b": ");
    if let Some(main) = graph.main(name) {
        append_main(out, graph, main);
        append_steps(out, graph, kinds, main);
    }
    append_reached(out, graph, kinds, name)
}

// Writes for which host a graph is, if for one, and its units.
fn append_members(out: &mut Answer, graph: &Graph) -> Done {
    if let Some(host) = &graph.viewer().host {
        out.line(b"for ");
        out.write(host.bytes());
    }
    out.line(b"members");
    out.names(&graph.members()?);
    Ok(())
}

// Writes what a graph has from each of several names.
fn append_views(out: &mut Answer, graph: &Graph, kinds: &[DepKind], names: &[UnitName]) -> Done {
    for name in names {
        append_from(out, graph, kinds, name)?;
    }
    Ok(())
}

// Makes the graph of a load, and writes its units, and what it has from each of several names.
fn append_graph(out: &mut Answer, load: &Loaded, kinds: &[DepKind], names: &[UnitName]) -> Done {
    let edges = edges(out.alloc, load)?;
    append_built(out, &Graph::build(load, &edges), kinds, names)
}

// Writes the units of a graph, and what it has from each of several names.
fn append_built(out: &mut Answer, graph: &Graph, kinds: &[DepKind], names: &[UnitName]) -> Done {
    append_members(out, graph)?;
    append_views(out, graph, kinds, names)
}

// Loads a store, and writes what its graph has.
fn append_asked(out: &mut Answer, asked: &Asked, kinds: &[DepKind], names: &[UnitName]) -> Done {
    match load_here(out.alloc, &asked.store, &asked.viewer, &asked.names) {
        Ok(load) => append_graph(out, &load, kinds, names),
        Err(fault) => append_fault(out, &fault),
    }
}

/// Makes the graph of a load, and looks at it from each of several names.
pub fn graph(words: &mut Words, viewer: Viewer, out: &mut Answer) -> Done {
    let asked = asked_of(words, viewer)?;
    let kinds = each_of(words.alloc, &words.list()?, kind_of)?;
    let names = words.names()?;
    append_asked(out, &asked, &kinds, &names)
}
