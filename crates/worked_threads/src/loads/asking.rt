//! Questions of stores and of nodes of worlds, in words.
use crate::loads::edits::{Asked, Done, asked_of, by_files};
use crate::loads::graphs::append_far;
use crate::loads::rendering::{append_plan, append_unit};
use delta_gossip::Event;
use fleet_answers::{
    Answer as Returned, AnswerFault, LinkedUnit, Question, answer_here, answer_in_world,
    answer_question,
};
use plain_values::Items;
use replica_store::{Edit, Store, Viewer};
use setting_rules::DependencyList;
use start_plan::Request;
use std::alloc::{AllocError, Global};
use std::slice::from_ref;
use std::thread::Threads;
use unit_name::UnitName;
use worked_lines::{Answer, LineFault, Words, is};
use worker_rounds::OpenGate;

// The question that a list of words writes: `unit NAME`, `pulled NAME`, `plan TARGET RUNNING..`, or `units`.
fn question_of(words: &mut Words, viewer: Viewer) -> Result<Question, LineFault> {
    let kind = words.word()?;
    let mut names = words.names()?;
    if names.is_empty() {
        return units_question(kind, viewer);
    }
    let name = names.remove(0);
    if is(kind, b"plan") {
        Ok(Question::Plan(Request {
            viewer,
            target: name,
            running: Items::from_vec(names),
        }))
    } else if !names.is_empty() {
        Err(LineFault::Words)
    } else if is(kind, b"unit") {
        Ok(Question::Unit { viewer, name })
    } else if is(kind, b"pulled") {
        Ok(Question::Pulled { viewer, name })
    } else {
        Err(LineFault::Words)
    }
}

// The question that a word writes without names.
fn units_question(kind: &[u8], viewer: Viewer) -> Result<Question, LineFault> {
    if is(kind, b"units") {
        Ok(Question::Units { viewer })
    } else {
        Err(LineFault::Words)
    }
}

// Writes a list of edges, if there are some.
fn append_edges(out: &mut Answer, list: &DependencyList) {
    if !list.names.as_slice().is_empty() {
        out.write(b"; ");
        out.write(list.kind.word().as_bytes());
        out.names(list.names.as_slice());
    }
}

// Writes a unit and its edges.
fn append_linked(out: &mut Answer, linked: &LinkedUnit) {
    let unit = linked.unit.get();
    out.write(unit.name.bytes());
    out.write(b" ");
    append_unit(out, unit);
    for list in linked.edges.as_slice() {
        append_edges(out, list);
    }
}

// Writes units and their edges.
fn append_all_linked(out: &mut Answer, all: &[LinkedUnit]) {
    out.write(b"units");
    for linked in all {
        out.write(b" | ");
        append_linked(out, linked);
    }
}

// Writes what a question was answered.
fn append_returned(out: &mut Answer, returned: &Returned) {
    match returned {
        Returned::Template => out.write(b"a template"),
        Returned::TooManyUnits => out.write(b"too many units"),
        Returned::Unit(linked) => append_linked(out, linked),
        Returned::Pulled(pairs) => {
            out.write(b"pulls");
            append_far(out, pairs.as_slice());
        }
        Returned::Planned(plan) => append_plan(out, plan),
        Returned::Refused(refusal) => out.print(refusal),
        Returned::Units(all) => append_all_linked(out, all.as_slice()),
    }
}

/// The text of an answer, if there was a node to ask, or of why there is none, unless memory ran out.
pub fn text_of(
    alloc: Global,
    returned: Result<Option<Returned>, AnswerFault>,
) -> Result<Vec<u8>, LineFault> {
    let mut out = Answer::new(alloc);
    match returned {
        Ok(Some(returned)) => append_returned(&mut out, &returned),
        Ok(None) => out.write(b"none"),
        Err(AnswerFault::Workers) => out.write(b"L1 Workers"),
        Err(AnswerFault::Memory) => return Err(LineFault::Memory),
    }
    out.finish()
}

// Writes a text, or that it is the same as the one before.
fn append_beside(out: &mut Answer, text: &[u8], before: &[u8]) {
    out.either(text == before, b"the same", text);
}

/// A question and numbers, as the numbers of workers by which it is answered.
pub struct Asking {
    pub question: Question,
    pub counts: Vec<usize>,
}

impl Drop for Asking {
    fn drop(self) {
        let Asking {
            question: _,
            counts: _,
        } = self;
    }
}

/// A question and numbers, with which a line ends.
pub fn asking_of(words: &mut Words, viewer: Viewer) -> Result<Asking, LineFault> {
    let question = question_of(words, viewer)?;
    let counts = words.numbers()?;
    Ok(Asking { question, counts })
}

/// The answer from a store, by one thread.
pub fn returned_here(
    alloc: Global,
    store: &Store,
    names: &[UnitName],
    question: &Question,
) -> Result<Vec<u8>, LineFault> {
    let returned = answer_here(alloc, store, names, question)?;
    text_of(alloc, Ok(Some(returned)))
}

// The answer from a store, by this many workers.
fn returned_by<R: Threads + Sync>(
    rt: &R,
    alloc: Global,
    asked: &Asked,
    question: &Question,
    workers: usize,
) -> Result<Vec<u8>, LineFault> {
    let (store, names) = (&asked.store, &asked.names);
    let returned = answer_question(rt, alloc, store, names, question, workers, &OpenGate);
    text_of(alloc, returned.map(Some))
}

// Writes the answers from a store by each number of workers, beside the one by one thread.
fn append_each<R: Threads + Sync>(
    rt: &R,
    out: &mut Answer,
    asked: &Asked,
    asking: &Asking,
    here: &[u8],
) -> Done {
    for count in &asking.counts {
        let text = returned_by(rt, out.alloc, asked, &asking.question, *count)?;
        out.line_made(format!(in out.alloc; "{count} workers: "));
        append_beside(out, &text, here);
    }
    Ok(())
}

// Writes the answer from a store by one thread, and then by each number of workers.
fn append_all<R: Threads + Sync>(rt: &R, out: &mut Answer, asked: &Asked, asking: &Asking) -> Done {
    let here = returned_here(out.alloc, &asked.store, &asked.names, &asking.question)?;
    out.write(&here);
    append_each(rt, out, asked, asking, &here)
}

/// Answers a question from a store by one thread, and then by each number of workers.
pub fn ask<R: Threads + Sync>(rt: &R, words: &mut Words, viewer: Viewer, out: &mut Answer) -> Done {
    let asked = asked_of(words, by_files(None))?;
    let asking = asking_of(words, viewer)?;
    append_all(rt, out, &asked, &asking)
}

// The first node puts an edit.
fn put_of(edit: &Edit) -> Result<Event, AllocError> {
    let edit = edit.try_clone()?;
    Ok(Event::Put { node: 0, edit })
}

// The first node puts edits.
fn add_puts(events: &mut Vec<Event>, edits: &[Edit]) -> Result<(), AllocError> {
    for edit in edits {
        events.push(put_of(edit)?)?;
    }
    Ok(())
}

// The second node is given all that it lacks, by the exchange with this number.
fn add_exchange(events: &mut Vec<Event>, number: usize) -> Result<(), AllocError> {
    events.push(Event::Ask { node: 1 })?;
    events.push(Event::Cut {
        node: 0,
        ask: number,
        places: None,
    })?;
    events.push(Event::Give {
        piece: number,
        node: 1,
    })?;
    Ok(())
}

// The first node puts edits, and then the second is given all that it lacks, by the exchange with this number.
fn add_events(events: &mut Vec<Event>, edits: &[Edit], number: usize) -> Done {
    add_puts(events, edits)?;
    add_exchange(events, number)?;
    Ok(())
}

// The answer of a node of a world of two, by this many workers.
fn returned_at<R: Threads + Sync>(
    rt: &R,
    alloc: Global,
    events: &[Event],
    node: usize,
    question: &Question,
    workers: usize,
) -> Result<Vec<u8>, LineFault> {
    let returned = answer_in_world(
        rt,
        alloc,
        &[1, 2],
        events,
        node,
        &[],
        question,
        workers,
        &OpenGate,
    );
    text_of(alloc, returned)
}

// Writes the answers of the nodes by this many workers, and that there is no third node.
fn append_nodes<R: Threads + Sync>(
    rt: &R,
    out: &mut Answer,
    events: &[Event],
    question: &Question,
    workers: usize,
) -> Done {
    let mut first = Vec::new(out.alloc);
    for node in 0..3 {
        let text = returned_at(rt, out.alloc, events, node, question, workers)?;
        out.line_made(format!(in out.alloc; "{workers} workers, node {node}: "));
        append_beside(out, &text, &first);
        if node == 0 {
            first = text;
        }
    }
    Ok(())
}

// Writes the answers of the nodes by each number of workers.
fn append_moment<R: Threads + Sync>(
    rt: &R,
    out: &mut Answer,
    events: &[Event],
    asking: &Asking,
) -> Done {
    for count in &asking.counts {
        append_nodes(rt, out, events, &asking.question, *count)?;
    }
    Ok(())
}

// Writes the answers of the nodes after all but the last edit, and then after all.
fn append_moments<R: Threads + Sync>(
    rt: &R,
    out: &mut Answer,
    edits: &[Edit],
    asking: &Asking,
) -> Done {
    let (last, before) = edits.split_last().ok_or(LineFault::Words)?;
    let mut events = Vec::new(out.alloc);
    add_events(&mut events, before, 0)?;
    append_moment(rt, out, &events, asking)?;
    add_events(&mut events, from_ref(last), 1)?;
    append_moment(rt, out, &events, asking)
}

/// Answers a question at two nodes of a world that took the same edits: all but the last, and then all.
pub fn world<R: Threads + Sync>(
    rt: &R,
    words: &mut Words,
    viewer: Viewer,
    out: &mut Answer,
) -> Done {
    let edits = words.edits()?;
    let asking = asking_of(words, viewer)?;
    append_moments(rt, out, &edits, &asking)
}
