//! A node that is asked many times: its units are loaded for the first question; later only what was touched is read
//! again.
use crate::faults::EmbeddingFault;
use crate::meeting::put;
use fleet_answers::{Answer, Question, TrackedReplica};
use plain_values::Items;
use profiles::Profile;
use replica_store::{Content, Place, Replica, Viewer};
use start_plan::Request;
use std::alloc::{AllocError, Global};
use std::thread::Threads;
use unit_name::{NameFault, UnitName};
use worker_rounds::OpenGate;

/// The number of workers where everything must be loaded.
const WORKERS: usize = 4;

/// Asks for the plan of a target, changes a drop-in, and asks again. Writes both answers.
pub fn ask_often(
    rt: &(impl AllocGlobal + Threads + Sync),
    text: &mut Vec<u8>,
) -> Result<(), EmbeddingFault> {
    let mut node = TrackedReplica::new(web_and_database(rt.alloc())?);
    append_starts(rt, &mut node, b"web.service", text)?;
    start_late(&mut node)?;
    append_starts(rt, &mut node, b"web.service", text)
}

// Puts a drop-in, by which the database starts after the web server.
fn start_late(node: &mut TrackedReplica) -> Result<(), EmbeddingFault> {
    let alloc = node.store().allocator();
    let drop_in = Place::parse(alloc, b"/etc/systemd/system/db.service.d/late.conf")?;
    let after = Vec::from_slice(alloc, b"[Unit]\nAfter=web.service\n")?;
    node.put(drop_in, Content::file(after)?)?;
    Ok(())
}

// A node with two units, of which one has a weak dependency (`Wants=`) on the other.
fn web_and_database(alloc: Global) -> Result<Replica, EmbeddingFault> {
    let mut node = Replica::new(alloc, 1);
    put(
        &mut node,
        b"/usr/lib/systemd/system/web.service",
        b"[Unit]\nWants=db.service\n",
    )?;
    put(
        &mut node,
        b"/usr/lib/systemd/system/db.service",
        b"[Unit]\n",
    )?;
    Ok(node)
}

/// Writes which units start for a target, in order, when none runs. Reads again only what the node's takes touched since the
/// answer before.
pub fn append_starts(
    rt: &(impl AllocGlobal + Threads + Sync),
    node: &mut TrackedReplica,
    target: &[u8],
    text: &mut Vec<u8>,
) -> Result<(), EmbeddingFault> {
    let question = plan_of(rt.alloc(), target)?;
    let answer = node.answer(rt, rt.alloc(), &question, WORKERS, &OpenGate)?;
    Ok(append_answer(text, &answer)?)
}

// The question which units start for a target when none runs.
fn plan_of(alloc: Global, target: &[u8]) -> Result<Question, NameFault> {
    Ok(Question::Plan(Request {
        viewer: Viewer {
            host: None,
            profile: Profile::Files,
        },
        target: UnitName::parse(alloc, target)?,
        running: Items::new(alloc),
    }))
}

// Writes a line of the units that start, if the answer is a plan.
fn append_answer(text: &mut Vec<u8>, answer: &Answer) -> Result<(), AllocError> {
    text.extend_from_slice(b"starts:")?;
    if let Answer::Planned(plan) = answer {
        append_names(text, plan.start.as_slice())?;
    }
    text.extend_from_slice(b"\n")
}

// Writes names, each after a space.
fn append_names(text: &mut Vec<u8>, names: &[UnitName]) -> Result<(), AllocError> {
    for name in names {
        text.extend_from_slice(b" ")?;
        text.extend_from_slice(name.bytes())?;
    }
    Ok(())
}
