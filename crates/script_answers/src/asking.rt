//! Questions on a node's store, and how their answers are rendered.
ghost use Rattle.std.specs.{Prelude.{◌≡◌, ◌<◌, IfOk, length, slice_index_or}};
ghost use Rattle.replica_store.specs.Replicas.{Replicated};
ghost use Rattle.script_commands.specs.Outcomes.{IsSaid};
ghost use Rattle.script_answers.specs.Renders.{AreWritten, form_of, IsOutcomeOf, RendersInquiry};

use crate::plan_lines::plan_text;
use crate::pulled_lines::pulled_text;
use crate::refusals::fault_of_plan;
use crate::requests::read_question;
use crate::trees::tree_text;
use crate::unit_lines::{unit_text, units_text};
use crate::worker_counts::WorkerCount;
use fleet_answers::{Answer, AnswerFault, LinkedUnit, SnapshotLimit, TrackedReplica};
use profiles::Profile;
use replica_store::{Store, Viewer};
use script_commands::{Fault, Inquiry, LineRefusal, Word, read_host};
use std::alloc::{AllocError, Global};
use std::thread::Threads;
use worker_rounds::OpenGate;

// How the answer about all units is written.
#[derive(Clone, Copy, Debug, PartialEq, Eq)]
pub(crate) enum Form {
    // One unit after another.
    Units,
    // As the tree that a unit manager finds, with the units that it reads otherwise from that.
    Tree,
}

impl Form {
    // The form of the answer to an inquiry, if it is about all units.
    fn of(inquiry: &Inquiry<'_>) -> Form
        ensures form { result ≡ form_of inquiry.now }
    {
        match inquiry {
            Inquiry::Unit(_) | Inquiry::List(_) | Inquiry::Plan(_, _) | Inquiry::Units => {
                Form::Units
            }
            Inquiry::Tree => Form::Tree,
        }
    }
}

/// Answers an inquiry on the units of a node, for the host that `host` names or for the fleet, by a profile: loads what
/// must be loaded of the node's store, and returns the answer as text. It is refused, in this order, for a word that
/// isn't a host's name; for the first word that isn't a unit's name; for a template; if more than 4,096 names of the
/// store must be loaded; and for a request without a plan, with the first cause that holds.
///
/// It loads all units once, including all names that are asked for, with 1 to 64 workers; their number doesn't affect
/// the answer. The node caches the load for its next question, which reads again only what was touched since. No
/// answer depends on that.
pub fn render_inquiry<R: Threads + Sync>(
    rt: &R,
    alloc: Global,
    snapshots: &mut SnapshotLimit,
    nodes: &mut [TrackedReplica],
    node: usize,
    host: Option<Word<'_>>,
    profile: Profile,
    inquiry: Inquiry<'_>,
    workers: &WorkerCount,
) -> Result<Vec<u8>, Fault>
    requires within { node < length nodes.old }
    ensures rendered { (d : Replicated) → IsSaid (λ text. text.items) result
        (RendersInquiry profile host.entry inquiry.entry (slice_index_or nodes.old node d).store) }
    ensures same { nodes.new ≡ nodes.old }
{
    let host = read_host(alloc, host)?;
    let form = Form::of(&inquiry);
    let viewer = Viewer { host, profile };
    let question = read_question(alloc, viewer, inquiry)?;
    let workers = workers.count() as usize;
    match snapshots.answer(rt, alloc, nodes, node, &question, workers, &OpenGate) {
        Ok(answer) => answer_text(alloc, form, nodes[node].store(), question.viewer(), answer),
        Err(AnswerFault::Workers) => unreachable!(),
        Err(AnswerFault::Memory) => Err(Fault::Memory),
    }
}

// An answer as text, or its refusal. All units are those of a store for a host, or without a host.
fn answer_text(
    alloc: Global,
    form: Form,
    store: &Store,
    viewer: &Viewer,
    answer: Answer,
) -> Result<Vec<u8>, Fault>
    ensures rendered { IsSaid (λ text. text.items) result
        (IsOutcomeOf form store.now viewer.now answer) }
{
    match answer {
        Answer::Template => Err(Fault::Refused(LineRefusal::Template)),
        Answer::TooManyUnits => Err(Fault::Refused(LineRefusal::TooManyUnits)),
        Answer::Unit(linked) => Ok(unit_text(alloc, &linked)?),
        Answer::Units(all) => Ok(written(alloc, form, store, viewer, all.as_slice())?),
        Answer::Pulled(pairs) => Ok(pulled_text(alloc, pairs.as_slice())?),
        Answer::Planned(plan) => Ok(plan_text(alloc, &plan)?),
        Answer::Refused(refusal) => Err(fault_of_plan(refusal)),
    }
}

// All units as text, in a form.
fn written(
    alloc: Global,
    form: Form,
    store: &Store,
    viewer: &Viewer,
    all: &[LinkedUnit],
) -> Result<Vec<u8>, AllocError>
    ensures written { IfOk result
        (λ text. AreWritten form store.now viewer.now all.now text.items) }
{
    match form {
        Form::Units => units_text(alloc, all),
        Form::Tree => tree_text(alloc, store, viewer, all),
    }
}
