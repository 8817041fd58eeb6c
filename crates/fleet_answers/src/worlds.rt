//! The answer of a node of a world.
ghost use Rattle.std.specs.{Prelude.{◌≡◌, ◌↔◌, ◌⊎◌, ◌<◌, Err, length, List, IfOk, IsSome}, Option.{IfSome}};
ghost use Rattle.world_law.specs.declared.events.Event.{Event};
ghost use Rattle.fleet_answers.specs.Fleets.{AnswersItsStore, AnswersItsSum, AnswersByEvents, AgreesLater, HoldsLeast, HoldsSameLater};
ghost use Rattle.fleet_answers.specs.declared.questions.AnswerFault.TheVariants.{Workers};

use crate::answers::answer_question;
use crate::questions::{Answer, AnswerFault, Question};
use delta_gossip::run_world;
use parallel_load::{Gate, is_worker_count};
use std::alloc::Global;
use std::thread::Threads;
use unit_name::UnitName;
use world_law::{Event, converges};

/// Runs a list of events in a world with an empty node for each writer, and answers a question from what one of the
/// nodes then holds, by 1 to 64 workers. None if there is no such node. `Workers`, before anything else, exactly if
/// their number isn't 1 to 64; otherwise fails only if memory runs out. May wait for threads.
///
/// The clauses are the main result: the answer is a function of the edits that the node took and of the question. So
/// nodes that took the same edits, in any order and number, give the same units with the same settings, and the same
/// plan or refusal. That holds of every answer, by any number of workers.
pub fn answer_in_world<R: Threads + Sync, G: Gate + Sync>(
    rt: &R,
    alloc: Global,
    writers: &[u32],
    events: &[Event],
    node: usize,
    extra: &[UnitName],
    question: &Question,
    workers: usize,
    gate: &G,
) -> Result<Option<Answer>, AnswerFault>
    ensures workers { (result ≡ Err Workers) ↔ ((workers ≡ 0) ⊎ (64 < workers)) }

    // There is an answer if there is such a node.
    ensures some { IfOk result (λ found. IsSome found ↔ (node < length writers.now)) }

    // The answer is that of the store of the node after these events, whatever versions the edits have.
    ensures model { IfOk result
        (λ found. IfSome found
        (AnswersItsStore (length writers.now) events.now node extra.now question.now)) }

    // If no two edits that were put have the same version, it is the answer of the sum of the edits that the node took,
    // which is their least upper bound.
    ensures sum { IfOk result
        (λ found. IfSome found
        (AnswersItsSum (length writers.now) events.now node extra.now question.now)) }

    // The same, where what the node took is defined by the events alone.
    ensures by_events { IfOk result
        (λ found. IfSome found
        (AnswersByEvents (length writers.now) events.now node extra.now question.now)) }

    // So any node that took the same edits, by now or by any later moment, has the same answer.
    ensures same { IfOk result (λ found. IfSome found (λ answer. (later : List Event) →
        AgreesLater (length writers.now) events.now node extra.now question.now later answer)) }

    // If no two edits that were put have the same version, the node holds the least store above what it took.
    ensures least { IfOk result
        (λ found. IfSome found (λ _. HoldsLeast (length writers.now) events.now node)) }

    // And any node that took the same edits, by now or by any later moment, holds the same store.
    ensures stores { IfOk result (λ found. IfSome found (λ _. (later : List Event) →
        HoldsSameLater (length writers.now) events.now node later)) }
{
    converges();
    if !is_worker_count(workers) {
        return Err(AnswerFault::Workers);
    }
    let Ok(world) = run_world(alloc, writers, events) else {
        return Err(AnswerFault::Memory);
    };
    match world.replicas.get(node) {
        Some(replica) => {
            let store = replica.store();
            Ok(Some(answer_question(rt, alloc, store, extra, question, workers, gate)?))
        }
        None => Ok(None),
    }
}
