//! Answers a question from one store.
ghost use Rattle.std.specs.Prelude.{◌≡◌, ◌↔◌, ◌⊎◌, ◌<◌, Err, IfOk};
ghost use Rattle.fleet_answers.specs.{Answers.{IsAnswer}, declared.questions.AnswerFault.TheVariants.{Workers}};

use crate::names::whole_names;
use crate::questions::{Answer, AnswerFault, Question};
use crate::snapshots::Snapshot;
use parallel_load::{Gate, LoadFault, is_worker_count};
use replica_store::Store;
use std::alloc::{AllocError, Global};
use std::thread::Threads;
use unit_name::UnitName;

/// Answers a question from a store for the question's host, in one thread. Loads these names besides those of the
/// question. Fails only if memory runs out.
///
/// A template among the names is answered before anything is loaded.
pub fn answer_here(
    alloc: Global,
    store: &Store,
    extra: &[UnitName],
    question: &Question,
) -> Result<Answer, AllocError>
    ensures answer { IfOk result (IsAnswer store.now extra.now question.now) }
{
    let Some(names) = whole_names(alloc, extra, question)? else {
        return Ok(Answer::Template);
    };
    match Snapshot::of(alloc, store, question.viewer(), &names) {
        Ok(mut snapshot) => snapshot.answer(question),
        Err(LoadFault::TooManyUnits) => Ok(Answer::TooManyUnits),
        Err(_) => Err(AllocError),
    }
}

/// The same answer, by 1 to 64 workers. Neither their number nor the gate's answers change it. `Workers`, before
/// anything else, exactly if the number isn't 1 to 64. May wait for threads.
pub fn answer_question<R: Threads + Sync, G: Gate + Sync>(
    rt: &R,
    alloc: Global,
    store: &Store,
    extra: &[UnitName],
    question: &Question,
    workers: usize,
    gate: &G,
) -> Result<Answer, AnswerFault>
    ensures workers { (result ≡ Err Workers) ↔ ((workers ≡ 0) ⊎ (64 < workers)) }
    ensures answer { IfOk result (IsAnswer store.now extra.now question.now) }
{
    if !is_worker_count(workers) {
        return Err(AnswerFault::Workers);
    }
    let Ok(names) = whole_names(alloc, extra, question) else {
        return Err(AnswerFault::Memory);
    };
    let Some(names) = names else {
        return Ok(Answer::Template);
    };
    match Snapshot::by_workers(rt, alloc, store, question.viewer(), &names, workers, gate) {
        Ok(mut snapshot) => snapshot.answer(question).map_err(|_| AnswerFault::Memory),
        Err(LoadFault::TooManyUnits) => Ok(Answer::TooManyUnits),
        Err(_) => Err(AnswerFault::Memory),
    }
}
