//! Running nodes, at which several threads edit and view.
ghost use Rattle.std.specs.Prelude.{◌≡◌};

mod alongside;
mod bench;
mod crowding;
mod edits;
mod endings;
mod serving;
mod steps;
mod threads;

use crate::nodes::bench::Bench;
pub use crate::nodes::crowding::{answer_crowd, answer_meeting};
use crate::nodes::edits::one_edit;
use crate::nodes::endings::{close, close_short};
use crate::nodes::steps::step;
use crate::nodes::threads::{work_threads, workload_of};
use node_histories::NodeName;
use replica_store::{Replica, Store};
use shared_node::{Blank, BlankFault, Node};
use std::marker::Brand;
use std::slice::from_ref;
use std::sync::Wait;
use std::thread::Threads;
use std::time::Clock;
use worked_lines::{Answer, LineFault, Words, is};

// Executes the steps at an open node, up to the word `short` or to the end. Returns whether that word was there.
fn work_steps<N: NodeName + Send + Sync, R: Threads + Wait + Clock + Sync>(
    rt: &R,
    node: &Node<N>,
    bench: &mut Bench<N>,
    words: &mut Words,
) -> Result<bool, LineFault> {
    for _ in 0..words.most() {
        let Some(word) = words.next_word() else {
            break;
        };
        if is(word, b"short") {
            return Ok(true);
        }
        step(rt, node, bench, word, words)?;
    }
    Ok(false)
}

// Closes a node whose steps were executed, without its last seat first if they end with `short`.
fn close_worked<N: NodeName, R: Wait>(
    rt: &R,
    node: Node<N>,
    bench: &mut Bench<N>,
    worked: Result<bool, LineFault>,
) -> Result<(), LineFault> {
    match worked {
        Ok(true) => close_short(rt, node, bench),
        Ok(false) => close(rt, node, bench),
        Err(fault) => {
            node.end(rt);
            Err(fault)
        }
    }
}

// Executes a line at the node of this blank, and closes the node.
fn work_node<N: NodeName + Send + Sync, R: Threads + Wait + Clock + Sync>(
    rt: &R,
    blank: Blank,
    words: &mut Words,
    out: &mut Answer,
) -> Result<(), LineFault>
    requires book { blank.book ≡ N.book }
    requires opening { blank.opening ≡ N.opening }
    requires seats { blank.seats ≡ N.seats }
{
    let node = Node::<N>::open(blank);
    let mut bench = Bench::new(words.alloc);
    let worked = work_steps(rt, &node, &mut bench, words);
    close_worked(rt, node, &mut bench, worked)?;
    out.part(b"\n  ");
    out.append(&bench.out);
    Ok(())
}

// Executes a line at the node of this blank, under a name of its own.
fn work_blank<R: Threads + Wait + Clock + Sync>(
    rt: &R,
    blank: Blank,
    words: &mut Words,
    out: &mut Answer,
) -> Result<(), LineFault> {
    work_node::<Brand, R>(rt, blank, words, out)
}

// Writes why there is no blank, unless memory ran out.
fn append_refused(out: &mut Answer, fault: &BlankFault) -> Result<(), LineFault> {
    match fault {
        BlankFault::Seats => {
            out.line(b"A1 Seats");
            Ok(())
        }
        BlankFault::Memory(_) => Err(LineFault::Memory),
    }
}

// Executes a line at a node over this replica. If memory runs out for the blank, makes it again from the replica that
// is returned.
fn work_over<R: Threads + Wait + Clock + Sync>(
    rt: &R,
    replica: Replica,
    seats: usize,
    words: &mut Words,
    out: &mut Answer,
) -> Result<(), LineFault> {
    let blank = match Blank::new(rt, replica, seats) {
        Err(BlankFault::Memory(rest)) => {
            out.line(b"no blank: out of memory");
            Blank::new(rt, rest, seats)
        }
        made => made,
    };
    match blank {
        Ok(blank) => work_blank(rt, blank, words, out),
        Err(fault) => append_refused(out, &fault),
    }
}

// The replica of a writer that is empty, or holds the edit that words write.
fn replica_of(words: &mut Words, writer: u32, over_edit: bool) -> Result<Replica, LineFault> {
    if !over_edit {
        return Ok(Replica::new(words.alloc, writer));
    }
    let edit = one_edit(words)?;
    let store = Store::from_edits(words.alloc, from_ref(&edit))?;
    Ok(Replica::from_store(writer, store))
}

/// Writes the answer to a line of a node, over an empty replica or over one edit.
pub fn answer<R: Threads + Wait + Clock + Sync>(
    rt: &R,
    words: &mut Words,
    out: &mut Answer,
    over_edit: bool,
) -> Result<(), LineFault> {
    let writer = words.writer()?;
    let seats = words.index()?;
    let replica = replica_of(words, writer, over_edit)?;
    work_over(rt, replica, seats, words, out)
}

/// Writes the answer to a line of threads.
pub fn answer_threads<R: Threads + Wait + Sync>(
    rt: &R,
    words: &mut Words,
    out: &mut Answer,
) -> Result<(), LineFault> {
    let writer = words.writer()?;
    let workload = workload_of(words)?;
    let Some(seats) = workload.writers.checked_add(workload.readers) else {
        return Err(LineFault::Words);
    };
    match Blank::new(rt, Replica::new(words.alloc, writer), seats) {
        Ok(blank) => work_threads::<Brand, R>(rt, blank, workload, out),
        Err(fault) => append_refused(out, &fault),
    }
}
