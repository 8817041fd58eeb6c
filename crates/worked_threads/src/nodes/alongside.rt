//! Views while a publish waits.
use crate::nodes::bench::Bench;
use crate::nodes::threads::make_edits;
use node_histories::NodeName;
use shared_node::{Node, Seat};
use std::alloc::Global;
use std::sync::Wait;
use std::sync::atomic::{AtomicBool, Ordering};
use std::thread;
use std::thread::Threads;
use std::time::{Clock, Duration};
use worked_lines::{LineFault, Meeting, Words};
use worker_rounds::Gate;

// How many edits are made. At the last of them, if not before, publishing waits for a view that was held before them.
const EDITS: u64 = 2;

// How many views are made meanwhile, at least a microsecond apart.
const VIEWS: u32 = 2_000;

// Views once, and waits a microsecond. Returns whether there was a view, and whether it didn't show both edits.
fn look<N: NodeName, R: Clock>(rt: &R, seat: Seat<N>) -> (Seat<N>, bool) {
    let (seat, is_fine) = match seat.view() {
        Ok(view) => {
            let is_before = view.takes() < EDITS;
            (view.leave(), is_before)
        }
        Err(fault) => (fault.seat, false),
    };
    thread::sleep(rt, Duration::from_micros(1));
    (seat, is_fine)
}

// Views `VIEWS` times. Returns whether each view was right.
fn look_on<N: NodeName, R: Clock>(rt: &R, seat: Seat<N>) -> (Seat<N>, bool) {
    let mut seat = seat;
    let mut are_fine = true;
    for _ in 0..VIEWS {
        let (next, is_fine) = look(rt, seat);
        seat = next;
        are_fine = are_fine && is_fine;
    }
    (seat, are_fine)
}

// What the two threads share: the moment from which a view is held, and whether the edits are over.
#[derive(Drop)]
struct Between<'a, R: Clock> {
    start: Meeting<'a, R>,
    is_over: AtomicBool,
}

// Holds a view of a seat, for which the edits of another seat wait, and views from a third. Returns whether each view
// was answered while the edits weren't over.
fn look_alongside<N: NodeName, R: Clock>(
    rt: &R,
    holder: Seat<N>,
    viewer: Seat<N>,
    between: &Between<R>,
) -> (Seat<N>, Seat<N>, bool) {
    let held = match holder.view() {
        Ok(held) => held,
        Err(fault) => return (fault.seat, viewer, false),
    };
    between.start.arrive(0);
    let (viewer, are_fine) = look_on(rt, viewer);
    let is_alongside = are_fine && !between.is_over.load(Ordering::SeqCst);
    (held.leave(), viewer, is_alongside)
}

// Edits from a seat, once a view is held, and sets a flag when this is over. Returns whether all edits were answered.
fn edit_meanwhile<N: NodeName, R: Wait + Clock>(
    rt: &R,
    alloc: Global,
    node: &Node<N>,
    writer: Seat<N>,
    between: &Between<R>,
) -> (Seat<N>, bool) {
    let mut writer = writer;
    between.start.arrive(1);
    let edited = make_edits(rt, alloc, node, &mut writer, EDITS);
    between.is_over.store(true, Ordering::SeqCst);
    (writer, edited.is_ok())
}

// Holds a view, edits, and views, each from a seat of its own. Returns the seats, and whether all went well.
fn work_alongside<N: NodeName + Send + Sync, R: Threads + Wait + Clock + Sync>(
    rt: &R,
    alloc: Global,
    node: &Node<N>,
    holder: Seat<N>,
    writer: Seat<N>,
    viewer: Seat<N>,
) -> (Seat<N>, Seat<N>, Seat<N>, bool) {
    let between = Between {
        start: Meeting::new(rt),
        is_over: AtomicBool::new(false),
    };
    let ((writer, is_edited), (holder, viewer, is_alongside)) = thread::join(
        rt,
        || edit_meanwhile(rt, alloc, node, writer, &between),
        || look_alongside(rt, holder, viewer, &between),
    );
    let is_fine = is_edited && is_alongside && between.start.were_together();
    (holder, writer, viewer, is_fine)
}

// Takes out three seats, until they are put back.
fn lent<N: NodeName>(
    bench: &mut Bench<N>,
    first: usize,
    second: usize,
    third: usize,
) -> Option<(Seat<N>, Seat<N>, Seat<N>)> {
    let holder = bench.lend(first)?;
    let writer = bench.lend(second)?;
    Some((holder, writer, bench.lend(third)?))
}

// The three seats with these numbers hold a view, edit and view.
fn alongside_at<N: NodeName + Send + Sync, R: Threads + Wait + Clock + Sync>(
    rt: &R,
    alloc: Global,
    node: &Node<N>,
    bench: &mut Bench<N>,
    (first, second, third): (usize, usize, usize),
) {
    let Some((holder, writer, viewer)) = lent(bench, first, second, third) else {
        return bench.write("no seat");
    };
    let (holder, writer, viewer, is_fine) = work_alongside(rt, alloc, node, holder, writer, viewer);
    bench.put_back(first, holder);
    bench.put_back(second, writer);
    bench.put_back(third, viewer);
    bench.write(if is_fine {
        "views were answered while a publish waited"
    } else {
        "no views were answered while a publish waited"
    });
}

/// One seat holds a view, so that another seat's edits wait for it under the lock. A third seat views meanwhile.
pub fn alongside<N: NodeName + Send + Sync, R: Threads + Wait + Clock + Sync>(
    rt: &R,
    node: &Node<N>,
    bench: &mut Bench<N>,
    words: &mut Words,
) -> Result<(), LineFault> {
    let seats = (words.index()?, words.index()?, words.index()?);
    alongside_at(rt, words.alloc, node, bench, seats);
    Ok(())
}
