//! Nodes at which several threads work at once.
ghost use Rattle.std.specs.Prelude.{◌≡◌};

use edit_sums::Content;
use node_histories::NodeName;
use replica_store::Place;
use shared_node::{Blank, Closed, Node, Seat};
use std::alloc::{AllocError, Global};
use std::sync::Wait;
use std::thread;
use std::thread::Threads;
use worked_lines::{Answer, LineFault, Words};

/// How many seats write and how many read, how many edits each writer makes, and how often each reader views.
#[derive(Clone, Copy)]
pub struct Workload {
    pub writers: usize,
    pub edits: u64,
    pub readers: usize,
    pub views: u64,
}

/// The workload that words write.
pub fn workload_of(words: &mut Words) -> Result<Workload, LineFault> {
    Ok(Workload {
        writers: words.index()?,
        edits: words.number()?,
        readers: words.index()?,
        views: words.number()?,
    })
}

// A seat, with what a thread does with it.
#[derive(Drop)]
struct Job<N: NodeName> {
    seat: Seat<N>,
    edits: u64,
    views: u64,
}

// The place of a seat's own file.
fn place_of(alloc: Global, seat: usize) -> Result<Place, LineFault> {
    let text = format!(in alloc; "/etc/systemd/system/crowd-{seat}.service")?;
    Place::parse(alloc, text.as_bytes()).map_err(|_| LineFault::Memory)
}

// What a seat writes in its edit with this number.
fn file_of(alloc: Global, seat: usize, number: u64) -> Result<Content, LineFault> {
    let text = format!(in alloc; "[Unit]\nDescription={seat} {number}\n")?;
    let bytes = Vec::from_slice(alloc, text.as_bytes())?;
    Content::file(bytes).map_err(|_| LineFault::Memory)
}

// Makes the edit of its own file with this number from a seat.
fn make_edit<N: NodeName, R: Wait>(
    rt: &R,
    alloc: Global,
    node: &Node<N>,
    seat: &mut Seat<N>,
    number: u64,
) -> Result<(), LineFault> {
    let place = place_of(alloc, seat.number())?;
    let content = file_of(alloc, seat.number(), number)?;
    if node.edit(rt, seat, place, content).is_err() {
        return Err(LineFault::Memory);
    }
    Ok(())
}

/// Makes this many edits of its own file from a seat.
pub fn make_edits<N: NodeName, R: Wait>(
    rt: &R,
    alloc: Global,
    node: &Node<N>,
    seat: &mut Seat<N>,
    edits: u64,
) -> Result<(), LineFault> {
    for number in 0..edits {
        make_edit(rt, alloc, node, seat, number)?;
    }
    Ok(())
}

// Views once. All takes are edits, so the number of takes in the view must be the greatest counter that its store
// holds.
fn look<N: NodeName>(seat: Seat<N>) -> (Seat<N>, bool) {
    match seat.view() {
        Ok(view) => {
            let is_fine = view.takes() == view.store().high();
            (view.leave(), is_fine)
        }
        Err(fault) => (fault.seat, false),
    }
}

// Views this many times. Returns whether each view was right.
fn look_often<N: NodeName>(seat: Seat<N>, views: u64) -> (Seat<N>, bool) {
    let mut seat = seat;
    let mut are_fine = true;
    for _ in 0..views {
        let (next, is_fine) = look(seat);
        seat = next;
        are_fine = are_fine && is_fine;
    }
    (seat, are_fine)
}

// Does a thread's job. Returns whether all went well.
fn do_job<N: NodeName, R: Wait>(
    rt: &R,
    alloc: Global,
    node: &Node<N>,
    job: Job<N>,
) -> (Seat<N>, bool) {
    let Job {
        mut seat,
        edits,
        views,
    } = job;
    let edited = make_edits(rt, alloc, node, &mut seat, edits);
    let (seat, are_fine) = look_often(seat, views);
    (seat, edited.is_ok() && are_fine)
}

// Adds this many jobs, each with a seat, a number of edits and a number of views.
fn add_jobs<N: NodeName, R: Wait>(
    rt: &R,
    node: &Node<N>,
    jobs: &mut Vec<Job<N>>,
    count: usize,
    edits: u64,
    views: u64,
) -> Result<(), LineFault> {
    for _ in 0..count {
        let Ok(seat) = node.seat(rt) else {
            return Err(LineFault::Words);
        };
        jobs.push(Job { seat, edits, views })?;
    }
    Ok(())
}

// A job for each seat of a workload.
fn jobs_of<N: NodeName, R: Wait>(
    rt: &R,
    alloc: Global,
    node: &Node<N>,
    workload: Workload,
) -> Result<Vec<Job<N>>, LineFault> {
    let mut jobs = Vec::new(alloc);
    add_jobs(rt, node, &mut jobs, workload.writers, workload.edits, 0)?;
    add_jobs(rt, node, &mut jobs, workload.readers, 0, workload.views)?;
    Ok(jobs)
}

// Does each job in a thread of its own.
fn do_jobs<N: NodeName + Send + Sync, R: Threads + Wait + Sync>(
    rt: &R,
    alloc: Global,
    node: &Node<N>,
    jobs: Vec<Job<N>>,
) -> Result<Vec<(Seat<N>, bool)>, AllocError> {
    let work = |job: Job<N>| -> (Seat<N>, bool) { do_job(rt, alloc, node, job) };
    thread::map_vec(rt, jobs, &work)
}

// The seats that the threads return, and whether all went well.
fn seats_of<N: NodeName>(
    alloc: Global,
    done: Vec<(Seat<N>, bool)>,
) -> Result<(Vec<Seat<N>>, bool), AllocError> {
    let mut seats = Vec::new(alloc);
    let mut are_fine = true;
    for (seat, is_fine) in done {
        seats.push(seat)?;
        are_fine = are_fine && is_fine;
    }
    Ok((seats, are_fine))
}

// Does what a workload says. Returns the seats.
fn do_workload<N: NodeName + Send + Sync, R: Threads + Wait + Sync>(
    rt: &R,
    alloc: Global,
    node: &Node<N>,
    workload: Workload,
) -> Result<(Vec<Seat<N>>, bool), LineFault> {
    let jobs = jobs_of(rt, alloc, node, workload)?;
    let done = do_jobs(rt, alloc, node, jobs)?;
    Ok(seats_of(alloc, done)?)
}

// Writes how many takes a closed node had and how many paths it holds.
fn append_closed(out: &mut Answer, closed: &Closed, are_fine: bool) {
    let takes = closed.takes;
    let paths = closed.replica.store().len();
    out.line(if are_fine { b"fine" } else { b"not fine" });
    out.line_made(format!(in out.alloc; "closed takes {takes} paths {paths}"));
}

// Closes a node with its seats, and writes what is left of it.
fn close_with<N: NodeName, R: Wait>(
    rt: &R,
    node: Node<N>,
    seats: Vec<Seat<N>>,
    are_fine: bool,
    out: &mut Answer,
) -> Result<(), LineFault> {
    match node.close(rt, seats) {
        Ok(closed) => {
            append_closed(out, &closed, are_fine);
            Ok(())
        }
        Err(fault) => {
            fault.end(rt);
            Err(LineFault::Memory)
        }
    }
}

/// Does what a workload says at the node of this blank, each seat in a thread of its own, and closes the node.
pub fn work_threads<N: NodeName + Send + Sync, R: Threads + Wait + Sync>(
    rt: &R,
    blank: Blank,
    workload: Workload,
    out: &mut Answer,
) -> Result<(), LineFault>
    requires book { blank.book ≡ N.book }
    requires opening { blank.opening ≡ N.opening }
    requires seats { blank.seats ≡ N.seats }
{
    let node = Node::<N>::open(blank);
    match do_workload(rt, out.alloc, &node, workload) {
        Ok((seats, are_fine)) => close_with(rt, node, seats, are_fine, out),
        Err(fault) => {
            node.end(rt);
            Err(fault)
        }
    }
}
