//! A node that threads share: each writes at a place of its own and views; then one seat asks what it views, edits, and asks
//! what it views next.
ghost use Rattle.std.specs.Prelude.{◌≡◌};

use crate::asking::append_starts;
use crate::faults::EmbeddingFault;
use crate::lines::append_truth;
use fleet_answers::TrackedReplica;
use node_histories::NodeName;
use replica_store::{Content, Place, Replica};
use shared_node::{Blank, Node, Seat};
use std::alloc::Global;
use std::marker::Brand;
use std::sync::Wait;
use std::thread;
use std::thread::Threads;

/// So many threads share the node, each with a seat.
const SEATS: usize = 4;

/// Writes what the seat was answered, and returns how many takes the node counted when it was closed.
pub fn edit_from_threads<R: AllocGlobal + Threads + Wait + Sync>(
    rt: &R,
    text: &mut Vec<u8>,
) -> Result<u64, EmbeddingFault> {
    match Blank::new(rt, Replica::new(rt.alloc(), 1), SEATS) {
        Ok(blank) => share_at::<Brand, R>(rt, blank, text),
        Err(_) => Err(EmbeddingFault::Node),
    }
}

// The same at the node of this blank.
fn share_at<N: NodeName + Send + Sync, R: AllocGlobal + Threads + Wait + Sync>(
    rt: &R,
    blank: Blank,
    text: &mut Vec<u8>,
) -> Result<u64, EmbeddingFault>
    requires book { blank.book ≡ N.book }
    requires opening { blank.opening ≡ N.opening }
    requires seats { blank.seats ≡ N.seats }
{
    let node = Node::<N>::open(blank);
    match work_all(rt, &node, text) {
        Ok(seats) => close(rt, node, seats),
        Err(fault) => {
            node.end(rt);
            Err(fault)
        }
    }
}

// What all seats do; they come back.
fn work_all<N: NodeName + Send + Sync, R: AllocGlobal + Threads + Wait + Sync>(
    rt: &R,
    node: &Node<N>,
    text: &mut Vec<u8>,
) -> Result<Vec<Seat<N>>, EmbeddingFault> {
    let alloc = rt.alloc();
    let seats = seats_of(rt, alloc, node)?;
    let work_one = |seat: Seat<N>| -> Result<Seat<N>, EmbeddingFault> {
        work(rt, alloc, node, seat)
    };
    let mut back = Vec::new(alloc);
    for seat in thread::map_vec(rt, seats, &work_one)? {
        back.push(seat?)?;
    }
    let Some(seat) = back.pop() else {
        return Err(EmbeddingFault::Node);
    };
    back.push(ask_twice(rt, node, seat, text)?)?;
    Ok(back)
}

// All seats of a node.
fn seats_of<N: NodeName, R: Wait>(
    rt: &R,
    alloc: Global,
    node: &Node<N>,
) -> Result<Vec<Seat<N>>, EmbeddingFault> {
    let mut seats = Vec::new(alloc);
    for _ in 0..SEATS {
        let Ok(seat) = node.seat(rt) else {
            return Err(EmbeddingFault::Node);
        };
        seats.push(seat)?;
    }
    Ok(seats)
}

// What a thread does from its seat: an edit, and then a view in which it stands. A view waits for nobody.
fn work<N: NodeName, R: Wait>(
    rt: &R,
    alloc: Global,
    node: &Node<N>,
    seat: Seat<N>,
) -> Result<Seat<N>, EmbeddingFault> {
    let text = format!(in alloc; "/etc/systemd/system/thread-{}.service", seat.number())?;
    let place = Place::parse(alloc, text.as_bytes())?;
    let seat = edit(rt, alloc, node, seat, &place, b"[Unit]\n")?;
    let Ok(view) = seat.view() else {
        return Err(EmbeddingFault::Node);
    };
    let stands = view.store().visible(&place).is_some();
    let seat = view.leave();
    if stands {
        Ok(seat)
    } else {
        Err(EmbeddingFault::Node)
    }
}

// Puts a file from a seat.
fn edit<N: NodeName, R: Wait>(
    rt: &R,
    alloc: Global,
    node: &Node<N>,
    seat: Seat<N>,
    place: &Place,
    text: &[u8],
) -> Result<Seat<N>, EmbeddingFault> {
    let mut seat = seat;
    let content = Content::file(Vec::from_slice(alloc, text)?)?;
    match node.edit(rt, &mut seat, place.try_clone()?, content) {
        Ok(_) => Ok(seat),
        Err(_) => Err(EmbeddingFault::Node),
    }
}

// Asks what is viewed, edits, and asks what is viewed then, where only what changed is read again; and whether that is the answer
// of the same view where nothing was asked before.
fn ask_twice<N: NodeName, R: AllocGlobal + Threads + Wait + Sync>(
    rt: &R,
    node: &Node<N>,
    seat: Seat<N>,
    text: &mut Vec<u8>,
) -> Result<Seat<N>, EmbeddingFault> {
    let mut own = empty(rt.alloc());
    let seat = ask(rt, seat, &mut own, text)?;
    let seat = need_another(rt, node, seat)?;
    let first = text.len();
    let seat = ask(rt, seat, &mut own, text)?;
    ask_anew(rt, seat, text, first)
}

// Edits a unit from a seat, so that it needs another.
fn need_another<N: NodeName, R: AllocGlobal + Wait>(
    rt: &R,
    node: &Node<N>,
    seat: Seat<N>,
) -> Result<Seat<N>, EmbeddingFault> {
    let alloc = rt.alloc();
    let place = Place::parse(alloc, b"/etc/systemd/system/thread-0.service")?;
    edit(
        rt,
        alloc,
        node,
        seat,
        &place,
        b"[Unit]\nRequires=thread-1.service\n",
    )
}

// Asks once more where nothing was asked before, and writes whether the answer is what the text has from a byte on.
fn ask_anew<N: NodeName, R: AllocGlobal + Threads + Sync>(
    rt: &R,
    seat: Seat<N>,
    text: &mut Vec<u8>,
    from: usize,
) -> Result<Seat<N>, EmbeddingFault> {
    let alloc = rt.alloc();
    let mut anew = Vec::new(alloc);
    let seat = ask(rt, seat, &mut empty(alloc), &mut anew)?;
    let alike = text.as_slice().ends_with(&anew) && text.len() == from.saturating_add(anew.len());
    append_truth(text, "asked again alike", alike)?;
    Ok(seat)
}

// A replica that holds nothing.
fn empty(alloc: Global) -> TrackedReplica {
    TrackedReplica::new(Replica::new(alloc, 0))
}

// Asks a seat's own replica, once it was given what the seat views: views only grow. Writes the answer.
fn ask<N: NodeName>(
    rt: &(impl AllocGlobal + Threads + Sync),
    seat: Seat<N>,
    own: &mut TrackedReplica,
    text: &mut Vec<u8>,
) -> Result<Seat<N>, EmbeddingFault> {
    let Ok(view) = seat.view() else {
        return Err(EmbeddingFault::Node);
    };
    let merged = own.merge(view.store());
    let seat = view.leave();
    merged?;
    append_starts(rt, own, b"thread-0.service", text)?;
    Ok(seat)
}

// Closes a node with all its seats.
fn close<N: NodeName, R: Wait>(
    rt: &R,
    node: Node<N>,
    seats: Vec<Seat<N>>,
) -> Result<u64, EmbeddingFault> {
    match node.close(rt, seats) {
        Ok(closed) => Ok(closed.takes),
        Err(fault) => {
            fault.end(rt);
            Err(EmbeddingFault::Node)
        }
    }
}
