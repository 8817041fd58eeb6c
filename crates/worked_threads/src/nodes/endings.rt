//! Closes nodes.
use crate::nodes::bench::{Bench, append_store};
use node_histories::NodeName;
use shared_node::{CloseCause, CloseFault, Closed, Node, Seat};
use std::sync::Wait;
use worked_lines::LineFault;

// The seats of a bench.
fn seats_of<N: NodeName>(bench: &mut Bench<N>) -> Result<Vec<Seat<N>>, LineFault> {
    let mut seats = Vec::new(bench.out.alloc);
    for slot in bench.seats.iter_mut() {
        if let Some(seat) = slot.take() {
            seats.push(seat)?;
        }
    }
    Ok(seats)
}

// Writes what is left of a node.
fn write_closed<N: NodeName>(bench: &mut Bench<N>, closed: &Closed) {
    bench.write("closed ");
    append_store(&mut bench.out, closed.takes, closed.replica.store());
}

// Closes a node with these seats, and writes the result. On a refusal returns the node and the seats.
fn close_token<N: NodeName, R: Wait>(
    rt: &R,
    node: Node<N>,
    bench: &mut Bench<N>,
    seats: Vec<Seat<N>>,
) -> Option<CloseFault<N>> {
    match node.close(rt, seats) {
        Ok(closed) => {
            write_closed(bench, &closed);
            None
        }
        Err(fault) => {
            bench.write_value(&fault.cause);
            Some(fault)
        }
    }
}

// Closes a node with these seats. If memory runs out, tries again with what was returned.
fn close_with<N: NodeName, R: Wait>(
    rt: &R,
    node: Node<N>,
    bench: &mut Bench<N>,
    seats: Vec<Seat<N>>,
) {
    let Some(CloseFault { node, seats, cause }) = close_token(rt, node, bench, seats) else {
        return;
    };
    if cause != CloseCause::Memory {
        node.end(rt);
        return;
    }
    if let Some(fault) = close_token(rt, node, bench, seats) {
        fault.end(rt);
    }
}

/// Closes a node with all seats of the bench.
pub fn close<N: NodeName, R: Wait>(
    rt: &R,
    node: Node<N>,
    bench: &mut Bench<N>,
) -> Result<(), LineFault> {
    match seats_of(bench) {
        Ok(seats) => {
            close_with(rt, node, bench, seats);
            Ok(())
        }
        Err(fault) => {
            node.end(rt);
            Err(fault)
        }
    }
}

// Closes a node with these seats, and if that was refused, with one more seat.
fn close_again<N: NodeName, R: Wait>(
    rt: &R,
    node: Node<N>,
    bench: &mut Bench<N>,
    seats: Vec<Seat<N>>,
    last: Seat<N>,
) -> Result<(), LineFault> {
    let Some(fault) = close_token(rt, node, bench, seats) else {
        return Ok(());
    };
    let CloseFault {
        node,
        mut seats,
        cause: _,
    } = fault;
    if seats.push(last).is_err() {
        node.end(rt);
        return Err(LineFault::Memory);
    }
    close_with(rt, node, bench, seats);
    Ok(())
}

/// Closes a node without its last seat, which is refused, and then with it.
pub fn close_short<N: NodeName, R: Wait>(
    rt: &R,
    node: Node<N>,
    bench: &mut Bench<N>,
) -> Result<(), LineFault> {
    let Ok(mut seats) = seats_of(bench) else {
        node.end(rt);
        return Err(LineFault::Memory);
    };
    match seats.pop() {
        Some(last) => close_again(rt, node, bench, seats, last),
        None => {
            close_with(rt, node, bench, seats);
            Ok(())
        }
    }
}
