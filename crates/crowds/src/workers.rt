//! What one worker of a crowd does.
ghost use Rattle.std.specs.Prelude.{◌≡◌, ◌+◌, ◌≤◌, IfOk, OnOk};
ghost use Rattle.crowds.specs.Workers.{own_edits, HasWorked};

use crate::texts::{file_of, place_of};
use node_histories::NodeName;
use shared_node::{Node, Seat};
use std::alloc::{AllocError, Global};
use std::sync::Wait;
use worker_rounds::{Gate, pass_gate};

// Makes the worker's edit with this number, from the seat with the worker's number.
fn edit_once<N: NodeName, R: Wait>(
    rt: &R,
    alloc: Global,
    node: &Node<N>,
    seat: &mut Seat<N>,
    number: u64,
) -> Result<(), AllocError>
    ensures number { OnOk result (seat.new.number ≡ seat.old.number) }
    ensures calls { OnOk result (seat.new.calls ≡ seat.old.calls + 1) }
    ensures own { OnOk result (own_edits seat.old.number seat.old.seen + 1
        ≤ own_edits seat.old.number seat.new.seen) }
{
    let place = place_of(alloc, seat.number())?;
    let content = file_of(alloc, seat.number(), number)?;
    match node.edit(rt, seat, place, content) {
        Ok(_) => Ok(()),
        Err(_) => Err(AllocError),
    }
}

/// Passes the gate, and makes `edits` edits of the worker's own file, one after another. The worker's number is that of
/// its seat.
pub fn work<N: NodeName, R: Wait, G: Gate>(
    rt: &R,
    alloc: Global,
    node: &Node<N>,
    seat: Seat<N>,
    edits: u64,
    gate: &G,
) -> Result<Seat<N>, AllocError>
    requires fresh { seat.calls ≡ 0 }
    ensures worked { IfOk result (λ done. HasWorked edits seat.number done) }
{
    let mut seat = seat;
    pass_gate(gate, seat.number());
    for number in 0..edits {
        edit_once(rt, alloc, node, &mut seat, number)?;
    }
    Ok(seat)
}
