//! A service: one seat executes the messages of an inbox.
ghost use Rattle.std.specs.Prelude.{◌≡◌, ◌+◌};
ghost use mathlib.Core.List.{IsPrefix};
ghost use Rattle.shared_node.specs.Steps.{calls_in, step_at};

use crate::faults::NodeFault;
use crate::node::Node;
use crate::seat::Seat;
use crossbeam_channel::Receiver;
use delta_pieces::Piece;
use edit_sums::Content;
use load_places::Place;
use node_histories::NodeName;
use std::sync::Wait;
use worker_rounds::{Gate, pass_gate};

/// A request to a node.
#[derive(Drop)]
pub enum Message {
    /// An edit, as by `Node::edit`.
    Edit(Place, Content),
    /// A piece, as by `Node::absorb`.
    Absorb(Piece),
    /// Ends the service.
    End,
}

/// How many messages were answered, how many were accepted but not published for lack of memory, and how many were
/// refused.
#[derive(Clone, Copy, Debug, PartialEq, Eq)]
pub struct Served {
    pub answered: usize,
    pub pending: usize,
    pub refused: usize,
}

// The result of one message.
#[derive(Clone, Copy)]
enum Step {
    Answered,
    Pending,
    Refused,
}

// The result of a take.
fn step_of<N: NodeName, T: Drop>(taken: Result<T, NodeFault<N>>) -> Step
    ensures { result ≡ step_at taken }
{
    match taken {
        Ok(_) => Step::Answered,
        Err(NodeFault::Pending { .. }) => Step::Pending,
        Err(_) => Step::Refused,
    }
}

// Executes one message when the gate lets it. None for the end of the service.
fn do_message<N: NodeName, R: Wait, G: Gate>(
    rt: &R,
    node: &Node<N>,
    seat: &mut Seat<N>,
    message: Message,
    number: usize,
    gate: &G,
) -> Option<Step>
    ensures calls { seat.new.calls ≡ seat.old.calls + calls_in result }
    ensures seen { IsPrefix seat.old.seen seat.new.seen }
    ensures number { seat.new.number ≡ seat.old.number }
{
    match message {
        Message::Edit(place, content) => {
            pass_gate(gate, number);
            Some(step_of(node.edit(rt, seat, place, content)))
        }
        Message::Absorb(piece) => {
            pass_gate(gate, number);
            Some(step_of(node.absorb(rt, seat, piece)))
        }
        Message::End => None,
    }
}

/// Executes the messages of the inbox, one after another: each edit as `Node::edit` does, each piece as `Node::absorb`
/// does. Before each such message it asks the gate with the message's number, from 0, until the gate answers true, at
/// most `worker_rounds::TURNS` times. Ends at `Message::End`, when the inbox is disconnected, or after `usize::MAX`
/// messages. May wait for messages, and as `Node::edit` does.
pub fn serve<N: NodeName, R: Wait, G: Gate>(
    rt: &R,
    node: &Node<N>,
    seat: &mut Seat<N>,
    inbox: &Receiver<Message>,
    gate: &G,
) -> Served
    ensures calls { seat.new.calls ≡ seat.old.calls + (result.answered + result.pending) }
    ensures seen { IsPrefix seat.old.seen seat.new.seen }
    ensures number { seat.new.number ≡ seat.old.number }
{
    let mut served = Served {
        answered: 0,
        pending: 0,
        refused: 0,
    };
    for number in 0..usize::MAX {
        let Ok(message) = inbox.recv(rt) else {
            break;
        };
        match do_message(rt, node, seat, message, number, gate) {
            Some(Step::Answered) => served.answered += 1,
            Some(Step::Pending) => served.pending += 1,
            Some(Step::Refused) => served.refused += 1,
            None => break,
        }
    }
    served
}
