//! Executes the messages of an inbox at a node.
use crate::nodes::bench::Bench;
use crate::nodes::edits::one_piece;
use crossbeam_channel::{Receiver, Sender, unbounded};
use node_histories::NodeName;
use shared_node::{Message, Node, Served, serve};
use std::sync::Wait;
use worked_lines::{CountingGate, LineFault, Words, match_word};

// The message that a word and those after it write.
fn message_of(word: &[u8], words: &mut Words) -> Result<Message, LineFault> {
    match_word!(word;
        b"edit" => Ok(Message::Edit(words.place()?, words.file()?)),
        b"absorb" => Ok(Message::Absorb(one_piece(words)?)),
        b"end" => Ok(Message::End),
    )
}

// An inbox with the messages that a list of words writes. Its sender is dropped.
fn inbox_of<R: Wait>(rt: &R, words: &mut Words) -> Result<Receiver<Message>, LineFault> {
    let (sender, inbox) = unbounded(words.alloc)?;
    send_all(rt, &sender, words)?;
    Ok(inbox)
}

// Sends the messages that a list of words writes.
fn send_all<R: Wait>(rt: &R, sender: &Sender<Message>, words: &mut Words) -> Result<(), LineFault> {
    for _ in 0..words.most() {
        let Some(word) = words.listed() else {
            break;
        };
        let message = message_of(word, words)?;
        if sender.send(rt, message).is_err() {
            return Err(LineFault::Memory);
        }
    }
    Ok(())
}

// Writes the result of serving an inbox, and how often the gate was asked for each message.
fn write_served<N: NodeName>(bench: &mut Bench<N>, served: Served, gate: &CountingGate) {
    bench.write_number("answered", served.answered as u64);
    bench.write_number("pending", served.pending as u64);
    bench.write_number("refused", served.refused as u64);
    bench.write("asked for");
    gate.append_to(&mut bench.out);
}

// Serves an inbox from the seat with a number, at this gate.
fn serve_at<N: NodeName, R: Wait>(
    rt: &R,
    node: &Node<N>,
    bench: &mut Bench<N>,
    at: usize,
    inbox: &Receiver<Message>,
    gate: &CountingGate,
) {
    let Some(seat) = bench.seat(at) else {
        return bench.write("no seat");
    };
    let served = serve(rt, node, seat, inbox, gate);
    write_served(bench, served, gate);
}

/// Serves an inbox from a seat, at a gate that refuses each message a given number of times.
pub fn work_inbox<N: NodeName, R: Wait>(
    rt: &R,
    node: &Node<N>,
    bench: &mut Bench<N>,
    words: &mut Words,
) -> Result<(), LineFault> {
    let at = words.index()?;
    let gate = CountingGate::new(words.alloc, words.index()?)?;
    let inbox = inbox_of(rt, words)?;
    serve_at(rt, node, bench, at, &inbox, &gate);
    Ok(())
}
