//! Two nodes exchange pieces over a channel of bytes that loses messages, repeats them and changes their order.
use crate::faults::EmbeddingFault;
use crate::meeting::put;
use crate::messages::{message_of, piece_of};
use delta_pieces::{delta_for, digest, take};
use replica_store::Replica;
use std::alloc::{AllocError, Global};

/// Each node sends all that it holds, one edit in a message. The first messages arrive last and twice, and what was
/// lost is sent again. Returns whether both then hold the same.
pub fn exchange_messages(alloc: Global) -> Result<bool, EmbeddingFault> {
    let mut a = Replica::new(alloc, 1);
    let mut b = Replica::new(alloc, 2);
    put_files(&mut a, &mut b)?;
    exchange(&mut a, &mut b)?;
    Ok(a.store().same(b.store()))
}

// Each node puts files of its own.
fn put_files(a: &mut Replica, b: &mut Replica) -> Result<(), EmbeddingFault> {
    put(a, b"/etc/systemd/system/x.service", b"[Unit]\n")?;
    put(
        a,
        b"web1:/etc/systemd/system/x.service",
        b"[Unit]\nDescription=web1\n",
    )?;
    put(b, b"/etc/systemd/system/y.service", b"[Unit]\n")
}

// Each node is given what the other held at first.
fn exchange(a: &mut Replica, b: &mut Replica) -> Result<(), EmbeddingFault> {
    let alloc = a.store().allocator();
    let from_a = messages_of(alloc, a)?;
    let from_b = messages_of(alloc, b)?;
    for message in from_a.iter().rev() {
        give(b, message)?;
    }
    give_all(b, &from_a)?;
    give_all(a, &from_b)
}

// Gives a node what messages carry.
fn give_all(node: &mut Replica, messages: &[Vec<u8>]) -> Result<(), EmbeddingFault> {
    for message in messages {
        give(node, message)?;
    }
    Ok(())
}

// Gives a node what a message carries.
fn give(node: &mut Replica, message: &[u8]) -> Result<(), EmbeddingFault> {
    let alloc = node.store().allocator();
    match take(node, piece_of(alloc, message)?) {
        Ok(_) => Ok(()),
        Err(_) => Err(EmbeddingFault::Memory(AllocError)),
    }
}

// All that a node holds, one edit in a message: what a node lacks that holds nothing.
fn messages_of(alloc: Global, node: &Replica) -> Result<Vec<Vec<u8>>, EmbeddingFault> {
    let nothing = digest(alloc, &Replica::new(alloc, 0))?;
    let mut left = delta_for(alloc, node, &nothing)?;
    let mut messages = Vec::new(alloc);
    for _ in 0..left.len() {
        let Ok((first, others)) = left.split(1) else {
            return Err(EmbeddingFault::Memory(AllocError));
        };
        messages.push(message_of(alloc, &first)?)?;
        left = others;
    }
    Ok(messages)
}
