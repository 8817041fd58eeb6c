//! Calls that are repeated, with what came back, if memory ran out during them.
//!
//! The answer is that of the call if nothing fails. If something failed, the state between the two calls follows it,
//! after the words `; refused at`.
use crate::edits::append_store;
use crate::joins::versioned;
use crate::maps::{Numbers, append_map, map};
use crate::pieces::{holder, piece, split};
use crate::replicas::{put, removed, replica};
use crate::worlds::{append_both, swept};
use delta_gossip::exchange;
use delta_pieces::{Piece, TakeFault, take};
use join_law::{Join, Rest};
use replica_store::{Replica, Store};
use worked_lines::{Answer, LineFault, Words, byte_of, match_word};

/// Writes the answer to a call that may be repeated.
pub fn answer(words: &mut Words, out: &mut Answer) -> Result<(), LineFault> {
    let mut between = Answer::new(words.alloc);
    returned(words, out, &mut between)?;
    if !between.is_empty() {
        out.write(b"; refused at ");
    }
    out.append(&between);
    Ok(())
}

// The answer, and the state between two calls, if there were two.
fn returned(words: &mut Words, out: &mut Answer, between: &mut Answer) -> Result<(), LineFault> {
    match_word!(words.word()?;
        b"join" => joined(words, out, between),
        b"at" => joined_at(words, out, between),
        b"absorb" => absorbed(words, out, between),
        b"merge" => merged(words, out, between),
        b"put" => put(1, words, out, between),
        b"remove" => removed(1, words, out, between),
        b"take" => taken(words, out, between),
        b"split" => split(words, out, between),
        b"exchange" => exchanged(words, out, between),
        b"sweep" => swept(words, out, between),
    )
}

// A map that another is joined to; if that fails, then the rest of the other.
fn joined(words: &mut Words, out: &mut Answer, between: &mut Answer) -> Result<(), LineFault> {
    let mut joined = map(words)?;
    join_map(&mut joined, map(words)?, between)?;
    append_map(out, &joined);
    Ok(())
}

// Joins a map to another; if that fails, then the rest of it.
fn join_map(joined: &mut Numbers, other: Numbers, between: &mut Answer) -> Result<(), LineFault> {
    if let Err(Rest { rest }) = joined.join_from(other) {
        append_map(between, joined);
        joined.join_from(rest)?;
    }
    Ok(())
}

// A map that a value is joined to at a key; if that fails, then the rest.
fn joined_at(words: &mut Words, out: &mut Answer, between: &mut Answer) -> Result<(), LineFault> {
    let mut joined = map(words)?;
    join_next(&mut joined, words, between)?;
    append_map(out, &joined);
    Ok(())
}

// Joins the value of a word to a map at the key of the word before it; if that fails, then the rest.
fn join_next(
    joined: &mut Numbers,
    words: &mut Words,
    between: &mut Answer,
) -> Result<(), LineFault> {
    let key = byte_of(words.word()?)?;
    let value = versioned(words.word()?)?;
    if let Err(Rest { rest }) = joined.join_at(key, value) {
        append_map(between, joined);
        let (key, value) = rest;
        joined.join_at(key, value)?;
    }
    Ok(())
}

// A store that absorbs another; if that fails, then the rest of the other.
fn absorbed(words: &mut Words, out: &mut Answer, between: &mut Answer) -> Result<(), LineFault> {
    let mut first = words.store()?;
    absorb(&mut first, words.store()?, between)?;
    append_store(out, &first)
}

// Lets a store absorb another; if that fails, then the rest of the other.
fn absorb(first: &mut Store, second: Store, between: &mut Answer) -> Result<(), LineFault> {
    if let Err(Rest { rest }) = first.absorb(second) {
        append_store(between, first)?;
        first.absorb(rest)?;
    }
    Ok(())
}

// A store that another is merged into, twice if the first merge fails.
fn merged(words: &mut Words, out: &mut Answer, between: &mut Answer) -> Result<(), LineFault> {
    let mut first = words.store()?;
    merge(&mut first, &words.store()?, between)?;
    append_store(out, &first)
}

// Merges a store into another, twice if the first merge fails.
fn merge(first: &mut Store, second: &Store, between: &mut Answer) -> Result<(), LineFault> {
    if first.merge(second).is_err() {
        append_store(between, first)?;
        first.merge(second)?;
    }
    Ok(())
}

// A replica that takes a piece; if that fails, then the rest of the piece.
fn taken(words: &mut Words, out: &mut Answer, between: &mut Answer) -> Result<(), LineFault> {
    let mut replica = holder(words)?;
    take_whole(&mut replica, piece(words)?, between)?;
    append_store(out, replica.store())
}

// Lets a replica take a piece; if that fails, then the rest of the piece.
fn take_whole(replica: &mut Replica, piece: Piece, between: &mut Answer) -> Result<(), LineFault> {
    if let Err(TakeFault { rest }) = take(replica, piece) {
        append_store(between, replica.store())?;
        take(replica, rest)?;
    }
    Ok(())
}

// Two replicas after an exchange, which is repeated if it fails.
fn exchanged(words: &mut Words, out: &mut Answer, between: &mut Answer) -> Result<(), LineFault> {
    let mut a = replica(1, words)?;
    let mut b = replica(2, words)?;
    exchange_both(&mut a, &mut b, between)?;
    append_both(out, &a, &b)
}

// Exchanges between two replicas, twice if the first exchange fails.
fn exchange_both(a: &mut Replica, b: &mut Replica, between: &mut Answer) -> Result<(), LineFault> {
    if exchange(a, b).is_err() {
        append_both(between, a, b)?;
        exchange(a, b)?;
    }
    Ok(())
}
