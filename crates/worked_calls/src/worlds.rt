//! Calls on worlds: exchanges, sweeps, and runs of events.
//!
//! An event is a node's number followed by `!EDIT` for a put, `?` for an ask, and `/ASK` for a cut, then `@PATH,PATH`
//! for a cut at some paths. A give is a piece's number followed by `>NODE`.
use crate::edits::append_store;
use crate::replicas::replica;
use delta_gossip::{Event, Places, World, exchange, run_world, sweep};
use replica_store::Replica;
use std::alloc::Global;
use worked_lines::{
    Answer, LineFault, Words, cut_at, each_of, edit_of, index_of, match_word, parts_of, place_of,
    writer_of,
};

/// Writes the answer to a call on worlds.
pub fn answer(words: &mut Words, out: &mut Answer) -> Result<(), LineFault> {
    match_word!(words.word()?;
        b"exchange" => exchanged(words, out),
        b"sweep" => swept(words, out, &mut Answer::new(words.alloc)),
        b"run" => run(words, out),
    )
}

// Two replicas after an exchange.
fn exchanged(words: &mut Words, out: &mut Answer) -> Result<(), LineFault> {
    let mut a = replica(1, words)?;
    let mut b = replica(2, words)?;
    append_exchange(out, &mut a, &mut b)
}

// Exchanges, and writes how many paths changed in each of two replicas, and then both.
fn append_exchange(out: &mut Answer, a: &mut Replica, b: &mut Replica) -> Result<(), LineFault> {
    let (first, second) = exchange(a, b)?;
    out.write_made(format!(in out.alloc; "{first} and {second} changed; "));
    append_both(out, a, b)
}

// As many replicas as the next word says.
fn replicas(words: &mut Words) -> Result<Vec<Replica>, LineFault> {
    let mut replicas = Vec::new(words.alloc);
    for writer in 0..words.writer()? {
        replicas.push(replica(writer, words)?)?;
    }
    Ok(replicas)
}

/// Writes replicas after a sweep. If memory runs out, it writes them to `between` and sweeps again.
pub fn swept(words: &mut Words, out: &mut Answer, between: &mut Answer) -> Result<(), LineFault> {
    let mut replicas = replicas(words)?;
    if sweep(&mut replicas).is_err() {
        append_replicas(between, &replicas)?;
        sweep(&mut replicas)?;
    }
    append_replicas(out, &replicas)
}

// Writes what a replica holds, after its writer.
fn append_replica(out: &mut Answer, replica: &Replica) -> Result<(), LineFault> {
    out.print(&replica.writer());
    out.write(b" has");
    append_store(out, replica.store())
}

/// Writes two replicas.
pub fn append_both(out: &mut Answer, a: &Replica, b: &Replica) -> Result<(), LineFault> {
    append_replica(out, a)?;
    out.write(b" | ");
    append_replica(out, b)
}

// Writes replicas.
fn append_replicas(out: &mut Answer, replicas: &[Replica]) -> Result<(), LineFault> {
    let mut is_first = true;
    for replica in replicas {
        out.either(is_first, b"", b" | ");
        is_first = false;
        append_replica(out, replica)?;
    }
    Ok(())
}

// The world of the writers in the next word, after the events of the following words.
fn run(words: &mut Words, out: &mut Answer) -> Result<(), LineFault> {
    let writers = writers(words)?;
    append_run(out, &writers, &each_of(words.alloc, &words.list()?, event)?)
}

// The writers in the next word.
fn writers(words: &mut Words) -> Result<Vec<u32>, LineFault> {
    let parts = parts_of(words.alloc, words.word()?)?;
    each_of(words.alloc, &parts, |_, part| writer_of(part))
}

// Writes the world of these writers after these events.
fn append_run(out: &mut Answer, writers: &[u32], events: &[Event]) -> Result<(), LineFault> {
    append_world(out, &run_world(out.alloc, writers, events)?)
}

// Writes how many asks there are, how many paths each piece carries, and what each replica holds.
fn append_world(out: &mut Answer, world: &World) -> Result<(), LineFault> {
    let asks = world.asks.len();
    out.write_made(format!(in out.alloc; "asks {asks}; pieces"));
    for piece in &world.pieces {
        out.write(b" ");
        out.print(&piece.len());
    }
    out.write(b"; ");
    append_replicas(out, &world.replicas)
}

// The event that a word writes.
fn event(alloc: Global, word: &[u8]) -> Result<Event, LineFault> {
    let digits = word.iter().position(|b| !b.is_ascii_digit());
    let place = digits.ok_or(LineFault::Words)?;
    let number = index_of(&word[..place])?;
    let rest = &word[place + 1..];
    match word[place] {
        b'!' => Ok(Event::Put {
            node: number,
            edit: edit_of(alloc, rest)?,
        }),
        b'?' => Ok(Event::Ask { node: number }),
        b'/' => cut(alloc, number, rest),
        b'>' => Ok(Event::Give {
            piece: number,
            node: index_of(rest)?,
        }),
        _ => Err(LineFault::Words),
    }
}

// A node cuts for the ask in a word, at the places that follow it or at all.
fn cut(alloc: Global, node: usize, word: &[u8]) -> Result<Event, LineFault> {
    let Some((ask, names)) = cut_at(word, b'@') else {
        let ask = index_of(word)?;
        let places = None;
        return Ok(Event::Cut { node, ask, places });
    };
    let ask = index_of(ask)?;
    let names = parts_of(alloc, names)?;
    let places = Some(Places::new(each_of(alloc, &names, place_of)?));
    Ok(Event::Cut { node, ask, places })
}
