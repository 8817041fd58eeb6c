//! Calls on ranges and prints, and what two replicas say in turns.
use crate::edits::{append_store, append_version};
use crate::pieces::holder;
use exchange_session::{Message, RangeAsk, RangePrint, open, reconcile, reply};
use join_law::Version;
use range_prints::{Range, parts, print, versions, within};
use replica_store::{Place, Replica};
use std::alloc::Global;
use worked_lines::{Answer, LineFault, Words, is, match_word, place_of};

// The most turns of a line.
const MOST_TURNS: usize = 100;

/// Writes the answer to a call on ranges.
pub fn answer(words: &mut Words, out: &mut Answer) -> Result<(), LineFault> {
    match_word!(words.word()?;
        b"within" => append_within(words, out),
        b"parts" => append_parts(words, out),
        b"print" => append_print(words, out),
        b"turns" => append_turns(words, out),
        b"reconcile" => append_reconciled(words, out),
    )
}

/// The bound that a word writes: a place, or none as `-`.
pub fn bound_of(alloc: Global, word: &[u8]) -> Result<Option<Place>, LineFault> {
    if is(word, b"-") {
        return Ok(None);
    }
    Ok(Some(place_of(alloc, word)?))
}

// The range that the next two words write.
fn range(words: &mut Words) -> Result<Range, LineFault> {
    let from = bound_of(words.alloc, words.word()?)?;
    let until = bound_of(words.alloc, words.word()?)?;
    Ok(Range { from, until })
}

// Writes a bound of a range.
fn append_bound(out: &mut Answer, bound: &Option<Place>) {
    match bound {
        None => out.write(b"-"),
        Some(place) => out.write_place(place),
    }
}

// Writes a range.
fn append_range(out: &mut Answer, range: &Range) {
    out.write(b"[");
    append_bound(out, &range.from);
    out.write(b",");
    append_bound(out, &range.until);
    out.write(b")");
}

// Writes a version at a place, after a comma unless nothing is written yet.
fn append_at(out: &mut Answer, place: &Place, version: Version) {
    out.part(b",");
    append_version(out, version);
    out.write(b":");
    out.write_place(place);
}

// Writes versions at places.
fn append_versions(out: &mut Answer, versions: &[(Place, Version)]) {
    for (place, version) in versions {
        append_at(out, place, *version);
    }
}

// Writes the versions of a store that are in a range.
fn append_within(words: &mut Words, out: &mut Answer) -> Result<(), LineFault> {
    let range = range(words)?;
    let node = holder(words)?;
    let all = versions(words.alloc, node.store())?;
    for it in within(&all, &range) {
        append_at(out, &it.place()?, it.version());
    }
    out.or(b"none");
    Ok(())
}

// Writes the parts of a range by the versions of a store.
fn append_parts(words: &mut Words, out: &mut Answer) -> Result<(), LineFault> {
    let count = words.index()?;
    let range = range(words)?;
    let node = holder(words)?;
    let all = versions(words.alloc, node.store())?;
    if count == 0 {
        return Err(LineFault::Words);
    }
    let here = within(&all, &range);
    for part in parts(words.alloc, range, here, count)? {
        out.part(b" ");
        append_range(out, &part);
    }
    Ok(())
}

// Writes the print of all versions of a store.
fn append_print(words: &mut Words, out: &mut Answer) -> Result<(), LineFault> {
    let seed = words.number()?;
    let node = holder(words)?;
    let all = versions(words.alloc, node.store())?;
    out.print(&print(seed, &all));
    Ok(())
}

// Writes an ask: its range, and what it tells of.
fn append_ask(out: &mut Answer, words: &Words, ask: &RangeAsk) {
    let mut told = Answer::new(words.alloc);
    append_versions(&mut told, ask.versions.versions());
    append_range(out, &ask.range);
    out.write(b"=");
    out.append(&told);
}

// Writes prints of ranges.
fn append_prints(out: &mut Answer, prints: &[RangePrint]) {
    for it in prints {
        out.part(b" ");
        append_range(out, &it.range);
        out.write(b"?");
    }
}

// Writes asks.
fn append_asks(out: &mut Answer, words: &Words, asks: &[RangeAsk]) {
    for ask in asks {
        out.part(b" ");
        append_ask(out, words, ask);
    }
}

// Writes the pieces of a message that have entries.
fn append_pieces(out: &mut Answer, words: &Words, message: &Message) -> Result<(), LineFault> {
    for piece in &message.pieces {
        if !piece.is_empty() {
            let mut entries = Answer::new(words.alloc);
            append_store(&mut entries, piece.store())?;
            out.part(b" ");
            out.write(b"{");
            out.append(&entries);
            out.write(b"}");
        }
    }
    Ok(())
}

/// Writes a message, after a stroke unless nothing is written yet: prints of ranges, asks, and pieces; `nothing` if it has none.
pub fn append_message(out: &mut Answer, words: &Words, message: &Message) -> Result<(), LineFault> {
    let mut told = Answer::new(words.alloc);
    append_prints(&mut told, &message.prints);
    append_asks(&mut told, words, &message.asks);
    append_pieces(&mut told, words, message)?;
    told.or(b"nothing");
    out.part(b" / ");
    out.append(&told);
    Ok(())
}

// Writes what is said in turns, from the first message on, until a side asks for no answer.
fn say(
    words: &Words,
    out: &mut Answer,
    seed: u64,
    one: &mut Replica,
    other: &mut Replica,
) -> Result<(), LineFault> {
    let mut message = open(words.alloc, one, seed)?;
    for turn in 0..MOST_TURNS {
        append_message(out, words, &message)?;
        let is_last = message.is_quiet();
        let node = if turn % 2 == 0 {
            &mut *other
        } else {
            &mut *one
        };
        message = reply(words.alloc, node, seed, message)?;
        if is_last {
            return Ok(());
        }
    }
    Err(LineFault::Words)
}

// Writes what two replicas say in turns, and whether they are the same behind that.
fn append_turns(words: &mut Words, out: &mut Answer) -> Result<(), LineFault> {
    let seed = words.number()?;
    let mut one = holder(words)?;
    let mut other = holder(words)?;
    say(words, out, seed, &mut one, &mut other)?;
    out.write(b": ");
    out.either(one.store().same(other.store()), b"the same", b"others");
    Ok(())
}

// Writes what two replicas hold once they are reconciled.
fn append_reconciled(words: &mut Words, out: &mut Answer) -> Result<(), LineFault> {
    let seed = words.number()?;
    let mut one = holder(words)?;
    let mut other = holder(words)?;
    reconcile(words.alloc, seed, &mut one, &mut other)?;
    append_store(out, one.store())?;
    out.either(
        one.store().same(other.store()),
        b", both",
        b", and the other something else",
    );
    Ok(())
}
