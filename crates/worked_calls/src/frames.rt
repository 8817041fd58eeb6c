//! Calls on the frames of an exchange.
use crate::bytes::refuse;
use crate::pieces::{asked, piece};
use crate::ranges::{append_message, bound_of};
use exchange_bytes::{Frame, Hello, Peer, Peers, frame_from_bytes, frame_to_bytes, frames_of};
use exchange_session::{Message, RangeAsk, RangePrint};
use range_prints::Range;
use std::alloc::Global;
use worked_lines::{Answer, LineFault, Words, is, version_of};

// The peer that a word writes as a version: the number that its mark is, and the writer.
fn peer_of(word: &[u8]) -> Result<Peer, LineFault> {
    let version = version_of(word)?;
    Ok(Peer {
        mark: (version.counter as u128).to_be_bytes(),
        writer: version.writer,
    })
}

// The peers that a list of words writes.
fn peers(words: &mut Words) -> Result<Peers, LineFault> {
    let mut peers = Peers::new(words.alloc);
    for word in words.list()? {
        peers.insert(peer_of(word)?)?;
    }
    Ok(peers)
}

// What a side says of itself: its seed, itself as a peer, and the peers that it has met.
fn hello(words: &mut Words) -> Result<Hello, LineFault> {
    let seed = words.number()?;
    let Peer { mark, writer } = peer_of(words.word()?)?;
    Ok(Hello {
        writer,
        mark,
        seed,
        peers: peers(words)?,
    })
}

// The range between two bounds.
fn range_of(alloc: Global, from: &[u8], until: &[u8]) -> Result<Range, LineFault> {
    let from = bound_of(alloc, from)?;
    let until = bound_of(alloc, until)?;
    Ok(Range { from, until })
}

// Prints of the ranges between each two bounds in a row.
fn prints_between(alloc: Global, bounds: &[&[u8]]) -> Result<Vec<RangePrint>, LineFault> {
    let mut prints = Vec::new(alloc);
    for at in 1..bounds.len() {
        prints.push(RangePrint {
            range: range_of(alloc, bounds[at - 1], bounds[at])?,
            print: at as u64,
        })?;
    }
    Ok(prints)
}

// Asks in the ranges between each two bounds in a row for what is newer than the versions of some edits.
fn asks_between(words: &mut Words, bounds: &[&[u8]]) -> Result<Vec<RangeAsk>, LineFault> {
    let versions = asked(words)?;
    let mut asks = Vec::new(words.alloc);
    for at in 1..bounds.len() {
        asks.push(RangeAsk {
            range: range_of(words.alloc, bounds[at - 1], bounds[at])?,
            versions: versions.try_clone()?,
        })?;
    }
    Ok(asks)
}

// The frames of a message with a hello: the prints and asks between bounds, and the piece of some edits.
fn frames(words: &mut Words) -> Result<Vec<Frame>, LineFault> {
    let hello = hello(words)?;
    let bounds = words.list()?;
    let prints = prints_between(words.alloc, &bounds)?;
    let asks = asks_between(words, &bounds)?;
    let mut pieces = Vec::new(words.alloc);
    pieces.push(piece(words)?)?;
    let message = Message {
        prints,
        asks,
        pieces,
    };
    Ok(frames_of(words.alloc, Some(hello), message)?)
}

/// Writes the bytes of a message's frames.
pub fn spell_frames(words: &mut Words, out: &mut Answer) -> Result<(), LineFault> {
    for frame in frames(words)? {
        out.part(b" ");
        out.spell(&frame_to_bytes(words.alloc, &frame)?);
    }
    Ok(())
}

/// Writes how much stands in each frame of a message, and how many bytes it has.
pub fn cut(words: &mut Words, out: &mut Answer) -> Result<(), LineFault> {
    for frame in frames(words)? {
        out.part(b" ");
        out.either(frame.hello.is_some(), b"hello ", b"");
        out.print(&frame.prints.len());
        out.write(b"+");
        out.print(&frame.asks.len());
        out.write(b"+");
        out.print(&frame.piece.len());
        out.write(b"=");
        out.print(&frame_to_bytes(words.alloc, &frame)?.len());
        out.either(frame.more, b" more", b"");
    }
    Ok(())
}

// Writes what a side says of itself.
fn append_hello(out: &mut Answer, hello: &Hello) {
    out.print(&hello.writer);
    out.write(b" ");
    out.spell(&hello.mark);
    out.write(b" ");
    out.print(&hello.seed);
    for peer in hello.peers.as_slice() {
        out.spell_quoted(&[(b' ', &peer.mark)]);
        out.write(b" ");
        out.print(&peer.writer);
    }
}

// Writes what stands in a frame.
fn append_frame(words: &Words, out: &mut Answer, frame: Frame) -> Result<(), LineFault> {
    if let Some(hello) = &frame.hello {
        append_hello(out, hello);
    }
    let more = frame.more;
    let (_, prints, asks, piece) = frame.into_parts();
    let mut pieces = Vec::new(words.alloc);
    pieces.push(piece)?;
    let message = Message {
        prints,
        asks,
        pieces,
    };
    append_message(out, words, &message)?;
    out.either(more, b" more", b"");
    Ok(())
}

/// Writes what the bytes of a frame spell, and whether it is written as these; or the fault in them.
pub fn read_frame(words: &Words, out: &mut Answer, bytes: &[u8]) -> Result<(), LineFault> {
    match frame_from_bytes(words.alloc, bytes) {
        Ok(frame) => {
            let again = frame_to_bytes(words.alloc, &frame)?;
            append_frame(words, out, frame)?;
            out.either(is(&again, bytes), b" as it was", b" otherwise");
            Ok(())
        }
        Err(fault) => refuse(out, fault),
    }
}
