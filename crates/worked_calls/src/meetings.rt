//! Whom a node over a log in memory meets, from an open to a crash, and whom it knows once it is opened again and compacted.
//! An open takes a step of the log, and so does each group of peers that is noted.
ghost use Rattle.std.specs.Prelude.{◌≡◌, None};

use crate::lives::{open, unless_memory};
use durable_node::{LogPeer, NodeFault, NodeFile};
use edit_log::{EditLog, MemoryLog};
use std::alloc::Global;
use worked_lines::{Answer, LineFault, Words, byte_of, cut_at, match_word, writer_of};

// The peer that a word writes, as MARK.WRITER=SEEN: MARK is each byte of its mark.
fn peer_of(word: &[u8]) -> Result<LogPeer, LineFault> {
    let (node, seen) = cut_at(word, b'=').ok_or(LineFault::Words)?;
    let (mark, writer) = cut_at(node, b'.').ok_or(LineFault::Words)?;
    Ok(LogPeer {
        mark: [byte_of(mark)?; 16],
        writer: writer_of(writer)?,
        seen: writer_of(seen)?,
    })
}

// The peers that a list of words writes.
fn peers_of(words: &mut Words) -> Result<Vec<LogPeer>, LineFault> {
    let mut peers = Vec::new(words.alloc);
    for word in &words.list()? {
        peers.push(peer_of(word)?)?;
    }
    Ok(peers)
}

// Reads lists of peers up to the end.
pub(crate) fn groups_of(words: &mut Words) -> Result<Vec<Vec<LogPeer>>, LineFault> {
    let mut groups = Vec::new(words.alloc);
    for _ in 0..words.most() {
        if words.is_over() {
            break;
        }
        groups.push(peers_of(words)?)?;
    }
    Ok(groups)
}

// Notes groups of peers until one is refused. Returns how many were noted.
pub(crate) fn note_each(
    node: &mut NodeFile<MemoryLog>,
    groups: &[Vec<LogPeer>],
) -> Result<u64, LineFault> {
    let mut count = 0_u64;
    for group in groups {
        if unless_memory(node.note_peers(group))?.is_none() {
            return Ok(count);
        }
        count = count.saturating_add(1);
    }
    Ok(count)
}

// A node over a log that suffices.
fn opened(alloc: Global, log: MemoryLog) -> Result<NodeFile<MemoryLog>, LineFault>
    requires running { log.failed ≡ None }
{
    unless_memory(NodeFile::open(alloc, log))?.ok_or(LineFault::Words)
}

// Whom a node knows whose log suffices.
fn known(alloc: Global, node: &mut NodeFile<MemoryLog>) -> Result<Vec<LogPeer>, LineFault> {
    unless_memory(node.peers(alloc))?.ok_or(LineFault::Words)
}

// Whom a node knows that is opened over a log, once it is compacted.
fn known_compacted(alloc: Global, log: MemoryLog) -> Result<Vec<LogPeer>, LineFault>
    requires running { log.failed ≡ None }
{
    let mut fresh = MemoryLog::new(alloc, log.head(), 4);
    let mut node = opened(alloc, log)?;
    let peers = known(alloc, &mut node)?;
    match node.compact_into(&mut fresh, 1, &peers) {
        Ok(()) => known(alloc, &mut opened(alloc, fresh)?),
        Err(NodeFault::Memory) => Err(LineFault::Memory),
        Err(_) => Err(LineFault::Words),
    }
}

/// Writes the answer to meetings in a life of so many steps: how many groups of peers were noted, and whom the next open knows
/// where a crash left what was being noted `whole`, or left `nothing` of it.
pub fn answer(words: &mut Words, out: &mut Answer) -> Result<(), LineFault> {
    let alloc = words.alloc;
    let steps = words.number()?;
    let whole = match_word!(words.word()?; b"whole" => Ok(true), b"nothing" => Ok(false),)?;
    let groups = groups_of(words)?;
    let Some(mut node) = open(alloc, steps)? else {
        out.write(b"not opened");
        return Ok(());
    };
    let count = note_each(&mut node, &groups)?;
    let left = node.into_log().after_crash(whole, 2)?;
    out.write_made(format!(in alloc; "{count} noted, then"));
    for peer in &known_compacted(alloc, left)? {
        out.write_made(format!(in alloc; " {}.{}={}", peer.mark[0], peer.writer, peer.seen));
    }
    Ok(())
}
