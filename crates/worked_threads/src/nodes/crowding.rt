//! Crowds at an empty node.
use crowds::{Counted, CrowdFault, Gate, MOST_EDITS, ROOM, crowd};
use replica_store::Replica;
use std::sync::Wait;
use std::thread::Threads;
use std::time::Clock;
use worked_lines::{Answer, CountingGate, LineFault, Meeting, Words};

// Writes the result of a crowd at a node of this writer.
fn append_crowd<R: Threads + Wait + Sync, G: Gate + Sync>(
    rt: &R,
    out: &mut Answer,
    writer: u32,
    seats: usize,
    edits: u64,
    gate: &G,
) -> Result<(), LineFault> {
    let replica = Replica::new(out.alloc, writer);
    if edits > MOST_EDITS || replica.high() > u64::MAX - ROOM {
        return Err(LineFault::Words);
    }
    let counted = crowd(rt, out.alloc, &replica, seats, edits, gate);
    append_counted(out, &counted)
}

// Writes what a crowd came to.
fn append_counted(
    out: &mut Answer,
    counted: &Result<Counted, CrowdFault>,
) -> Result<(), LineFault> {
    match counted {
        Ok(Counted { takes, paths }) => {
            out.line_made(format!(in out.alloc; "takes {takes} paths {paths}"));
        }
        Err(CrowdFault::Seats) => out.line(b"A1 Seats"),
        Err(CrowdFault::Memory) => return Err(LineFault::Memory),
    }
    Ok(())
}

/// The answer to a line of a crowd, and how often its gate was asked for each worker.
pub fn answer_crowd<R: Threads + Wait + Sync>(
    rt: &R,
    words: &mut Words,
    out: &mut Answer,
) -> Result<(), LineFault> {
    let (writer, seats, edits) = (words.writer()?, words.index()?, words.number()?);
    let gate = CountingGate::new(words.alloc, 0)?;
    append_crowd(rt, out, writer, seats, edits, &gate)?;
    out.line(b"asked for");
    gate.append_to(out);
    Ok(())
}

/// The answer to a line of two workers that wait for each other before their first edits.
pub fn answer_meeting<R: Threads + Wait + Clock + Sync>(
    rt: &R,
    words: &mut Words,
    out: &mut Answer,
) -> Result<(), LineFault> {
    let writer = words.writer()?;
    let gate = Meeting::new(rt);
    append_crowd(rt, out, writer, 2, 1, &gate)?;
    out.line(if gate.were_together() {
        b"both workers worked at the same time"
    } else {
        b"no two workers worked at the same time"
    });
    Ok(())
}
