//! What an operator asks of a node over a log in memory: its log, whom it knows, and what an edit put. The log stops at a step, which
//! `lives` and `meetings` count, and what is asked for takes one more; the writer takes some bytes at a time in some writes, and
//! then fails.
use crate::fakes::Narrow;
use crate::lives::{commit_each, commits_of, open};
use crate::meetings::{groups_of, note_each};
use durable_node::{NodeFault, NodeFile};
use edit_log::MemoryLog;
use node_commands::{CommandFault, Work, do_work};
use script_pipes::Watched;
use worked_lines::{Answer, LineFault, Words, match_word, version_of};

// The most bytes that a command writes here.
const ROOM: usize = 4096;

// A writer that takes this many bytes at a time in this many writes.
fn writer(words: &mut Words) -> Result<Narrow, LineFault> {
    Ok(Narrow {
        held: Vec::with_capacity(words.alloc, ROOM)?,
        width: words.index()?,
        writes_left: words.index()?,
        takes_none: false,
    })
}

// Does a piece of work, and writes what it wrote, behind why it was not done if it was not.
fn answer_work(
    node: &mut NodeFile<MemoryLog>,
    work: &Work,
    writer: Narrow,
    out: &mut Answer,
) -> Result<(), LineFault> {
    let mut sink = Watched::new(writer);
    match do_work(out.alloc, node, work, 1, &mut sink) {
        Ok(()) => (),
        Err(CommandFault::Memory) => return Err(LineFault::Memory),
        Err(CommandFault::Node(NodeFault::Memory)) => return Err(LineFault::Memory),
        Err(fault) => out.write_made(format!(in out.alloc; "{fault} ")),
    }
    out.spell(&sink.into_inner().held);
    Ok(())
}

// Does a piece of work at a node that made commits, as far as its log does them.
fn work_behind_commits(
    work: &Work,
    words: &mut Words,
    steps: u64,
    writer: Narrow,
    out: &mut Answer,
) -> Result<(), LineFault> {
    let commits = commits_of(words)?;
    let Some(mut node) = open(words.alloc, steps)? else {
        return Err(LineFault::Words);
    };
    commit_each(words.alloc, &mut node, &commits)?;
    answer_work(&mut node, work, writer, out)
}

// Tells whom a node knows that noted groups of peers, as far as its log does so.
fn peers(words: &mut Words, steps: u64, writer: Narrow, out: &mut Answer) -> Result<(), LineFault> {
    let groups = groups_of(words)?;
    let Some(mut node) = open(words.alloc, steps)? else {
        return Err(LineFault::Words);
    };
    note_each(&mut node, &groups)?;
    answer_work(&mut node, &Work::Peers, writer, out)
}

// What the edit of a place with a version put.
fn content(
    words: &mut Words,
    steps: u64,
    writer: Narrow,
    out: &mut Answer,
) -> Result<(), LineFault> {
    let place = words.place()?;
    let version = version_of(words.word()?)?;
    work_behind_commits(&Work::Content { place, version }, words, steps, writer, out)
}

/// Writes the answer to a command at a node of so many steps.
pub fn answer(words: &mut Words, out: &mut Answer) -> Result<(), LineFault> {
    let command = words.word()?;
    let steps = words.number()?;
    let writer = writer(words)?;
    match_word!(command;
        b"log" => work_behind_commits(&Work::Log, words, steps, writer, out),
        b"peers" => peers(words, steps, writer, out),
        b"content" => content(words, steps, writer, out),
    )
}
