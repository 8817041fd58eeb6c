//! Lives of a node over a log in memory that stops at a step: from an open to a crash, and what the next open holds. An
//! open takes a step, and a commit one for each edit and one more.
use durable_node::{FORMAT, LogHead, NodeFault, NodeFile};
use edit_log::MemoryLog;
use replica_store::{Content, EditFault};
use std::alloc::Global;
use worked_lines::{Answer, LineFault, Words, match_word, placed_of};

// The fault of a line whose node is refused memory, or what else the node is refused.
pub(crate) fn unless_memory<T: Drop>(
    outcome: Result<T, NodeFault>,
) -> Result<Option<T>, LineFault> {
    match outcome {
        Ok(done) => Ok(Some(done)),
        Err(NodeFault::Memory) => Err(LineFault::Memory),
        Err(_) => Ok(None),
    }
}

// A node over a new log that does so many steps, unless these don't suffice.
pub(crate) fn open(alloc: Global, steps: u64) -> Result<Option<NodeFile<MemoryLog>>, LineFault> {
    let head = LogHead {
        format: FORMAT,
        writer: 7,
        mark: [0; 16],
    };
    unless_memory(NodeFile::open(alloc, MemoryLog::new(alloc, head, steps)))
}

// Makes the edit that a word writes.
fn edit(alloc: Global, node: &mut NodeFile<MemoryLog>, word: &[u8]) -> Result<(), LineFault> {
    let (place, content) = placed_of(alloc, word)?;
    let made = if matches!(&content, Content::Gone) {
        node.remove(place)
    } else {
        node.put(place, content)
    };
    match made {
        Ok(_) => Ok(()),
        Err(EditFault::Memory) => Err(LineFault::Memory),
        Err(_) => Err(LineFault::Words),
    }
}

// Makes edits and commits them. Returns whether the commit was answered.
fn commit(
    alloc: Global,
    node: &mut NodeFile<MemoryLog>,
    edits: &[&[u8]],
) -> Result<bool, LineFault> {
    for word in edits {
        edit(alloc, node, word)?;
    }
    Ok(unless_memory(node.commit(1))?.is_some())
}

// Makes commits until one is refused. Returns how many were answered.
pub(crate) fn commit_each(
    alloc: Global,
    node: &mut NodeFile<MemoryLog>,
    commits: &[Vec<&[u8]>],
) -> Result<u64, LineFault> {
    let mut count = 0_u64;
    for edits in commits {
        if !commit(alloc, node, edits)? {
            return Ok(count);
        }
        count = count.saturating_add(1);
    }
    Ok(count)
}

// Reads lists of edits up to the end.
pub(crate) fn commits_of<'a>(words: &mut Words<'a>) -> Result<Vec<Vec<&'a [u8]>>, LineFault> {
    let mut commits = Vec::new(words.alloc);
    for _ in 0..words.most() {
        if words.is_over() {
            break;
        }
        commits.push(words.list()?)?;
    }
    Ok(commits)
}

/// Writes the answer to a life of so many steps: how many commits were answered, and what the next open holds where a crash
/// left what was being added `whole`, or left `nothing` of it.
pub fn answer(words: &mut Words, out: &mut Answer) -> Result<(), LineFault> {
    let alloc = words.alloc;
    let steps = words.number()?;
    let whole = match_word!(words.word()?; b"whole" => Ok(true), b"nothing" => Ok(false),)?;
    let commits = commits_of(words)?;
    let Some(mut node) = open(alloc, steps)? else {
        out.write(b"not opened");
        return Ok(());
    };
    let count = commit_each(alloc, &mut node, &commits)?;
    let left = node.into_log().after_crash(whole, 1)?;
    let Some(again) = unless_memory(NodeFile::open(alloc, left))? else {
        return Err(LineFault::Words);
    };
    let places = again.replica().store().len();
    let high = again.replica().high();
    out.write_made(format!(in alloc; "{count} commits, then {places} places, high {high}"));
    Ok(())
}
