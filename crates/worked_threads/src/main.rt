//! Runs what threads share: loads and questions by one thread and by workers (`loads`), and nodes at which several
//! threads edit and view (`nodes`). It reads one call a line from standard input, and writes each line with its answers
//! below it.
//!
//! Promise: memory is refused only where it is.
//!
//! What a store answers is asked by a call and lists of words, each list ended by `+` or by the line. The calls are
//!
//! - `load WORKERS + EDITS + ASKED + LOOKED`: the load by one thread, with what it has at the names that are looked up;
//!   then, for each number of workers, whether the load by so many is the same, or why there is none;
//! - `gate TIMES WORKERS + EDITS + ASKED`: the same, nothing looked up, at a gate that turns each piece of a load away
//!   so many times; then how often the gate was asked for each piece, by number;
//! - `meet EDITS + ASKED`: the load by two workers, at a gate where each of two pieces waits for the other;
//! - `graph EDITS + ASKED + KINDS + NAMES`: the units of the graph of a load, and from each name the unit for which it
//!   stands, where edges of the kinds lead in one step, what is reached over them, and how far what it pulls is;
//! - `one EDITS + NAMES`: the unit of each name, loaded alone;
//! - `refresh COUNTS + EDITS + ASKED`: how many units are read to load the store of so many first edits; then for each further
//!   number of them where that store shows otherwise, how many units are read where its load is made of the one before, and
//!   whether it is the load by one thread, with the same edges of all units, the same members of the graph and the same plan of
//!   the first; and then the same where the one before is changed in its place, if it can be;
//! - `footprint EDITS + ASKED + NAMES`: the first components of all paths that say something of the unit of each name;
//! - `ask EDITS + ASKED + QUESTION + WORKERS`: what a store answers by one thread, and by each number of workers;
//! - `again EDITS + QUESTION + COUNTS`: what a node answers that took each of these numbers of first edits, one number after
//!   another, where only what it took since is read again; it says so where that isn't what its store answers by one thread;
//! - `merged EDITS + QUESTION + COUNTS`: the same, where the node takes by merges what it lacks;
//! - `far EDITS + QUESTION + COUNTS`: what a node answers that took all edits but the last, and what behind each of these
//!   numbers of edits elsewhere, and the last;
//! - `world EDITS + QUESTION + WORKERS`: what two nodes of a world answer, by each number of workers, once the second took
//!   what the first put: at a moment before the last edit, and at one behind it; and that there is no third node.
//!
//! A question is `unit NAME`, `pulled NAME`, `plan TARGET RUNNING..`, or `units`. A call may have `@HOST` behind its word:
//! then it is made for this host. A line that begins with `manager` is for systemd's manager.
//!
//! An edit is `PATH=TEXT` for a file and `PATH>TARGET` for a link, its directory as `E`, `R`, `L` or `U`. In a text `\n`
//! and `\xHH` are read.
//!
//! A node is given by `node WRITER SEATS`, and after it steps: `seat`, `edit SEAT PATH TEXT`,
//! `absorb SEAT PATH COUNTER WRITER TEXT`, `learn SEAT`, `view SEAT`, `serve SEAT TIMES MESSAGES`,
//! `beside SEAT SEAT SEAT`, `short`. At the end the node is closed with all its seats; after `short` it is first closed
//! without the last one. `over WRITER SEATS PATH COUNTER WRITER TEXT` is such a node over a replica that holds one
//! edit. If memory runs out for a blank or a close, it is tried once more with what was returned.
//!
//! A message is `edit PATH TEXT`, `absorb PATH COUNTER WRITER TEXT` or `end`. The word `+` or the end of the line ends
//! the list of messages, and the sender is dropped. The inbox is served at a gate that refuses each message TIMES
//! times; how often it was asked for each, by number, is written after `asked for`.
//!
//! At `beside` the first seat holds a view; the second edits twice in a thread of its own, and waits for that view; the
//! third views meanwhile.
//!
//! A line may also be `threads WRITER WRITERS EDITS READERS VIEWS`: WRITERS seats edit, each at its own path, while
//! READERS seats view, each in a thread of its own. Each view is compared with the number of takes that it shows.
//!
//! Or it is `crowd WRITER SEATS EDITS`, a crowd at an empty node, with how often its gate was asked for each worker. Or
//! it is `pair WRITER`, a crowd of two workers with one edit each, which wait for each other before that.
//!
//! A line that is refused memory for its words or its answers is answered by `memory`; what a node answers then is an
//! ordinary answer. Lines that are empty or begin with `#` are repeated as they are. `stdin` has the lines, and `stdout`
//! the expected answers; the gate compares the two.
#![tactic(auto)]

mod loads;
mod nodes;

use profiles::Profile;
use std::alloc::AllocError;
use std::process::ExitCode;
use std::sync::Wait;
use std::thread::Threads;
use std::time::Clock;
use worked_lines::{Answer, LineFault, Words, answer_lines, match_word, work_input};

// Writes the answer to a line.
fn answer<R: Threads + Wait + Clock + Sync>(
    rt: &R,
    words: &mut Words,
    out: &mut Answer,
) -> Result<(), LineFault> {
    let first = words.word()?;
    match_word!(first;
        b"node" => nodes::answer(rt, words, out, false),
        b"over" => nodes::answer(rt, words, out, true),
        b"threads" => nodes::answer_threads(rt, words, out),
        b"crowd" => nodes::answer_crowd(rt, words, out),
        b"pair" => nodes::answer_meeting(rt, words, out),
        b"manager" => {
            let call = words.word()?;
            loads::answer(rt, Profile::Manager, call, words, out)
        },
        _ => loads::answer(rt, Profile::Files, first, words, out),
    )
}

fn main(rt: HostRuntime) -> ExitCode {
    work_input(&rt, |text: &[u8]| -> Result<Vec<u8>, AllocError> {
        let answer = |words: &mut Words, out: &mut Answer| -> Result<(), LineFault> {
            answer(&rt, words, out)
        };
        answer_lines(rt.alloc(), text, b"\n  ", answer)
    })
}
