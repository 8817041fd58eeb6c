//! How a program of one's own takes these libraries in. Each file is a way to begin: scripts in and answers out, two
//! replicas that merge, a store that is asked many times, two nodes that exchange bytes, a node that threads share.
//!
//! Promise: none of its own.
//!
//! It writes the result of each, and reads nothing. `stdout` has what must be written; the gate compares the two.
#![tactic(auto)]

mod asking;
mod exchanging;
mod faults;
mod lines;
mod meeting;
mod messages;
mod scripts;
mod sharing;

use faults::EmbeddingFault;
use lines::append_truth;
use script_pipes::{Watched, write_all};
use std::io;
use std::process::ExitCode;
use std::sync::Wait;
use std::thread::Threads;

// Writes the results of all examples, one after another.
fn append_results(
    rt: &(impl AllocGlobal + Threads + Wait + Sync),
    text: &mut Vec<u8>,
) -> Result<(), EmbeddingFault> {
    append_answers(rt, text)?;
    append_truth(text, "merged alike", meeting::meet(rt.alloc())?)?;
    asking::ask_often(rt, text)?;
    append_truth(
        text,
        "exchanged alike",
        exchanging::exchange_messages(rt.alloc())?,
    )?;
    let takes = sharing::edit_from_threads(rt, text)?;
    let line = format!(in rt.alloc(); "takes by threads: {takes}\n")?;
    Ok(text.extend_from_slice(line.as_bytes())?)
}

// Writes the answers to a script.
fn append_answers(
    rt: &(impl AllocGlobal + Threads + Wait + Sync),
    text: &mut Vec<u8>,
) -> Result<(), EmbeddingFault> {
    let script = b"node a 1\nput a /etc/systemd/system/x.service A\nfiles a\n";
    let answers = scripts::answers_to(rt, script)?;
    Ok(text.extend_from_slice(&answers)?)
}

// The results of all examples, or why one of them failed.
fn results(rt: &(impl AllocGlobal + Threads + Wait + Sync)) -> Result<Vec<u8>, EmbeddingFault> {
    let mut text = Vec::new(rt.alloc());
    match append_results(rt, &mut text) {
        Ok(()) => Ok(text),
        Err(fault) => {
            let line = format!(in rt.alloc(); "{fault}\n")?;
            Ok(Vec::from_slice(rt.alloc(), line.as_bytes())?)
        }
    }
}

fn main(rt: HostRuntime) -> ExitCode {
    let Ok(text) = results(&rt) else {
        return ExitCode::from(2);
    };
    let mut writer = Watched::new(io::writer(&rt));
    if write_all(&mut writer, &text).is_err() {
        return ExitCode::from(1);
    }
    ExitCode::from(0)
}
