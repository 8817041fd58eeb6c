//! A node in a file: makes one, answers scripts at it, writes what it holds, takes what another one sends, exchanges with
//! another one what differs, tells its log, what its edits put and whom it knows, writes its unit files into a folder, and
//! compacts it.
//! The exit status is 0 if it was done, 1 if it was refused or a read, a write or the disk failed, and 2 for wrong words.
//!
//! Promise: a file opens as what it holds; a commit is whole; compaction keeps the sum.
//!
//! If the status is 1, a line on standard error names the refusal. Digests, pieces and stores are bytes on standard input and
//! output, so two files exchange over any pipe. An exchange speaks with the other node in turns, over both.
#![tactic(auto)]

mod commands;
mod ends;
mod faults;
mod requests;
mod works;

use clap::error::ErrorKind;
use clap::{Command, Error};
use commands::command;
use ends::{finish, run};
use faults::FleetFault;
use requests::request_in;
use std::alloc::Global;
use std::process::ExitCode;
use std::sync::Wait;
use std::thread::Threads;
use std::{env, io};

// The words of the command line, with the program's name.
fn words(rt: &HostRuntime) -> io::Result<Vec<String>> {
    let mut words = Vec::new(rt.alloc());
    for word in env::args(rt)? {
        words.push(word)?;
    }
    Ok(words)
}

// Reads the words, and does what they ask for. Returns the exit status.
fn answer_words<'a, W: AllocGlobal + Threads + Wait + Sync>(
    rt: &HostRuntime,
    workers: &W,
    words: &'a [String],
) -> Result<u8, Error> {
    let alloc: Global = rt.alloc();
    let command: Command<'a> = command(alloc)?;
    let matches = command.try_get_matches_from(words)?;
    match request_in(&matches) {
        Some(request) => Ok(finish(rt, run(rt, workers, &request))),
        None => Ok(2),
    }
}

// Writes why the words are wrong, or the help. Returns the exit status.
fn refuse_words(rt: &HostRuntime, error: &Error) -> u8 {
    if error.kind() == ErrorKind::OutOfMemory {
        return finish(rt, Err(FleetFault::Memory));
    }
    let _ = error.print(rt);
    match error.exit_code() {
        0 => 0,
        _ => 2,
    }
}

fn main(rt: HostRuntime) -> ExitCode {
    let Ok(words) = words(&rt) else {
        return ExitCode::from(finish(&rt, Err(FleetFault::Memory)));
    };
    match answer_words(&rt, &rt, &words) {
        Ok(status) => ExitCode::from(status),
        Err(error) => ExitCode::from(refuse_words(&rt, &error)),
    }
}
