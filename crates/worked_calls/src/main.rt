//! Runs calls of the libraries, so that each public call was run with ample memory. It reads one call per line from
//! standard input, and writes each line followed by its answer.
//!
//! Promise: memory is refused only where it is.
//!
//! A line is a subject, a call and its words, separated by spaces. A call on what a host sees of a store has `@HOST`
//! after its word if a host makes it. Lines that are empty or begin with `#` are copied unchanged. A call for which
//! memory runs out is repeated or answered by `memory`. `stdin` has the calls, and `stdout` what each must answer; the
//! gate compares the two.
//!
//! Each module has the calls on one subject; `edits`, `orders` and `written` write values.
#![tactic(auto)]

mod again;
mod bytes;
mod choices;
mod commands;
mod contents;
mod drop_ins;
mod edits;
mod fakes;
mod frames;
mod implied;
mod joins;
mod lives;
mod maps;
mod meetings;
mod names;
mod orders;
mod paths;
mod pieces;
mod pipes;
mod places;
mod ranges;
mod replicas;
mod script_lines;
mod sections;
mod settings;
mod stores;
mod trees;
mod worlds;
mod written;

use std::alloc::AllocError;
use std::process::ExitCode;
use worked_lines::{Answer, LineFault, Words, answer_lines, match_word, work_input};

// Writes the answer to a call.
fn answer(words: &mut Words, out: &mut Answer) -> Result<(), LineFault> {
    match_word!(words.word()?;
        b"again" => again::answer(words, out),
        b"path" => paths::answer(words, out),
        b"place" => places::answer(words, out),
        b"name" => names::answer(words, out),
        b"section" => sections::answer(words, out),
        b"setting" => settings::answer(words, out),
        b"implied" => implied::answer(words, out),
        b"script" => script_lines::answer(words, out),
        b"pipe" => pipes::answer(words, out),
        b"version" => joins::answer(words, out),
        b"map" => maps::answer(words, out),
        b"content" => contents::answer(words, out),
        b"store" => stores::answer(words, out),
        b"replica" => replicas::answer(words, out),
        b"piece" => pieces::answer(words, out),
        b"range" => ranges::answer(words, out),
        b"digest" => pieces::answer_digest(words, out),
        b"bytes" => bytes::answer(words, out),
        b"world" => worlds::answer(words, out),
        b"life" => lives::answer(words, out),
        b"met" => meetings::answer(words, out),
        b"command" => commands::answer(words, out),
        b"fragment" => choices::answer(words, out),
        b"dropins" => drop_ins::answer(words, out),
        b"tree" => trees::answer(words, out),
    )
}

fn main(rt: HostRuntime) -> ExitCode {
    work_input(&rt, |text: &[u8]| -> Result<Vec<u8>, AllocError> {
        answer_lines(rt.alloc(), text, b" -> ", answer)
    })
}
