//! Lines with their answers.
use crate::answers::Answer;
use crate::faults::LineFault;
use crate::words::Words;
use script_pipes::{Watched, read_all, write_all};
use script_words::{cut_line, is_passed_over};
use std::alloc::{AllocError, Global};
use std::io;
use std::io::{Input, Print};
use std::process::ExitCode;

// The answer to a line, of which no word may be left.
fn answer_line<F: Fn(&mut Words, &mut Answer) -> Result<(), LineFault>>(
    alloc: Global,
    line: &[u8],
    answer: &F,
) -> Result<Vec<u8>, LineFault>
    requires { F.IsAlwaysCallable answer.now }
{
    let mut words = Words::new(alloc, line);
    let mut out = Answer::new(alloc);
    answer(&mut words, &mut out)?;
    words.end()?;
    out.finish()
}

// Writes the answer to a line, or why it has none.
fn append_answer(out: &mut Vec<u8>, answer: &Result<Vec<u8>, LineFault>) -> Result<(), AllocError> {
    out.extend_from_slice(match answer {
        Ok(text) => text,
        Err(fault) if matches!(fault, LineFault::Memory) => b"memory",
        Err(_) => b"no such call",
    })
}

/// Returns all lines of a text, each followed by `sign` and its answer. Lines that are empty or begin with `#` are
/// copied unchanged.
pub fn answer_lines<F: Fn(&mut Words, &mut Answer) -> Result<(), LineFault>>(
    alloc: Global,
    text: &[u8],
    sign: &[u8],
    answer: F,
) -> Result<Vec<u8>, AllocError>
    requires { F.IsAlwaysCallable answer }
{
    let mut out = Vec::new(alloc);
    let mut rest = text;
    while !rest.is_empty() {
        let (line, later) = cut_line(rest);
        out.extend_from_slice(line)?;
        if !is_passed_over(line) {
            out.extend_from_slice(sign)?;
            append_answer(&mut out, &answer_line(alloc, line, &answer))?;
        }
        out.push(b'\n')?;
        rest = later;
    }
    Ok(out)
}

/// Reads all of standard input, and writes what `work` makes of it. Returns status 1 if that fails, and 2 if memory ran
/// out.
pub fn work_input<R: AllocGlobal + Input + Print, F: FnOnce(&[u8]) -> Result<Vec<u8>, AllocError>>(
    rt: &R,
    work: F,
) -> ExitCode
    requires { F.IsAlwaysCallable work }
{
    let mut reader = Watched::new(rt.reader());
    let Ok(text) = read_all(rt.alloc(), &mut reader) else {
        return ExitCode::from(1);
    };
    let Ok(out) = work(&text) else {
        return ExitCode::from(2);
    };
    let mut writer = Watched::new(io::writer(rt));
    if write_all(&mut writer, &out).is_err() {
        return ExitCode::from(1);
    }
    ExitCode::from(0)
}
