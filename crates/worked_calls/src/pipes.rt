//! Calls that read and write, at readers and writers that fail or are slow.
use crate::fakes::{Narrow, Slow, Zeros};
use script_pipes::{ReadFault, Watched, read_all, write_all};
use std::io::Read;
use worked_lines::{Answer, LineFault, Words, match_word};

/// Writes the answer to a call on readers and writers.
pub fn answer(words: &mut Words, out: &mut Answer) -> Result<(), LineFault> {
    match_word!(words.word()?;
        b"read" => read(words, out),
        b"zeros" => read_zeros(words, out),
        b"write" => write(words, out, true),
        b"break" => write(words, out, false),
    )
}

// All bytes of a reader, or that there are none because reading failed.
fn read_from<R: Read + Drop>(words: &Words, reader: R) -> Result<Option<Vec<u8>>, LineFault> {
    match read_all(words.alloc, &mut Watched::new(reader)) {
        Ok(bytes) => Ok(Some(bytes)),
        Err(ReadFault::Failed) => Ok(None),
        Err(ReadFault::Memory) => Err(LineFault::Memory),
    }
}

// Reads a text byte by byte, each behind an interrupted read, where this many reads don't fail.
fn read(words: &mut Words, out: &mut Answer) -> Result<(), LineFault> {
    let text = words.text()?;
    let reader = Slow {
        bytes: &text,
        is_interrupted: false,
        reads_left: words.index()?,
    };
    match read_from(words, reader)? {
        Some(bytes) => out.spell(&bytes),
        None => out.write(b"failed"),
    }
    Ok(())
}

// Reads this many zeros.
fn read_zeros(words: &mut Words, out: &mut Answer) -> Result<(), LineFault> {
    let zeros = Zeros(words.index()?);
    match read_from(words, zeros)? {
        Some(bytes) => {
            out.print(&bytes.len());
            out.write(b" bytes");
        }
        None => out.write(b"failed"),
    }
    Ok(())
}

// Writes a text to a writer that takes this many bytes at a time in this many writes, and then none or fails.
fn write(words: &mut Words, out: &mut Answer, takes_none: bool) -> Result<(), LineFault> {
    let text = words.text()?;
    let mut sink = Watched::new(Narrow {
        held: Vec::with_capacity(words.alloc, text.len())?,
        width: words.index()?,
        writes_left: words.index()?,
        takes_none,
    });
    out.either(write_all(&mut sink, &text).is_ok(), b"all", b"failed");
    out.write(b" ");
    out.spell(&sink.into_inner().held);
    Ok(())
}
