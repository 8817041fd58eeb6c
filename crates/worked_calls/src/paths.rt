//! Calls on paths of the load path, written in full, and on byte strings.
use crate::orders::append_signs;
use crate::written::{append_text, full_of};
use load_path::{Path, PathFault};
use plain_values::Bytes;
use std::alloc::Global;
use worked_lines::{Answer, LineFault, Words, each_of, match_word, text_of};

/// Writes the answer to a call on paths.
pub fn answer(words: &mut Words, out: &mut Answer) -> Result<(), LineFault> {
    let call = words.word()?;
    match_word!(call;
        b"parse" => parse(words, out),
        b"order" => {
            append_signs(out, &each_of(words.alloc, &words.list()?, full_of::<Path>)?);
            Ok(())
        },
        b"bytes" => bytes(words, out),
        b"bytes_order" => {
            append_signs(out, &all_bytes(words)?);
            Ok(())
        },
        _ => of_path(call, &full_of(words.alloc, words.word()?)?, out),
    )
}

// The answer to a call on one path.
fn of_path(call: &[u8], path: &Path, out: &mut Answer) -> Result<(), LineFault> {
    match_word!(call;
        b"parts" => {
            append_parts(out, path);
            Ok(())
        },
        b"text" => {
            append_text(out, path);
            Ok(())
        },
        b"clone" => append_clone(out, path),
    )
}

// The path that a text writes, or why it isn't one.
fn parse(words: &mut Words, out: &mut Answer) -> Result<(), LineFault> {
    match Path::parse(words.alloc, &words.text()?) {
        Ok(path) => out.write_path(&path),
        Err(PathFault::Memory) => return Err(LineFault::Memory),
        Err(fault) => out.print(&fault),
    }
    Ok(())
}

// Writes a path's rank, directory, folder and name.
fn append_parts(out: &mut Answer, path: &Path) {
    out.print(&path.rank());
    out.spell_quoted(&[
        (b' ', path.dir()),
        (b' ', path.folder()),
        (b' ', path.name()),
    ]);
}

// Writes a clone of a path, and whether it is the same.
fn append_clone(out: &mut Answer, path: &Path) -> Result<(), LineFault> {
    let copy = path.try_clone()?;
    out.write_path(&copy);
    out.either(copy == *path, b" same", b" other");
    Ok(())
}

// The bytes that a word spells.
fn bytes_of(alloc: Global, word: &[u8]) -> Result<Bytes, LineFault> {
    Ok(Bytes::from_vec(text_of(alloc, word)?)?)
}

// The byte strings that a list of words spells.
fn all_bytes(words: &mut Words) -> Result<Vec<Bytes>, LineFault> {
    each_of(words.alloc, &words.list()?, bytes_of)
}

// Bytes as a copy, as a vector that is moved, and as a clone.
fn bytes(words: &mut Words, out: &mut Answer) -> Result<(), LineFault> {
    let text = words.text()?;
    out.spell(Bytes::from_slice(words.alloc, &text)?.as_slice());
    append_taken(out, &Bytes::from_vec(text)?)
}

// Writes bytes and a clone of them.
fn append_taken(out: &mut Answer, whole: &Bytes) -> Result<(), LineFault> {
    let copy = whole.try_clone()?;
    out.spell_quoted(&[(b' ', whole.as_slice()), (b' ', copy.as_slice())]);
    Ok(())
}
