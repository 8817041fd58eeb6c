//! Calls on the sections of unit files.
//!
//! An assignment is written as `LINE:SECTION.KEY=VALUE`, and a note as `LINE:` and its words.
use plain_values::TryClone;
use section_reader::{Assignment, Sections, read};
use std::alloc::{AllocError, Global};
use std::fmt::Display;
use worked_lines::{Answer, LineFault, Words, match_word, text_of};

/// Writes the answer to a call on sections.
pub fn answer(words: &mut Words, out: &mut Answer) -> Result<(), LineFault> {
    let call = words.word()?;
    match_word!(call;
        b"long" => long(words, out),
        b"compare" => compare(words, out),
        _ => returned(call, &read_next(words)?, out),
    )
}

// The answer to a call on one file.
fn returned(call: &[u8], sections: &Sections, out: &mut Answer) -> Result<(), LineFault> {
    match_word!(call;
        b"read" => {
            append_sections(out, sections);
            Ok(())
        },
        b"codes" => {
            append_codes(out, sections);
            Ok(())
        },
        b"clone" => append_copy(out, &sections.try_clone()?, sections),
    )
}

/// Returns the sections of the file that a word spells.
pub fn read_word(alloc: Global, word: &[u8]) -> Result<Sections, LineFault> {
    Ok(read(alloc, &text_of(alloc, word)?)?)
}

// The sections of the file that the next word spells.
fn read_next(words: &mut Words) -> Result<Sections, LineFault> {
    read_word(words.alloc, words.word()?)
}

// Writes an assignment.
fn append_item(out: &mut Answer, item: &Assignment) {
    out.part(b" ");
    out.print(&item.line);
    out.spell_quoted(&[
        (b':', item.section.as_slice()),
        (b'.', item.key.as_slice()),
        (b'=', item.value.as_slice()),
    ]);
}

// Writes a note on a line.
fn append_note<T: Display>(out: &mut Answer, line: usize, noted: &T) {
    out.part(b" ");
    out.print(&line);
    out.write(b":");
    out.print(noted);
}

// Writes the sections of a file: its assignments, and then its notes.
fn append_sections(out: &mut Answer, sections: &Sections) {
    for item in sections.items.as_slice() {
        append_item(out, item);
    }
    for note in sections.notes.as_slice() {
        append_note(out, note.line, &note.kind);
    }
    out.or(b"nothing");
}

// Writes the codes of a file's notes.
fn append_codes(out: &mut Answer, sections: &Sections) {
    for note in sections.notes.as_slice() {
        append_note(out, note.line, &note.kind.code());
    }
}

// A file with one value.
fn file_with(alloc: Global, value: &[u8]) -> Result<Vec<u8>, AllocError> {
    let mut file = Vec::from_slice(alloc, b"[A]\nk=")?;
    file.extend_from_slice(value)?;
    Ok(file)
}

// Whether the sections of a file are one assignment of this value.
fn is_read(sections: &Sections, value: &[u8]) -> bool {
    match sections.items.as_slice() {
        [item] => item.value.as_slice() == value,
        _ => false,
    }
}

// Whether a file with one value of this many bytes is read as that value alone.
fn long(words: &mut Words, out: &mut Answer) -> Result<(), LineFault> {
    let count = words.index()?;
    let value = vec![in words.alloc; b'v'; count]?;
    let sections = read(words.alloc, &file_with(words.alloc, &value)?)?;
    out.either(is_read(&sections, &value), b"same", b"other");
    Ok(())
}

// Whether clones of all assignments are the same as the assignments.
fn are_items_same(sections: &Sections) -> Result<bool, AllocError> {
    let mut are_same = sections.items.try_clone()? == sections.items;
    for item in sections.items.as_slice() {
        are_same = are_same && item.try_clone()? == *item;
    }
    Ok(are_same)
}

// Writes whether the whole, the assignments and the notes are the same.
fn append_verdict(out: &mut Answer, is_same: bool, are_items_same: bool, are_notes_same: bool) {
    out.either(is_same, b"all same", b"all other");
    out.either(are_items_same, b" items same", b" items other");
    out.either(are_notes_same, b" notes same", b" notes other");
}

// Writes a clone of a file's sections, and whether it and clones of its parts are the same.
fn append_copy(out: &mut Answer, copy: &Sections, sections: &Sections) -> Result<(), LineFault> {
    let are_items = are_items_same(sections)?;
    let are_notes = sections.notes.try_clone()? == sections.notes;
    append_sections(out, copy);
    out.write(b" ");
    append_verdict(out, *copy == *sections, are_items, are_notes);
    Ok(())
}

// Whether two files have the same sections, and whether their parts are the same.
fn compare(words: &mut Words, out: &mut Answer) -> Result<(), LineFault> {
    let x = read_next(words)?;
    let y = read_next(words)?;
    append_verdict(out, x == y, x.items == y.items, x.notes == y.notes);
    Ok(())
}
