//! Calls on contents, and on copies of edits.
use crate::edits::{append_content, append_edit};
use replica_store::{Content, ContentFault};
use worked_lines::{Answer, LineFault, Words, edit_of, match_word};

/// Writes the answer to a call on contents.
pub fn answer(words: &mut Words, out: &mut Answer) -> Result<(), LineFault> {
    match_word!(words.word()?;
        b"file" => {
            append_made(out, &Content::file(words.text()?));
            Ok(())
        },
        b"link" => {
            append_made(out, &Content::link(words.text()?));
            Ok(())
        },
        b"filled_file" => {
            append_count(out, &Content::file(filled(words)?));
            Ok(())
        },
        b"filled_link" => {
            append_count(out, &Content::link(filled(words)?));
            Ok(())
        },
        b"copy" => copied(words, out),
    )
}

// As many bytes `a` as the next word says.
fn filled(words: &mut Words) -> Result<Vec<u8>, LineFault> {
    let count = words.index()?;
    Ok(vec![in words.alloc; b'a'; count]?)
}

// Writes the content, or why there is none.
fn append_made(out: &mut Answer, content: &Result<Content, ContentFault>) {
    match content {
        Ok(content) => append_content(out, content),
        Err(fault) => out.print(fault),
    }
}

// Writes how many bytes the content has, or why there is none.
fn append_count(out: &mut Answer, content: &Result<Content, ContentFault>) {
    let count = match content {
        Ok(Content::File(file)) => file.bytes().len(),
        Ok(Content::Link(target)) => target.bytes().len(),
        Ok(Content::Gone) => 0,
        Err(fault) => return out.print(fault),
    };
    out.print(&count);
    out.write(b" bytes");
}

// A copy of an edit.
fn copied(words: &mut Words, out: &mut Answer) -> Result<(), LineFault> {
    let edit = edit_of(words.alloc, words.word()?)?;
    append_edit(out, &edit.try_clone()?);
    Ok(())
}
