//! Edits, as lines write them.
use delta_pieces::Piece;
use join_law::Version;
use replica_store::Edit;
use std::slice::from_ref;
use worked_lines::{LineFault, Words};

// The next words as a version: a counter and a writer.
fn version_of(words: &mut Words) -> Result<Version, LineFault> {
    let counter = words.number()?;
    let writer = words.writer()?;
    Ok(Version { counter, writer })
}

/// The next words as one edit: a place, a counter, a writer and the content of a file.
pub fn one_edit(words: &mut Words) -> Result<Edit, LineFault> {
    let place = words.place()?;
    let version = version_of(words)?;
    let content = words.file()?;
    Ok(Edit {
        place,
        version,
        content,
    })
}

/// The next words as a piece of one edit.
pub fn one_piece(words: &mut Words) -> Result<Piece, LineFault> {
    let edit = one_edit(words)?;
    Ok(Piece::from_edits(words.alloc, from_ref(&edit))?)
}
