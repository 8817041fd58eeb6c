//! Edits as words.
//!
//! An edit is `COUNTER.WRITER:PLACE` for a removal, followed by `=TEXT` for a file and by `>TARGET` for a link. In a
//! list of edits the version may be left out: such an edit is later than those before it.
use crate::faults::LineFault;
use crate::spelled::{cut_at, file_of, link_of, number_of, place_of, writer_of};
use edit_sums::Content;
use replica_store::{Edit, Place, Version};
use std::alloc::Global;

/// Returns the version that a word writes.
pub fn version_of(word: &[u8]) -> Result<Version, LineFault> {
    let (counter, writer) = cut_at(word, b'.').ok_or(LineFault::Words)?;
    let writer = writer_of(writer)?;
    let counter = number_of(counter)?;
    Ok(Version { counter, writer })
}

// What a word writes before its content, and the content.
fn cut_content(alloc: Global, word: &[u8]) -> Result<(&[u8], Content), LineFault> {
    if let Some((place, text)) = cut_at(word, b'=') {
        return Ok((place, file_of(alloc, text)?));
    }
    if let Some((place, target)) = cut_at(word, b'>') {
        return Ok((place, link_of(alloc, target)?));
    }
    Ok((word, Content::gone()))
}

/// Returns the place and the content that a word writes.
pub fn placed_of(alloc: Global, word: &[u8]) -> Result<(Place, Content), LineFault> {
    let (place, content) = cut_content(alloc, word)?;
    Ok((place_of(alloc, place)?, content))
}

// The edit with this version, whose place and content a word writes.
fn edit_at(alloc: Global, version: Version, word: &[u8]) -> Result<Edit, LineFault> {
    let (place, content) = placed_of(alloc, word)?;
    Ok(Edit {
        place,
        version,
        content,
    })
}

/// Returns the edit that a word writes.
pub fn edit_of(alloc: Global, word: &[u8]) -> Result<Edit, LineFault> {
    let (version, placed) = cut_at(word, b':').ok_or(LineFault::Words)?;
    edit_at(alloc, version_of(version)?, placed)
}

/// Returns the edit that a word of a list writes, with `before` words before it. Without a version its counter is its
/// position in the list, from 1, and its writer is 1.
pub fn listed_edit(alloc: Global, word: &[u8], before: usize) -> Result<Edit, LineFault> {
    match word.first() {
        Some(b'0'..=b'9') => edit_of(alloc, word),
        _ => {
            let counter = (before as u64).saturating_add(1);
            edit_at(alloc, Version { counter, writer: 1 }, word)
        }
    }
}
