//! Calls on replicas.
use crate::edits::{append_store, append_version};
use crate::stores::append_changed;
use replica_store::{Content, EditFault, Place, Replica, Store, Version};
use std::alloc::AllocError;
use worked_lines::{Answer, LineFault, Words, match_word, placed_of};

/// Writes the answer to a call on replicas.
pub fn answer(words: &mut Words, out: &mut Answer) -> Result<(), LineFault> {
    let call = words.word()?;
    let writer = words.writer()?;
    match_word!(call;
        b"of" => append_whole(out, replica(writer, words)?),
        b"copy" => append_whole(out, replica(writer, words)?.try_clone()?),
        b"put" => put(writer, words, out, &mut Answer::new(words.alloc)),
        b"remove" => removed(writer, words, out, &mut Answer::new(words.alloc)),
        b"merge" => merged(writer, words, out),
        b"absorb" => absorbed(writer, words, out),
    )
}

/// Returns a replica that holds the edits that words write; if there are none, a new one.
pub fn replica(writer: u32, words: &mut Words) -> Result<Replica, LineFault> {
    if words.is_over() {
        return Ok(Replica::new(words.alloc, writer));
    }
    Ok(Replica::from_store(writer, words.store()?))
}

// Writes a replica's writer, its greatest counter, and what it holds. Consumes the replica.
fn append_whole(out: &mut Answer, replica: Replica) -> Result<(), LineFault> {
    let writer = replica.writer();
    let high = replica.high();
    out.write_made(format!(in out.alloc; "writer {writer}, high {high}:"));
    append_store(out, &replica.into_store())
}

// Writes the version of an edit and what the replica then holds, or why the edit was refused.
fn append_edited(
    out: &mut Answer,
    version: Result<Version, EditFault>,
    replica: &Replica,
) -> Result<(), LineFault> {
    match version {
        Ok(version) => {
            append_version(out, version);
            out.write(b":");
            append_store(out, replica.store())
        }
        Err(EditFault::Memory) => Err(LineFault::Memory),
        Err(fault) => {
            out.print(&fault);
            Ok(())
        }
    }
}

/// A replica that puts a content at a path, twice if memory runs out the first time; then what it holds between the two
/// is written to `between`.
pub fn put(
    writer: u32,
    words: &mut Words,
    out: &mut Answer,
    between: &mut Answer,
) -> Result<(), LineFault> {
    let (place, content) = placed_of(words.alloc, words.word()?)?;
    append_put(&mut replica(writer, words)?, &place, &content, out, between)
}

// Writes a replica that puts a content at a path.
fn append_put(
    replica: &mut Replica,
    place: &Place,
    content: &Content,
    out: &mut Answer,
    between: &mut Answer,
) -> Result<(), LineFault> {
    let mut version = put_copy(replica, place, content)?;
    if let Err(EditFault::Memory) = version {
        append_store(between, replica.store())?;
        version = put_copy(replica, place, content)?;
    }
    append_edited(out, version, replica)
}

// The version of an edit that puts a copy of a content at a path, or why the edit was refused.
fn put_copy(
    replica: &mut Replica,
    place: &Place,
    content: &Content,
) -> Result<Result<Version, EditFault>, AllocError> {
    let place = place.try_clone()?;
    Ok(replica.put(place, content.try_clone()?))
}

/// A replica that removes what is visible at a place, twice if memory runs out the first time; then what it holds
/// between the two is written to `between`.
pub fn removed(
    writer: u32,
    words: &mut Words,
    out: &mut Answer,
    between: &mut Answer,
) -> Result<(), LineFault> {
    let place = words.place()?;
    append_removed(&mut replica(writer, words)?, &place, out, between)
}

// Writes a replica that removes what is visible at a place.
fn append_removed(
    replica: &mut Replica,
    place: &Place,
    out: &mut Answer,
    between: &mut Answer,
) -> Result<(), LineFault> {
    let mut version = replica.remove(place.try_clone()?);
    if let Err(EditFault::Memory) = version {
        append_store(between, replica.store())?;
        version = replica.remove(place.try_clone()?);
    }
    append_edited(out, version, replica)
}

// A replica that a store is merged into.
fn merged(writer: u32, words: &mut Words, out: &mut Answer) -> Result<(), LineFault> {
    let mut replica = replica(writer, words)?;
    append_merged(out, &mut replica, &words.store()?)
}

// Merges a store into a replica, and writes what changed.
fn append_merged(out: &mut Answer, replica: &mut Replica, other: &Store) -> Result<(), LineFault> {
    let count = replica.merge(other)?;
    append_changed(out, count, replica.store())
}

// A replica that absorbs a store.
fn absorbed(writer: u32, words: &mut Words, out: &mut Answer) -> Result<(), LineFault> {
    let mut replica = replica(writer, words)?;
    append_absorbed(out, &mut replica, words.store()?)
}

// Lets a replica absorb a store, and writes what changed.
fn append_absorbed(out: &mut Answer, replica: &mut Replica, other: Store) -> Result<(), LineFault> {
    let count = replica.absorb(other)?;
    append_changed(out, count, replica.store())
}
