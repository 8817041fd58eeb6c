//! Calls on digests and pieces.
use crate::edits::{append_store, append_version};
use crate::stores::append_changed;
use delta_pieces::{
    Digest, Piece, delta_at, delta_between, delta_between_at, delta_for, digest, digest_at, take,
};
use join_law::Rest;
use replica_store::{Place, Replica};
use worked_lines::{Answer, LineFault, Words, match_word};

/// Writes the answer to a call on pieces.
pub fn answer(words: &mut Words, out: &mut Answer) -> Result<(), LineFault> {
    match_word!(words.word()?;
        b"of" => append_piece(out, &piece(words)?),
        b"flat" => append_piece(out, &Piece::from_flat(words.alloc, &words.flat_edits()?)?),
        b"copy" => append_piece(out, &piece(words)?.try_clone()?),
        b"split" => split(words, out, &mut Answer::new(words.alloc)),
        b"only" => only(words, out),
        b"delta" => delta(words, out),
        b"delta_at" => delta_at_some(words, out),
        b"between" => between(words, out),
        b"between_at" => between_some(words, out),
        b"take" => taken(words, out),
    )
}

/// Writes the answer to a call on digests.
pub fn answer_digest(words: &mut Words, out: &mut Answer) -> Result<(), LineFault> {
    match_word!(words.word()?;
        b"of" => {
            append_digest(out, &asked(words)?);
            Ok(())
        },
        b"copy" => {
            append_digest(out, &asked(words)?.try_clone()?);
            Ok(())
        },
        b"at" => versions_at(words, out),
        b"get" => version_at(words, out),
    )
}

/// Returns the piece of the edits that words write, up to the word `+` or to the end.
pub fn piece(words: &mut Words) -> Result<Piece, LineFault> {
    Ok(Piece::from_edits(words.alloc, &words.edits()?)?)
}

/// Returns a replica that took the piece of the edits that words write.
pub fn holder(words: &mut Words) -> Result<Replica, LineFault> {
    let mut replica = Replica::new(words.alloc, 9);
    take(&mut replica, piece(words)?)?;
    Ok(replica)
}

/// Returns the digest of a replica that took the piece of the edits that words write.
pub fn asked(words: &mut Words) -> Result<Digest, LineFault> {
    Ok(digest(words.alloc, &holder(words)?)?)
}

/// Writes how many places a piece carries, and what it carries.
pub fn append_piece(out: &mut Answer, piece: &Piece) -> Result<(), LineFault> {
    if piece.is_empty() {
        out.write(b"empty");
        return Ok(());
    }
    out.print(&piece.len());
    out.write(b":");
    append_store(out, piece.store())
}

/// Writes the two parts of a piece. If splitting runs out of memory, it writes the piece that comes back to `between`,
/// and splits that.
pub fn split(words: &mut Words, out: &mut Answer, between: &mut Answer) -> Result<(), LineFault> {
    let at = words.index()?;
    let (first, second) = split_at(piece(words)?, at, between)?;
    append_both(out, &first, &second)
}

// The two parts of a piece. If splitting runs out of memory, the piece that comes back is split.
fn split_at(piece: Piece, at: usize, between: &mut Answer) -> Result<(Piece, Piece), LineFault> {
    match piece.split(at) {
        Ok(parts) => Ok(parts),
        Err(Rest { rest }) => {
            append_piece(between, &rest)?;
            Ok(rest.split(at)?)
        }
    }
}

// Writes two pieces.
fn append_both(out: &mut Answer, first: &Piece, second: &Piece) -> Result<(), LineFault> {
    append_piece(out, first)?;
    out.write(b" | ");
    append_piece(out, second)
}

// What a piece carries at some places.
fn only(words: &mut Words, out: &mut Answer) -> Result<(), LineFault> {
    let places = words.places()?;
    append_only(out, &piece(words)?, &places)
}

// Writes what a piece carries at some places.
fn append_only(out: &mut Answer, piece: &Piece, places: &[Place]) -> Result<(), LineFault> {
    append_piece(out, &piece.only(places)?)
}

// What is cut of one replica for the digest of another.
fn delta(words: &mut Words, out: &mut Answer) -> Result<(), LineFault> {
    let held = holder(words)?;
    append_delta(out, &held, &asked(words)?)
}

// Writes what is cut of a replica for a digest.
fn append_delta(out: &mut Answer, held: &Replica, asked: &Digest) -> Result<(), LineFault> {
    append_piece(out, &delta_for(out.alloc, held, asked)?)
}

// What one replica has that another lacks.
fn between(words: &mut Words, out: &mut Answer) -> Result<(), LineFault> {
    let from = holder(words)?;
    append_between(out, &from, &holder(words)?)
}

// Writes what one replica has that another lacks.
fn append_between(out: &mut Answer, from: &Replica, to: &Replica) -> Result<(), LineFault> {
    append_piece(out, &delta_between(out.alloc, from, to)?)
}

// What one replica has that another lacks at some places.
fn between_some(words: &mut Words, out: &mut Answer) -> Result<(), LineFault> {
    let places = words.places()?;
    let from = holder(words)?;
    append_between_at(out, &from, &holder(words)?, &places)
}

// Writes what one replica has that another lacks at some places.
fn append_between_at(
    out: &mut Answer,
    from: &Replica,
    to: &Replica,
    places: &[Place],
) -> Result<(), LineFault> {
    append_piece(out, &delta_between_at(out.alloc, from, to, places)?)
}

// What is cut for a digest at some places.
fn delta_at_some(words: &mut Words, out: &mut Answer) -> Result<(), LineFault> {
    let places = words.places()?;
    let held = holder(words)?;
    append_delta_at(out, &held, &asked(words)?, &places)
}

// Writes what is cut of a replica for a digest at some places.
fn append_delta_at(
    out: &mut Answer,
    held: &Replica,
    asked: &Digest,
    places: &[Place],
) -> Result<(), LineFault> {
    append_piece(out, &delta_at(out.alloc, held, asked, places)?)
}

// A replica that takes a piece.
fn taken(words: &mut Words, out: &mut Answer) -> Result<(), LineFault> {
    let mut replica = holder(words)?;
    append_taken(out, &mut replica, piece(words)?)
}

// Lets a replica take a piece, and writes what changed.
fn append_taken(out: &mut Answer, replica: &mut Replica, piece: Piece) -> Result<(), LineFault> {
    let count = take(replica, piece)?;
    append_changed(out, count, replica.store())
}

// The digest of a replica at some places.
fn versions_at(words: &mut Words, out: &mut Answer) -> Result<(), LineFault> {
    let places = words.places()?;
    append_digest_at(out, &holder(words)?, &places)
}

// Writes the digest of a replica at some places.
fn append_digest_at(out: &mut Answer, held: &Replica, places: &[Place]) -> Result<(), LineFault> {
    append_digest(out, &digest_at(out.alloc, held, places)?);
    Ok(())
}

// The version of a digest at a place.
fn version_at(words: &mut Words, out: &mut Answer) -> Result<(), LineFault> {
    let place = words.place()?;
    append_version_at(out, &asked(words)?, &place);
    Ok(())
}

// Writes the version of a digest at a place.
fn append_version_at(out: &mut Answer, digest: &Digest, place: &Place) {
    match digest.get(place) {
        Some(version) => append_version(out, version),
        None => out.write(b"nothing"),
    }
}

/// Writes all places and versions of a digest.
pub fn append_digest(out: &mut Answer, digest: &Digest) {
    for (place, version) in digest.versions() {
        out.part(b" ");
        append_version(out, *version);
        out.write(b":");
        out.write_place(place);
    }
}
