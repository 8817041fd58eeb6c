//! Calls on the bytes of stores, pieces, digests and frames. Bytes are written in the spelling of texts.
ghost use Rattle.std.specs.{Option.{IsNone}, Prelude.{◌<◌, IfOk, IfSome}};
ghost use Rattle.store_bytes.specs.Streams.{most_left};

use crate::edits::{append_at, append_store, append_version};
use crate::frames::{cut, read_frame, spell_frames};
use crate::pieces::{append_digest, append_piece, asked, piece};
use replica_store::{Entry, Place, Version};
use store_bytes::{
    DecodeFault, Decoder, EntryReader, VersionReader, digest_from_bytes, digest_to_bytes,
    piece_from_bytes, piece_to_bytes, store_from_bytes, store_id, store_to_bytes,
};
use worked_lines::{Answer, LineFault, Words, match_word, text_of};

/// Writes the answer to a call on bytes.
pub fn answer(words: &mut Words, out: &mut Answer) -> Result<(), LineFault> {
    match_word!(words.word()?;
        b"store" => spell_store(words, out),
        b"id" => spell_id(words, out),
        b"piece" => spell_piece(words, out),
        b"digest" => spell_digest(words, out),
        b"frames" => spell_frames(words, out),
        b"cut" => cut(words, out),
        b"read" => read(words, out),
        b"fed" => fed(words, out),
    )
}

// The bytes of the store of some edits.
fn spell_store(words: &mut Words, out: &mut Answer) -> Result<(), LineFault> {
    out.spell(&store_to_bytes(&words.store()?)?);
    Ok(())
}

// The identity of the store of some edits.
fn spell_id(words: &mut Words, out: &mut Answer) -> Result<(), LineFault> {
    out.spell(&store_id(&words.store()?)?);
    Ok(())
}

// The bytes of the piece of some edits.
fn spell_piece(words: &mut Words, out: &mut Answer) -> Result<(), LineFault> {
    out.spell(&piece_to_bytes(&piece(words)?)?);
    Ok(())
}

// The bytes of the digest of some edits.
fn spell_digest(words: &mut Words, out: &mut Answer) -> Result<(), LineFault> {
    out.spell(&digest_to_bytes(words.alloc, &asked(words)?)?);
    Ok(())
}

// What bytes of a kind spell, or the fault in them.
fn read(words: &mut Words, out: &mut Answer) -> Result<(), LineFault> {
    let kind = words.word()?;
    let bytes = words.text()?;
    match_word!(kind;
        b"store" => read_store(out, &bytes),
        b"piece" => read_piece(out, &bytes),
        b"digest" => read_digest(out, &bytes),
        b"frame" => read_frame(words, out, &bytes),
    )
}

fn read_store(out: &mut Answer, bytes: &[u8]) -> Result<(), LineFault> {
    match store_from_bytes(out.alloc, bytes) {
        Ok(store) => append_store(out, &store),
        Err(fault) => refuse(out, fault),
    }
}

fn read_piece(out: &mut Answer, bytes: &[u8]) -> Result<(), LineFault> {
    match piece_from_bytes(out.alloc, bytes) {
        Ok(piece) => append_piece(out, &piece),
        Err(fault) => refuse(out, fault),
    }
}

fn read_digest(out: &mut Answer, bytes: &[u8]) -> Result<(), LineFault> {
    match digest_from_bytes(out.alloc, bytes) {
        Ok(digest) => {
            append_digest(out, &digest);
            out.or(b"nothing");
            Ok(())
        }
        Err(fault) => refuse(out, fault),
    }
}

/// Writes a fault, after a space unless nothing is written yet.
pub fn refuse(out: &mut Answer, fault: DecodeFault) -> Result<(), LineFault> {
    match fault {
        DecodeFault::Memory => Err(LineFault::Memory),
        DecodeFault::Fault(fault) => {
            out.part(b" ");
            out.print(&fault);
            Ok(())
        }
    }
}

// What a decoder gives one by one that is fed the bytes of a kind in these pieces.
fn fed(words: &mut Words, out: &mut Answer) -> Result<(), LineFault> {
    let kind = words.word()?;
    let mut decoder = Decoder::new(words.alloc);
    for piece in words.list()? {
        decoder.feed(&text_of(words.alloc, piece)?)?;
    }
    append_decoded(out, kind, &decoder)
}

// Writes what bytes of a kind give one by one.
fn append_decoded(out: &mut Answer, kind: &[u8], decoder: &Decoder) -> Result<(), LineFault> {
    match_word!(kind;
        b"store" => append_entries(out, decoder.store()),
        b"piece" => append_entries(out, decoder.piece()),
        b"digest" => append_versions(out, decoder.digest()),
    )
}

fn append_entries(
    out: &mut Answer,
    opened: Result<EntryReader<'_>, DecodeFault>,
) -> Result<(), LineFault> {
    match opened {
        Ok(mut reader) => append_each_entry(out, &mut reader),
        Err(fault) => refuse(out, fault),
    }
}

fn append_versions(
    out: &mut Answer,
    opened: Result<VersionReader<'_>, DecodeFault>,
) -> Result<(), LineFault> {
    match opened {
        Ok(mut reader) => append_each_version(out, &mut reader),
        Err(fault) => refuse(out, fault),
    }
}

// Writes each entry that a reader gives; after a fault, what the next call gives too.
fn append_each_entry(out: &mut Answer, reader: &mut EntryReader<'_>) -> Result<(), LineFault> {
    while let Some((place, entry)) = next_entry(out, reader)? {
        out.part(b" ");
        append_at(out, entry.version, &place, &entry.content);
    }
    out.or(b"nothing");
    Ok(())
}

// Writes each version that a reader gives; and a fault.
fn append_each_version(out: &mut Answer, reader: &mut VersionReader<'_>) -> Result<(), LineFault> {
    while let Some((place, version)) = next_version(out, reader)? {
        out.part(b" ");
        append_version(out, version);
        out.write(b":");
        out.write_place(&place);
    }
    out.or(b"nothing");
    Ok(())
}

// The next entry. A fault is written, and so is what the next call gives in its place.
fn next_entry(
    out: &mut Answer,
    reader: &mut EntryReader<'_>,
) -> Result<Option<(Place, Entry)>, LineFault>
    ensures fewer { IfOk result
        (λ next. IfSome next (λ _. most_left reader.new < most_left reader.old)) }
{
    match reader.next() {
        Ok(next) => Ok(next),
        Err(fault) => {
            refuse(out, fault)?;
            refuse_again(out, reader.next())
        }
    }
}

// Writes the fault that comes again.
fn refuse_again(
    out: &mut Answer,
    next: Result<Option<(Place, Entry)>, DecodeFault>,
) -> Result<Option<(Place, Entry)>, LineFault>
    ensures none { IfOk result (λ next. IsNone next) }
{
    match next {
        Ok(_) => out.write(b" more"),
        Err(fault) => refuse(out, fault)?,
    }
    Ok(None)
}

// The next version. A fault is written.
fn next_version(
    out: &mut Answer,
    reader: &mut VersionReader<'_>,
) -> Result<Option<(Place, Version)>, LineFault>
    ensures fewer { IfOk result (λ next. IfSome next (λ _. reader.new.count < reader.old.count)) }
{
    match reader.next() {
        Ok(next) => Ok(next),
        Err(fault) => {
            refuse(out, fault)?;
            Ok(None)
        }
    }
}
