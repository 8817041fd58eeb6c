//! Calls on hosts and places, written in full.
use crate::orders::append_signs;
use crate::written::{append_text, full_of};
use replica_store::{HostFault, HostName, Place, PlaceFault};
use std::alloc::Global;
use worked_lines::{Answer, LineFault, Words, each_of, match_word, text_of};

/// Writes the answer to a call on hosts or places.
pub fn answer(words: &mut Words, out: &mut Answer) -> Result<(), LineFault> {
    let call = words.word()?;
    match_word!(call;
        b"host" => host(words, out),
        b"hosts" => {
            append_signs(out, &each_of(words.alloc, &words.list()?, host_of)?);
            Ok(())
        },
        b"parse" => parse(words, out),
        b"order" => {
            append_signs(out, &each_of(words.alloc, &words.list()?, full_of::<Place>)?);
            Ok(())
        },
        _ => of_place(call, &full_of(words.alloc, words.word()?)?, out),
    )
}

// The answer to a call on one place.
fn of_place(call: &[u8], place: &Place, out: &mut Answer) -> Result<(), LineFault> {
    match_word!(call;
        b"text" => {
            append_text(out, place);
            Ok(())
        },
        b"clone" => append_copy(out, &place.try_clone()?, place),
    )
}

// The name of a clone of a host, or why there is no host.
fn host(words: &mut Words, out: &mut Answer) -> Result<(), LineFault> {
    match HostName::parse(words.alloc, &words.text()?) {
        Ok(host) => out.write(host.try_clone()?.bytes()),
        Err(HostFault::Memory) => return Err(LineFault::Memory),
        Err(fault) => out.print(&fault),
    }
    Ok(())
}

// The host that a word spells.
fn host_of(alloc: Global, word: &[u8]) -> Result<HostName, LineFault> {
    Ok(HostName::parse(alloc, &text_of(alloc, word)?)?)
}

// The place that a text writes, or why it isn't one.
fn parse(words: &mut Words, out: &mut Answer) -> Result<(), LineFault> {
    match Place::parse(words.alloc, &words.text()?) {
        Ok(place) => out.write_place(&place),
        Err(PlaceFault::Memory) => return Err(LineFault::Memory),
        Err(fault) => out.print(&fault),
    }
    Ok(())
}

// Writes a clone of a place, and whether it and its scope are the same.
fn append_copy(out: &mut Answer, copy: &Place, place: &Place) -> Result<(), LineFault> {
    out.write_place(copy);
    out.either(*copy == *place, b" same", b" other");
    out.either(copy.scope.try_clone()? == place.scope, b" same", b" other");
    Ok(())
}
