//! Calls on what a unit's name resolves to, for a host or for the fleet: the store as words, `+`, and the unit's name,
//! or several names.
use crate::edits::{append_names, by_files};
use fragment_choice::{AliasIndex, Choice, Resolution, choose, names_of, resolve};
use replica_store::{Store, Viewer};
use unit_name::UnitName;
use worked_lines::{Answer, LineFault, Words, asked_of, match_word};

/// Writes the answer to a call on the choice of a unit.
pub fn answer(words: &mut Words, out: &mut Answer) -> Result<(), LineFault> {
    let (call, host) = asked_of(words.alloc, words.word()?)?;
    let store = words.store()?;
    of_store(call, &store, &by_files(host), words, out)
}

// The answer to a call on a store, and on one name or several.
fn of_store(
    call: &[u8],
    store: &Store,
    viewer: &Viewer,
    words: &mut Words,
    out: &mut Answer,
) -> Result<(), LineFault> {
    match_word!(call;
        b"index" => append_indexed(out, store, viewer, &words.spelled_names()?),
        _ => returned(call, store, viewer, &words.name()?, out),
    )
}

// The answer to a call on one name in a store.
fn returned(
    call: &[u8],
    store: &Store,
    viewer: &Viewer,
    name: &UnitName,
    out: &mut Answer,
) -> Result<(), LineFault> {
    match_word!(call;
        b"choose" => {
            append_choice(out, &choose(out.alloc, store, viewer, name)?);
            Ok(())
        },
        b"resolve" => {
            append_resolution(out, &resolve(out.alloc, store, viewer, name)?);
            Ok(())
        },
        b"names" => append_names_of(out, store, viewer, name),
    )
}

// Writes a choice.
fn append_choice(out: &mut Answer, choice: &Choice) {
    match choice {
        Choice::NotFound => out.write(b"not found"),
        Choice::Masked => out.write(b"masked"),
        Choice::Fragment(place) => out.write_place(place),
        Choice::Alias(alias) => out.write(alias.bytes()),
        Choice::Bad(cause) => out.print(cause),
    }
}

// Writes the main name and its choice.
fn append_resolution(out: &mut Answer, end: &Resolution) {
    out.write(end.main.bytes());
    out.write(b" ");
    append_choice(out, &end.choice);
}

// Writes the names of the unit, if this is its main name.
fn append_names_of(
    out: &mut Answer,
    store: &Store,
    viewer: &Viewer,
    name: &UnitName,
) -> Result<(), LineFault> {
    if resolve(out.alloc, store, viewer, name)?.main.bytes() == name.bytes() {
        append_names(out, &names_of(out.alloc, store, viewer, name)?);
    } else {
        out.write(b"no main name");
    }
    Ok(())
}

// Writes the names of those units of a list that are given by their main name, found with one index.
fn append_indexed(
    out: &mut Answer,
    store: &Store,
    viewer: &Viewer,
    units: &[UnitName],
) -> Result<(), LineFault> {
    let index = AliasIndex::of(out.alloc, store, viewer)?;
    for unit in units {
        append_unit(out, &index, unit)?;
    }
    Ok(())
}

// Writes the names of a unit that is given by its main name, found with an index.
fn append_unit(out: &mut Answer, index: &AliasIndex, unit: &UnitName) -> Result<(), LineFault> {
    if index.resolve(out.alloc, unit)?.main.bytes() == unit.bytes() {
        out.part(b" +");
        append_names(out, &index.names_of(out.alloc, unit)?);
    }
    Ok(())
}
