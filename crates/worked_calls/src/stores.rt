//! Calls on stores. Calls on what is seen may be made for a host.
//!
//! A level is written as the rank of the fleet's directory, or as `own:` and the rank of the host's own.
use crate::edits::{
    append_all_viewed, append_content, append_places, append_store, append_version, append_viewed,
    by_files,
};
use replica_store::{Content, Edit, Entry, HostView, HostViewEntry, Place, Store, Viewer};
use worked_lines::{Answer, LineFault, Words, asked_of, byte_of, cut_at, edit_of, match_word};

/// Writes the answer to a call on stores.
pub fn answer(words: &mut Words, out: &mut Answer) -> Result<(), LineFault> {
    let call = words.word()?;
    match_word!(call;
        b"join" => joined(words, out),
        b"flat" => append_store(out, &Store::from_flat(words.alloc, &words.flat_edits()?)?),
        b"merge" => merged(words, out),
        b"absorb" => absorbed(words, out),
        b"get" | b"visible" => at_place(call, words, out),
        b"folder" => of_folder(words, out),
        b"of" | b"copy" | b"same" | b"changed" | b"high" | b"len" | b"list" => {
            returned(call, &words.store()?, words, out)
        },
        _ => of_viewed(call, words, out),
    )
}

// The answer to a call on a whole store, or on two.
fn returned(
    call: &[u8],
    first: &Store,
    words: &mut Words,
    out: &mut Answer,
) -> Result<(), LineFault> {
    match_word!(call;
        b"of" => append_store(out, first),
        b"copy" => append_store(out, &first.try_clone()?),
        b"same" => {
            out.either(first.same(&words.store()?), b"yes", b"no");
            Ok(())
        },
        b"changed" => append_differing(out, first, &words.store()?),
        b"high" => {
            out.print(&first.high());
            Ok(())
        },
        b"len" => {
            append_sizes(out, first);
            Ok(())
        },
        b"list" => {
            append_places(out, &first.list()?);
            Ok(())
        },
    )
}

// Writes the places at which two stores differ.
fn append_differing(out: &mut Answer, first: &Store, second: &Store) -> Result<(), LineFault> {
    append_places(out, &first.changed(second)?);
    Ok(())
}

// A store that one edit is joined to.
fn joined(words: &mut Words, out: &mut Answer) -> Result<(), LineFault> {
    let edit = edit_of(words.alloc, words.word()?)?;
    append_with(out, &mut words.store()?, edit)
}

// Joins an edit to a store, and writes the store.
fn append_with(out: &mut Answer, store: &mut Store, edit: Edit) -> Result<(), LineFault> {
    store.join_edit(edit)?;
    append_store(out, store)
}

/// Writes how many paths changed, and what a store then holds, with its greatest counter.
pub fn append_changed(out: &mut Answer, count: u64, store: &Store) -> Result<(), LineFault> {
    out.print(&count);
    out.write(b" changed, high ");
    out.print(&store.high());
    out.write(b":");
    append_store(out, store)
}

// A store that another is merged into.
fn merged(words: &mut Words, out: &mut Answer) -> Result<(), LineFault> {
    let mut first = words.store()?;
    append_merged(out, &mut first, &words.store()?)
}

// Merges a store into another, and writes what changed.
fn append_merged(out: &mut Answer, first: &mut Store, second: &Store) -> Result<(), LineFault> {
    let count = first.merge(second)?;
    append_changed(out, count, first)
}

// A store that absorbs another.
fn absorbed(words: &mut Words, out: &mut Answer) -> Result<(), LineFault> {
    let mut first = words.store()?;
    append_absorbed(out, &mut first, words.store()?)
}

// Lets a store absorb another, and writes what changed.
fn append_absorbed(out: &mut Answer, first: &mut Store, second: Store) -> Result<(), LineFault> {
    let count = first.absorb(second)?;
    append_changed(out, count, first)
}

// Writes how many places a store holds, and in how many scopes they are.
fn append_sizes(out: &mut Answer, store: &Store) {
    out.print(&store.len());
    out.write(b" in ");
    out.print(&store.maps().len());
}

// Writes a content, or that there is none.
fn append_visible(out: &mut Answer, content: Option<&Content>) {
    match content {
        Some(content) => append_content(out, content),
        None => out.write(b"nothing"),
    }
}

// Writes a version and a content, or that there are none.
fn append_entry(out: &mut Answer, entry: Option<&Entry>) {
    let Some(entry) = entry else {
        return out.write(b"nothing");
    };
    append_version(out, entry.version);
    append_content(out, &entry.content);
}

// What a store holds at a place, or what is visible there.
fn at_place(call: &[u8], words: &mut Words, out: &mut Answer) -> Result<(), LineFault> {
    let place = words.place()?;
    append_at(call, out, &words.store()?, &place);
    Ok(())
}

// Writes what a store holds at a place, or what is visible there.
fn append_at(call: &[u8], out: &mut Answer, store: &Store, place: &Place) {
    match_word!(call;
        b"visible" => append_visible(out, store.visible(place)),
        _ => append_entry(out, store.get(place)),
    )
}

// The answer to a call on what a host sees of a store, or on what the fleet sees.
fn of_viewed(word: &[u8], words: &mut Words, out: &mut Answer) -> Result<(), LineFault> {
    let (call, host) = asked_of(words.alloc, word)?;
    let viewer = by_files(host);
    match_word!(call;
        b"seen" => viewed_at(&viewer, words, out),
        b"entries_in" => in_folder(&viewer, words, out),
        b"entry_at" => at_parts(&viewer, words, out),
    )
}

// What is seen at a place.
fn viewed_at(viewer: &Viewer, words: &mut Words, out: &mut Answer) -> Result<(), LineFault> {
    let place = words.place()?;
    let store = words.store()?;
    append_visible(out, store.host_view(viewer).visible(&place));
    Ok(())
}

// The level that a word writes.
fn level_of(word: &[u8]) -> Result<u8, LineFault> {
    match cut_at(word, b':') {
        Some((_own, rank)) => Ok(byte_of(rank)?.saturating_mul(2)),
        None => Ok(byte_of(word)?.saturating_mul(2).saturating_add(1)),
    }
}

// The entries that are seen in a folder of a level.
fn in_folder(viewer: &Viewer, words: &mut Words, out: &mut Answer) -> Result<(), LineFault> {
    let level = level_of(words.word()?)?;
    let folder = words.text()?;
    let store = words.store()?;
    append_seen(out, &store.host_view(viewer), level, &folder)
}

// Writes the entries that are seen in a folder of a level.
fn append_seen(
    out: &mut Answer,
    view: &HostView,
    level: u8,
    folder: &[u8],
) -> Result<(), LineFault> {
    append_all_viewed(out, view, view.entries_in(level, folder))
}

// The places of a folder of a scope.
fn of_folder(words: &mut Words, out: &mut Answer) -> Result<(), LineFault> {
    let scope = words.scope()?;
    let rank = byte_of(words.word()?)?;
    let folder = words.text()?;
    append_places(out, &words.store()?.folder(&scope, rank, &folder)?);
    Ok(())
}

// What is seen at the path of these parts.
fn at_parts(viewer: &Viewer, words: &mut Words, out: &mut Answer) -> Result<(), LineFault> {
    let level = level_of(words.word()?)?;
    let folder = words.text()?;
    let name = words.text()?;
    let store = words.store()?;
    let view = store.host_view(viewer);
    append_held(out, &view, view.entry_at(level, &folder, &name))
}

// Writes an entry after the name of its path, or that there is none.
fn append_held(
    out: &mut Answer,
    view: &HostView,
    held: Option<HostViewEntry>,
) -> Result<(), LineFault> {
    let Some(placed) = held else {
        out.write(b"nothing");
        return Ok(());
    };
    out.write(placed.name().as_slice());
    append_viewed(out, view, &placed)
}
