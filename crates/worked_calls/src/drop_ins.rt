//! Calls on the folders, the drop-ins and the link folders of units: the store as words, `+`, and the unit's names.
//! Calls on a store may be made for a host.
use crate::edits::{append_names, append_places, append_viewed, by_files};
use dropins::{Folder, UnitFolders, folders, links, order};
use replica_store::{HostView, Store, Viewer};
use unit_name::UnitName;
use worked_lines::{Answer, LineFault, Words, asked_of, match_word};

/// Writes the answer to a call on drop-ins.
pub fn answer(words: &mut Words, out: &mut Answer) -> Result<(), LineFault> {
    let call = words.word()?;
    match_word!(call;
        b"folders" => {
            append_names(out, &folders(words.alloc, &words.spelled_names()?)?);
            Ok(())
        },
        _ => asked(call, words, out),
    )
}

// The answer to a call on a store, for a host or for the fleet.
fn asked(word: &[u8], words: &mut Words, out: &mut Answer) -> Result<(), LineFault> {
    let (call, host) = asked_of(words.alloc, word)?;
    let store = words.store()?;
    returned(call, &store, &by_files(host), &words.spelled_names()?, out)
}

// The answer to a call on the unit with these names in a store.
fn returned(
    call: &[u8],
    store: &Store,
    viewer: &Viewer,
    names: &[UnitName],
    out: &mut Answer,
) -> Result<(), LineFault> {
    match_word!(call;
        b"order" => {
            append_places(out, &order(out.alloc, store, viewer, names)?);
            Ok(())
        },
        b"lend" => append_borrowed(out, &store.host_view(viewer), names),
        b"lend-wants" => append_lent(out, &store.host_view(viewer), names, Folder::Wants),
        b"lend-requires" => append_lent(out, &store.host_view(viewer), names, Folder::Requires),
        b"wants" => append_links(out, store, viewer, names, Folder::Wants),
        b"requires" => append_links(out, store, viewer, names, Folder::Requires),
    )
}

// Writes the names of the links in one of the unit's link folders.
fn append_links(
    out: &mut Answer,
    store: &Store,
    viewer: &Viewer,
    names: &[UnitName],
    folder: Folder,
) -> Result<(), LineFault> {
    append_names(out, &links(out.alloc, store, viewer, names, folder)?);
    Ok(())
}

// Writes the links themselves, with their targets; `nothing` if there are none.
fn append_lent(
    out: &mut Answer,
    view: &HostView,
    names: &[UnitName],
    folder: Folder,
) -> Result<(), LineFault> {
    let folders = UnitFolders::of(out.alloc, names)?;
    for entry in &folders.link_entries(out.alloc, view, folder)? {
        append_viewed(out, view, entry)?;
    }
    out.or(b"nothing");
    Ok(())
}

// Writes the folders of the unit, and then its drop-ins with their contents.
fn append_borrowed(out: &mut Answer, view: &HostView, names: &[UnitName]) -> Result<(), LineFault> {
    let folders = UnitFolders::of(out.alloc, names)?;
    append_names(out, folders.names());
    for entry in &folders.drop_ins(out.alloc, view)? {
        append_viewed(out, view, entry)?;
    }
    Ok(())
}
