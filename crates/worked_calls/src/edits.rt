//! How edits and stores are written: an edit as `COUNTER.WRITER:PLACE` for a removal, followed by `=TEXT` for a file
//! and by `>TARGET` for a link.
use profiles::Profile;
use replica_store::{
    Content, Edit, Entries, HostName, HostView, HostViewEntries, HostViewEntry, Place, Placed,
    Store, Version, Viewer,
};
use unit_name::UnitName;
use worked_lines::{Answer, LineFault};

/// The manager of a host, or one of the whole fleet, that loads units as their files say alone.
pub fn by_files(host: Option<HostName>) -> Viewer {
    Viewer {
        host,
        profile: Profile::Files,
    }
}

/// Writes a version.
pub fn append_version(out: &mut Answer, version: Version) {
    out.print(&version.counter);
    out.write(b".");
    out.print(&version.writer);
}

/// Writes a content as it follows a path.
pub fn append_content(out: &mut Answer, content: &Content) {
    match content {
        Content::Gone => {}
        Content::File(file) => out.spell_quoted(&[(b'=', file.bytes())]),
        Content::Link(target) => out.spell_quoted(&[(b'>', target.bytes())]),
    }
}

/// Writes a content after its version and its place.
pub fn append_at(out: &mut Answer, version: Version, place: &Place, content: &Content) {
    append_version(out, version);
    out.write(b":");
    out.write_place(place);
    append_content(out, content);
}

/// Writes an edit.
pub fn append_edit(out: &mut Answer, edit: &Edit) {
    append_at(out, edit.version, &edit.place, &edit.content);
}

/// Writes an entry with its place, after a space unless nothing is written yet.
pub fn append_placed(out: &mut Answer, placed: &Placed) -> Result<(), LineFault> {
    let entry = placed.entry();
    out.part(b" ");
    append_at(out, entry.version, &placed.place()?, &entry.content);
    Ok(())
}

/// Writes entries, each after a space unless nothing is written yet; `nothing` if there are none.
pub fn append_entries(out: &mut Answer, mut entries: Entries<'_>) -> Result<(), LineFault> {
    let Some(first) = entries.next_entry() else {
        out.part(b" ");
        out.write(b"nothing");
        return Ok(());
    };
    append_placed(out, &first)?;
    while let Some(placed) = entries.next_entry() {
        append_placed(out, &placed)?;
    }
    Ok(())
}

/// Writes an entry that a host sees with its place, after a space unless nothing is written yet.
pub fn append_viewed(
    out: &mut Answer,
    view: &HostView,
    placed: &HostViewEntry,
) -> Result<(), LineFault> {
    let entry = placed.entry();
    out.part(b" ");
    append_at(out, entry.version, &view.place(placed)?, &entry.content);
    Ok(())
}

/// Writes entries that a host sees, each after a space unless nothing is written yet; `nothing` if there are none.
pub fn append_all_viewed(
    out: &mut Answer,
    view: &HostView,
    mut entries: HostViewEntries<'_>,
) -> Result<(), LineFault> {
    let Some(first) = entries.next_entry() else {
        out.part(b" ");
        out.write(b"nothing");
        return Ok(());
    };
    append_viewed(out, view, &first)?;
    while let Some(placed) = entries.next_entry() {
        append_viewed(out, view, &placed)?;
    }
    Ok(())
}

/// Writes everything that a store holds, in place order.
pub fn append_store(out: &mut Answer, store: &Store) -> Result<(), LineFault> {
    append_entries(out, store.entries())
}

/// Writes places, separated by spaces.
pub fn append_places(out: &mut Answer, places: &[Place]) {
    for place in places {
        out.part(b" ");
        out.write_place(place);
    }
    out.or(b"none");
}

/// Writes names, each after a space unless nothing is written yet.
pub fn append_names(out: &mut Answer, names: &[UnitName]) {
    for name in names {
        out.part(b" ");
        out.write(name.bytes());
    }
    out.or(b"none");
}
