//! Calls on settings: the texts of a unit's files, and the unit's name if a call takes one. They are evaluated by files
//! alone; after the word `manager` as a manager does.
//!
//! A value is written as `SECTION.KEY=VALUE`, a key with its values as `SECTION.KEY=` and these, a list of dependencies
//! as its kind and `:` and the names, and a note as its code and `SECTION.KEY`.
use crate::edits::append_names;
use crate::sections::read_word;
use plain_values::{Bytes, Items};
use profiles::Profile;
use section_reader::Assignment;
use setting_rules::{
    DepKind, Dependencies, SettingNote, Settings, Values, apply, dependencies, for_unit,
    refuses_manual_start, values,
};
use unit_name::UnitName;
use worked_lines::{Answer, LineFault, Words, match_word};

/// Writes the answer to a call on settings.
pub fn answer(words: &mut Words, out: &mut Answer) -> Result<(), LineFault> {
    let call = words.word()?;
    match_word!(call;
        b"manager" => answer_by(Profile::Manager, words.word()?, words, out),
        _ => answer_by(Profile::Files, call, words, out),
    )
}

// The answer to a call by a profile.
fn answer_by(
    profile: Profile,
    call: &[u8],
    words: &mut Words,
    out: &mut Answer,
) -> Result<(), LineFault> {
    match_word!(call;
        b"kinds" => {
            append_kinds(out);
            Ok(())
        },
        b"key" => {
            append_kind_of(out, profile, &words.text()?);
            Ok(())
        },
        b"for" => returned_name(words, out),
        b"apply" | b"manual" => {
            of_files(call, &settings(profile, words)?, out);
            Ok(())
        },
        _ => returned(profile, call, words, out),
    )
}

// The answer to a call on files alone.
fn of_files(call: &[u8], settings: &Settings, out: &mut Answer) {
    match_word!(call;
        b"apply" => append_settings(out, settings),
        _ => out.either(refuses_manual_start(settings), b"refused", b"allowed"),
    )
}

// The answer to a call on a unit and its files.
fn returned(
    profile: Profile,
    call: &[u8],
    words: &mut Words,
    out: &mut Answer,
) -> Result<(), LineFault> {
    let unit = words.name()?;
    of_unit(call, &unit, &settings(profile, words)?, out)
}

// The answer to a call on a unit and the effective settings of its files.
fn of_unit(
    call: &[u8],
    unit: &UnitName,
    settings: &Settings,
    out: &mut Answer,
) -> Result<(), LineFault> {
    match_word!(call;
        b"values" => {
            append_values(out, &values(out.alloc, settings, unit)?);
            Ok(())
        },
        b"dependencies" => {
            append_dependencies(out, &dependencies(out.alloc, settings, unit)?);
            Ok(())
        },
    )
}

// The assignments of the files that a list of words spells.
fn assignments(words: &mut Words) -> Result<Items<Assignment>, LineFault> {
    let mut all = Items::new(words.alloc);
    for word in &words.list()? {
        all.append(read_word(words.alloc, word)?.items)?;
    }
    Ok(all)
}

// The effective settings by a profile of the files that a list of words spells.
fn settings(profile: Profile, words: &mut Words) -> Result<Settings, LineFault> {
    let assignments = assignments(words)?;
    Ok(apply(words.alloc, profile, assignments.as_slice())?)
}

// Writes a key of a section, after a space unless nothing is written yet.
fn append_key(out: &mut Answer, section: &Bytes, key: &Bytes) {
    out.part(b" ");
    out.spell(section.as_slice());
    out.spell_quoted(&[(b'.', key.as_slice())]);
}

// Writes notes, or `nothing` if nothing is written at all.
fn append_notes(out: &mut Answer, notes: &[SettingNote]) {
    for note in notes {
        out.part(b" ");
        out.print(&note.kind);
        append_key(out, &note.section, &note.key);
    }
    out.or(b"nothing");
}

// Writes a key with its values.
fn append_entry(out: &mut Answer, section: &Bytes, key: &Bytes, texts: &[Bytes]) {
    append_key(out, section, key);
    out.write(b"=");
    for text in texts {
        out.spell(text.as_slice());
        out.write(b",");
    }
}

// Writes each key with its values, and the notes.
fn append_settings(out: &mut Answer, settings: &Settings) {
    for place in 0..settings.map.len() {
        let (key, texts) = settings.map.entry(place);
        append_entry(out, &key.section, &key.key, texts);
    }
    append_notes(out, settings.notes.as_slice());
}

// Writes rows, and the notes.
fn append_values(out: &mut Answer, values: &Values) {
    for row in values.rows.as_slice() {
        append_key(out, &row.section, &row.key);
        out.spell_quoted(&[(b'=', row.value.as_slice())]);
    }
    append_notes(out, values.notes.as_slice());
}

// Writes the lists of dependencies that aren't empty, and the notes.
fn append_dependencies(out: &mut Answer, all: &Dependencies) {
    for list in all.lists.as_slice() {
        if !list.names.as_slice().is_empty() {
            out.part(b" ");
            out.write(list.kind.word().as_bytes());
            out.write(b":");
            append_names(out, list.names.as_slice());
        }
    }
    append_notes(out, all.notes.as_slice());
}

// Writes all kinds, each with its inverse.
fn append_kinds(out: &mut Answer) {
    for kind in DepKind::all() {
        out.part(b" ");
        out.write(kind.word().as_bytes());
        out.write(b"/");
        out.write(kind.inverse().word().as_bytes());
    }
}

// Writes the kind that a key sets by a profile.
fn append_kind_of(out: &mut Answer, profile: Profile, key: &[u8]) {
    match DepKind::of_key(profile, key) {
        Some(kind) => out.write(kind.word().as_bytes()),
        None => out.write(b"none"),
    }
}

// The unit that a unit means by a name.
fn returned_name(words: &mut Words, out: &mut Answer) -> Result<(), LineFault> {
    let unit = words.name()?;
    append_name_for(out, &unit, words.name()?)
}

// Writes the unit that a unit means by a name.
fn append_name_for(out: &mut Answer, unit: &UnitName, name: UnitName) -> Result<(), LineFault> {
    let meant = for_unit(unit, name)?;
    out.spell_name(meant.as_ref());
    Ok(())
}
