//! Calls on what units imply: a unit's name, and the text of its file, which is evaluated as a manager does.
//!
//! What is implied is written as `defaults` or `none`, then the names of each kind, and the mounts of its paths.
use crate::edits::append_names;
use crate::sections::read_word;
use implied_names::Implied;
use plain_values::Items;
use profiles::Profile;
use setting_rules::{DepKind, Values, apply, in_byte_order, values};
use unit_name::UnitName;
use unit_values::{is_built_in, is_perpetual};
use worked_lines::{Answer, LineFault, Words, match_word};

/// Writes the answer to a call on what units imply.
pub fn answer(words: &mut Words, out: &mut Answer) -> Result<(), LineFault> {
    let call = words.word()?;
    let unit = words.name()?;
    match_word!(call;
        b"unit" => {
            let values = values_of(words, &unit)?;
            append_implied(out, &Implied::of(words.alloc, &unit, values.rows.as_slice())?)
        },
        b"built-in" => {
            out.either(is_built_in(words.alloc, &unit)?, b"yes", b"no");
            Ok(())
        },
        b"perpetual" => {
            out.either(is_perpetual(&unit), b"yes", b"no");
            Ok(())
        },
    )
}

// The effective values of the unit with the file that the next word spells.
fn values_of(words: &mut Words, unit: &UnitName) -> Result<Values, LineFault> {
    let sections = read_word(words.alloc, words.word()?)?;
    let settings = apply(words.alloc, Profile::Manager, sections.items.as_slice())?;
    Ok(values(words.alloc, &settings, unit)?)
}

// Writes what a unit implies.
fn append_implied(out: &mut Answer, implied: &Implied) -> Result<(), LineFault> {
    out.either(implied.has_defaults, b"defaults", b"none");
    for kind in DepKind::naming() {
        let names = names_by(out, implied, *kind)?;
        append_list(out, kind.word().as_bytes(), names.as_slice());
    }
    append_list(out, b"mounts", implied.mounts.as_slice());
    Ok(())
}

// The names that a unit implies by a kind, each once, in byte order.
fn names_by(
    out: &Answer,
    implied: &Implied,
    wanted: DepKind,
) -> Result<Items<UnitName>, LineFault> {
    let mut names = Vec::new(out.alloc);
    for (kind, name) in implied.names.as_slice() {
        if *kind == wanted {
            names.push(name.try_clone()?)?;
        }
    }
    Ok(in_byte_order(names))
}

// Writes a word and names, unless there are none.
fn append_list(out: &mut Answer, word: &[u8], names: &[UnitName]) {
    if !names.is_empty() {
        out.part(b" ");
        out.write(word);
        out.write(b":");
        append_names(out, names);
    }
}
