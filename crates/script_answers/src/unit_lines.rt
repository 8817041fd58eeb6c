//! How a unit is written.
ghost use Rattle.std.specs.{Prelude.{◌≡◌, ◌++◌, ℕ, List, IfOk, OnOk}, List.{flat_map}};
ghost use Rattle.script_answers.specs.UnitLines.{cause_text, dropin_line, head_text, kind_line, note_line, row_line, status_text, unit_text, units_text};

use crate::names::append_names;
use fleet_answers::LinkedUnit;
use fragment_choice::Cause;
use load_places::Place;
use setting_rules::{DependencyList, Row};
use std::alloc::{AllocError, Global};
use std::fmt::Write;
use unit_loads::{Status, Unit, UnitNote};
use unit_name::UnitName;

// The code and the name of a cause.
fn cause_text(cause: Cause) -> &'static [u8]
    ensures text { result.now ≡ cause_text cause }
{
    match cause {
        Cause::Kind => b"B1 Kind",
        Cause::Shape => b"B2 Shape",
        Cause::Loop => b"B3 Loop",
        Cause::Target => b"B4 Target",
    }
}

// Appends the status of a unit.
fn append_status(out: &mut Vec<u8>, status: &Status) -> Result<(), AllocError>
    ensures appended { OnOk result (out.new.items ≡ out.old.items ++ status_text status.now) }
{
    match status {
        Status::Loaded(place) => {
            out.extend_from_slice(b"loaded ")?;
            place.append_to(out)
        }
        Status::BuiltIn => out.extend_from_slice(b"built-in"),
        Status::NotFound => out.extend_from_slice(b"not-found"),
        Status::Masked => out.extend_from_slice(b"masked"),
        Status::Bad(cause) => {
            out.extend_from_slice(b"bad ")?;
            out.extend_from_slice(cause_text(*cause))
        }
    }
}

// What is written as lines: of a unit one line for each value, place or kind, or none; or the lines of a whole unit.
trait UnitLine {
    // The lines.
    ghost line: { Self → List ℕ };

    // Appends them.
    fn append_line(&self, out: &mut Vec<u8>) -> Result<(), AllocError>
        ensures appended { OnOk result (out.new.items ≡ out.old.items ++ line self.now) };
}

// Appends the lines of all, one after another.
fn append_lines<L: UnitLine>(out: &mut Vec<u8>, all: &[L]) -> Result<(), AllocError>
    ensures appended { OnOk result (out.new.items ≡ out.old.items ++ flat_map L.line all.now) }
{
    for one in all {
        one.append_line(out)?;
    }
    Ok(())
}

// The place of a drop-in.
impl UnitLine for Place {
    ghost line = { dropin_line };

    fn append_line(&self, out: &mut Vec<u8>) -> Result<(), AllocError> {
        out.extend_from_slice(b"dropin ")?;
        self.append_to(out)?;
        out.extend_from_slice(b"\n")
    }
}

// A value.
impl UnitLine for Row {
    ghost line = { row_line };

    fn append_line(&self, out: &mut Vec<u8>) -> Result<(), AllocError> {
        out.extend_from_slice(self.section.as_slice())?;
        out.push(b'.')?;
        out.extend_from_slice(self.key.as_slice())?;
        out.push(b'=')?;
        out.extend_from_slice(self.value.as_slice())?;
        out.extend_from_slice(b"\n")
    }
}

// A kind of which a unit has edges, if there are names.
impl UnitLine for DependencyList {
    ghost line = { kind_line };

    fn append_line(&self, out: &mut Vec<u8>) -> Result<(), AllocError> {
        let names = self.names.as_slice();
        if names.is_empty() {
            return Ok(());
        }
        out.extend_from_slice(self.kind.word().as_bytes())?;
        out.push(b':')?;
        append_names(out, names)?;
        out.extend_from_slice(b"\n")
    }
}

// Appends a line for each note. `scratch` is a buffer for numbers.
fn append_notes(
    out: &mut Vec<u8>,
    scratch: &mut String,
    notes: &[UnitNote],
) -> Result<(), AllocError>
    ensures appended { OnOk result (out.new.items ≡ out.old.items ++ flat_map note_line notes.now) }
{
    for note in notes {
        append_note(out, scratch, note)?;
    }
    Ok(())
}

// Appends the line of a note. `scratch` is a buffer for a number.
fn append_note(out: &mut Vec<u8>, scratch: &mut String, note: &UnitNote) -> Result<(), AllocError>
    ensures appended { OnOk result (out.new.items ≡ out.old.items ++ note_line note.now) }
{
    out.extend_from_slice(b"note ")?;
    match note {
        UnitNote::File(place, note) => {
            let line = note.line;
            out.extend_from_slice(note.kind.code().as_bytes())?;
            out.push(b' ')?;
            place.append_to(out)?;
            scratch.clear();
            write!(scratch, ":{line}\n")?;
            out.extend_from_slice(scratch.as_bytes())
        }
        UnitNote::Setting(note) => {
            out.extend_from_slice(note.kind.code().as_bytes())?;
            out.push(b' ')?;
            out.extend_from_slice(note.section.as_slice())?;
            out.push(b'.')?;
            out.extend_from_slice(note.key.as_slice())?;
            out.push(b'\n')?;
            Ok(())
        }
    }
}

// A unit with its edges.
impl UnitLine for LinkedUnit {
    ghost line = { unit_text };

    fn append_line(&self, out: &mut Vec<u8>) -> Result<(), AllocError> {
        let unit = self.unit.get();
        out.extend_from_slice(b"unit ")?;
        append_head(out, unit)?;
        append_lines(out, unit.dropins.as_slice())?;
        append_lines(out, unit.values.as_slice())?;
        append_lines(out, self.edges.as_slice())?;
        let mut scratch = String::new(*out.allocator());
        append_notes(out, &mut scratch, unit.notes.as_slice())?;
        out.extend_from_slice(b"end\n")
    }
}

/// Returns the text of a unit with its edges. Linear in the length of the text.
pub(crate) fn unit_text(alloc: Global, linked: &LinkedUnit) -> Result<Vec<u8>, AllocError>
    ensures text { IfOk result (λ text. text.items ≡ unit_text linked.now) }
{
    let mut out = Vec::new(alloc);
    linked.append_line(&mut out)?;
    Ok(out)
}

/// Returns the texts of units with their edges, one after another. Linear in the length of the text.
pub(crate) fn units_text(alloc: Global, all: &[LinkedUnit]) -> Result<Vec<u8>, AllocError>
    ensures text { IfOk result (λ text. text.items ≡ units_text all.now) }
{
    let mut out = Vec::new(alloc);
    append_lines(&mut out, all)?;
    out.extend_from_slice(b"end\n")?;
    Ok(out)
}

// Appends a unit's main name, its status, and all its names.
fn append_head(out: &mut Vec<u8>, unit: &Unit) -> Result<(), AllocError>
    ensures appended { OnOk result (out.new.items ≡ out.old.items ++ head_text unit.now) }
{
    out.extend_from_slice(unit.name.bytes())?;
    out.extend_from_slice(b"\nstatus ")?;
    append_status(out, &unit.status)?;
    out.extend_from_slice(b"\nnames")?;
    append_names(out, unit.names.as_slice())?;
    out.push(b'\n')?;
    Ok(())
}
