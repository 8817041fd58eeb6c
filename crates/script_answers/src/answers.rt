//! How answers are written.
ghost use Rattle.std.specs.{Prelude.{◌≡◌, ◌∷◌, ◌++◌, IfOk, OnOk, codes}, List.{flat_map}};
ghost use Rattle.load_places.specs.Texts.{place_text};
ghost use Rattle.script_answers.specs.Texts.{refusal_name, refusal_values, error_line, ok_line, changed_line, crowd_line, entries_line, entry_line, files_text, content_text, version_text};

use crate::names::{append_name, append_names};
use edit_sums::Content;
use join_law::Version;
use replica_store::{Placed, Store};
use script_commands::LineRefusal;
use std::alloc::{AllocError, Global};
use std::fmt::Write;

// The most bytes of the line of an edit that was put.
const OK_ROOM: usize = 35;

// The code and the name of a refusal.
fn code_and_name(refusal: &LineRefusal) -> &'static [u8]
    ensures name { result.now ≡ refusal_name refusal.now }
{
    match refusal {
        LineRefusal::UnknownCommand => b"X1 UnknownCommand",
        LineRefusal::Arguments => b"X2 Arguments",
        LineRefusal::UnknownNode => b"X3 UnknownNode",
        LineRefusal::BadText => b"X4 BadText",
        LineRefusal::UnknownPiece => b"X5 UnknownPiece",
        LineRefusal::NodeTaken => b"X6 NodeTaken",
        LineRefusal::WriterTaken => b"X7 WriterTaken",
        LineRefusal::LineTooLong => b"X8 LineTooLong",
        LineRefusal::HostName => b"H1 HostName",
        LineRefusal::Directory => b"F1 Directory",
        LineRefusal::Depth => b"F2 Depth",
        LineRefusal::Component => b"F3 Component",
        LineRefusal::FileTooLarge => b"C1 FileTooLarge",
        LineRefusal::BadLink => b"C2 BadLink",
        LineRefusal::VersionsSpent => b"E1 VersionsSpent",
        LineRefusal::Nothing => b"E2 Nothing",
        LineRefusal::NotVisible => b"E3 NotVisible",
        LineRefusal::Length => b"N1 Length",
        LineRefusal::Kind => b"N2 Kind",
        LineRefusal::EmptyPrefix => b"N3 EmptyPrefix",
        LineRefusal::BadByte(_) => b"N4 BadByte",
        LineRefusal::NotFound(_) => b"P2 NotFound",
        LineRefusal::Masked(_) => b"P3 Masked",
        LineRefusal::Bad(_) => b"P4 Bad",
        LineRefusal::Template => b"P1 Template",
        LineRefusal::Workers => b"L1 Workers",
        LineRefusal::TooManyUnits => b"L2 TooManyUnits",
        LineRefusal::ManualStart => b"P5 ManualStart",
        LineRefusal::Requisite(_, _) => b"P6 Requisite",
        LineRefusal::Conflict(_, _) => b"P7 Conflict",
        LineRefusal::Cycle(_) => b"P8 Cycle",
        LineRefusal::Seats => b"A1 Seats",
    }
}

// Appends the values of a refusal, each after a space.
fn append_values(alloc: Global, out: &mut Vec<u8>, refusal: &LineRefusal) -> Result<(), AllocError>
    ensures appended { OnOk result (out.new.items ≡ out.old.items ++ refusal_values refusal.now) }
{
    match refusal {
        LineRefusal::BadByte(place) => {
            let place = *place;
            out.extend_from_slice(format!(in alloc; " {place}")?.as_bytes())
        }
        LineRefusal::NotFound(name) | LineRefusal::Masked(name) | LineRefusal::Bad(name) => {
            append_name(out, name)
        }
        LineRefusal::Requisite(unit, other) | LineRefusal::Conflict(unit, other) => {
            append_name(out, unit)?;
            append_name(out, other)
        }
        LineRefusal::Cycle(units) => append_names(out, units.as_slice()),
        _ => Ok(()),
    }
}

// The line of a borrowed refusal.
fn refusal_line(alloc: Global, refusal: &LineRefusal) -> Result<Vec<u8>, AllocError>
    ensures line { IfOk result (λ line. line.items ≡ error_line refusal.now) }
{
    let mut line = Vec::from_slice(alloc, b"error: ")?;
    line.extend_from_slice(code_and_name(refusal))?;
    append_values(alloc, &mut line, refusal)?;
    line.push(b'\n')?;
    Ok(line)
}

/// Returns the line of a refusal.
pub fn refused(alloc: Global, refusal: LineRefusal) -> Result<Vec<u8>, AllocError>
    ensures line { IfOk result (λ line. line.items ≡ error_line refusal) }
{
    refusal_line(alloc, &refusal)
}

/// Returns the line of an edit that was put.
pub fn put_done(alloc: Global, version: Version) -> Result<Vec<u8>, AllocError>
    ensures line { IfOk result (λ line. line.items ≡ ok_line version) }
{
    let counter = version.counter;
    let writer = version.writer;
    let mut line = String::with_capacity(alloc, OK_ROOM)?;
    write!(line, "ok {counter}.{writer}\n")?;
    Ok(line.into_bytes())
}

/// Returns the line of a merge.
pub fn merge_done(alloc: Global, changed: u64) -> Result<Vec<u8>, AllocError>
    ensures line { IfOk result (λ line. line.items ≡ changed_line changed) }
{
    Ok(format!(in alloc; "changed {changed}\n")?.into_bytes())
}

/// Returns the line of a piece that was cut.
pub fn part_done(alloc: Global, entries: usize) -> Result<Vec<u8>, AllocError>
    ensures line { IfOk result (λ line. line.items ≡ entries_line entries) }
{
    Ok(format!(in alloc; "entries {entries}\n")?.into_bytes())
}

/// Returns the line of a crowd: its takes, and the paths that it held.
pub(crate) fn crowd_done(alloc: Global, takes: u64, paths: u64) -> Result<Vec<u8>, AllocError>
    ensures line { IfOk result (λ line. line.items ≡ crowd_line takes paths) }
{
    Ok(format!(in alloc; "takes {takes} paths {paths}\n")?.into_bytes())
}

// Appends a content as text. `scratch` is a buffer for numbers.
fn append_content(
    out: &mut Vec<u8>,
    scratch: &mut String,
    content: &Content,
) -> Result<(), AllocError>
    ensures appended { OnOk result (out.new.items ≡ out.old.items ++ content_text content.now) }
{
    match content {
        Content::Gone => out.extend_from_slice(b"gone"),
        Content::Link(target) => {
            out.extend_from_slice(b"link ")?;
            out.extend_from_slice(target.bytes())
        }
        Content::File(file) => {
            let len = file.bytes().len();
            scratch.clear();
            write!(scratch, "file {len}")?;
            out.extend_from_slice(scratch.as_bytes())
        }
    }
}

// Appends a version's numbers. `scratch` is a buffer for them.
fn append_version(
    out: &mut Vec<u8>,
    scratch: &mut String,
    version: Version,
) -> Result<(), AllocError>
    ensures appended { OnOk result (out.new.items ≡ out.old.items ++ version_text version) }
{
    let counter = version.counter;
    let writer = version.writer;
    scratch.clear();
    write!(scratch, "{counter}.{writer}")?;
    out.extend_from_slice(scratch.as_bytes())
}

// Appends the place of an entry.
fn append_place(out: &mut Vec<u8>, placed: &Placed) -> Result<(), AllocError>
    ensures appended { OnOk result (out.new.items ≡ out.old.items ++ place_text placed.now.0) }
{
    placed.place()?.append_to(out)
}

// Appends the line of an entry.
fn append_entry(out: &mut Vec<u8>, scratch: &mut String, placed: &Placed) -> Result<(), AllocError>
    ensures appended { OnOk result (out.new.items ≡ out.old.items ++ entry_line placed.now) }
{
    let entry = placed.entry();
    append_place(out, placed)?;
    out.push(b' ')?;
    append_version(out, scratch, entry.version)?;
    out.push(b' ')?;
    append_content(out, scratch, &entry.content)?;
    out.push(b'\n')?;
    Ok(())
}

/// Returns the text of everything that a store holds, a line for each entry, in place order. Linear in the length of
/// the text; all numbers share one buffer.
pub fn list_files(alloc: Global, store: &Store) -> Result<Vec<u8>, AllocError>
    ensures lines { IfOk result (λ text. text.items ≡ files_text store.now) }
{
    let mut out = Vec::new(alloc);
    let mut scratch = String::new(alloc);
    let mut entries = store.entries();
    while let Some(placed) = entries.next_entry() {
        append_entry(&mut out, &mut scratch, &placed)?;
    }
    out.extend_from_slice(b"end\n")?;
    Ok(out)
}
