//! The reader: one pass over the lines of a file.
ghost use Rattle.std.specs.Prelude.{◌≡◌, ◌++◌, ◌∷◌, [], List, IfOk, OnOk};
ghost use Rattle.section_reader.specs.{Lines.{Line}, Logical.{kept}};
ghost use Rattle.section_reader.specs.Places.{items_at, notes_at, place_following, header_notes, items_from, notes_from};
ghost use Rattle.section_reader.specs.Sections.{assignments_of, notes_of};

use crate::assignments::{Assignment, Note, NoteKind};
use crate::lines::Lines;
use crate::logical::join;
use crate::parts::{LineForm, form, header_name, is_bracketed, pair_of, trim};
use crate::places::Place;
use crate::sections::Sections;
use plain_values::{Bytes, Items};
use std::alloc::{AllocError, Global};

/// Reads the bytes of a unit file. Fails only if memory runs out.
///
/// The syntax is that of systemd.syntax(7), "Introduction". Bytes that aren't UTF-8 are kept, names are case-sensitive,
/// and a byte order mark at the very start is skipped. A bad line loses only itself, but a bad header also the lines
/// after it, up to the next that begins with a bracket.
///
/// Time and memory are linear in the bytes. A key or a value is copied once, and once more if lines are joined; the
/// assignments of a section share its name.
pub fn read(alloc: Global, bytes: &[u8]) -> Result<Sections, AllocError>
    ensures items { IfOk result (λ sections. sections.items ≡ assignments_of bytes.now) }
    ensures notes { IfOk result (λ sections. sections.notes ≡ notes_of bytes.now) }
{
    let mut lines = Lines::of(bytes);
    let mut reader = Reader::new(alloc);
    while let Some(line) = lines.next_line() {
        match form(line.text) {
            LineForm::Blank | LineForm::Comment => {}
            LineForm::Whole => reader.read_line(alloc, line.number, trim(line.text))?,
            LineForm::Continued => {
                let text = join(alloc, line.text, &mut lines)?;
                reader.read_line(alloc, line.number, trim(&text))?;
            }
        }
    }
    Ok(reader.sections)
}

// What was read so far, and the state of the reader.
#[derive(Debug, Drop)]
struct Reader {
    sections: Sections,
    place: Place,
}

impl Reader {
    fn new(alloc: Global) -> Reader
        ensures items { result.sections.items ≡ [] }
        ensures notes { result.sections.notes ≡ [] }
        ensures place { result.place ≡ Place.Outside }
    {
        Reader {
            sections: Sections {
                items: Items::new(alloc),
                notes: Items::new(alloc),
            },
            place: Place::Outside,
        }
    }

    // Reads a logical line, which is joined and trimmed.
    fn read_line(&mut self, alloc: Global, number: usize, text: &[u8]) -> Result<(), AllocError>
        ensures items { OnOk result
            ((rest : List Line)
            → self.new.sections.items ++ items_from self.new.place rest
            ≡ self.old.sections.items ++ items_from self.old.place
            (kept (record { number = number; text = text.now }) rest)) }
        ensures notes { OnOk result
            ((rest : List Line)
            → self.new.sections.notes ++ notes_from self.new.place rest
            ≡ self.old.sections.notes ++ notes_from self.old.place
            (kept (record { number = number; text = text.now }) rest)) }
    {
        if text.is_empty() {
            Ok(())
        } else if is_bracketed(text) {
            self.read_header(alloc, number, text)
        } else {
            self.read_entry(alloc, number, text)
        }
    }

    // Reads a line that begins with a bracket.
    fn read_header(&mut self, alloc: Global, number: usize, text: &[u8]) -> Result<(), AllocError>
        ensures items { OnOk result (self.new.sections.items ≡ self.old.sections.items) }
        ensures notes { OnOk result
            (self.new.sections.notes ≡ self.old.sections.notes ++ header_notes
            (record { number = number; text = text.now })) }
        ensures place { OnOk result (self.new.place ≡ place_following text.now) }
    {
        match header_name(text) {
            Some(name) => {
                self.place = Place::Inside(Bytes::from_slice(alloc, name)?);
            }
            None => {
                self.note(number, NoteKind::BadHeader)?;
                self.place = Place::PassedOver;
            }
        }
        Ok(())
    }

    // Reads any other line.
    fn read_entry(&mut self, alloc: Global, number: usize, text: &[u8]) -> Result<(), AllocError>
        ensures items { OnOk result
            (self.new.sections.items ≡ self.old.sections.items ++ items_at self.old.place
            (record { number = number; text = text.now } ∷ [])) }
        ensures notes { OnOk result
            (self.new.sections.notes ≡ self.old.sections.notes ++ notes_at self.old.place
            (record { number = number; text = text.now } ∷ [])) }
        ensures place { OnOk result (self.new.place ≡ self.old.place) }
    {
        let section = match &self.place {
            Place::Outside => return self.note(number, NoteKind::OutsideSection),
            Place::PassedOver => return Ok(()),
            Place::Inside(section) => section,
        };
        let Some((key, value)) = pair_of(text) else {
            return self.note(number, NoteKind::NoEquals);
        };
        let assignment = Assignment {
            section: section.try_clone()?,
            key: Bytes::from_slice(alloc, key)?,
            value: Bytes::from_slice(alloc, value)?,
            line: number,
        };
        self.sections.items.push(assignment)
    }

    fn note(&mut self, line: usize, kind: NoteKind) -> Result<(), AllocError>
        ensures notes { OnOk result (self.new.sections.notes ≡ self.old.sections.notes ++ record
            { line = line; kind = kind } ∷ []) }
        ensures items { OnOk result (self.new.sections.items ≡ self.old.sections.items) }
        ensures place { OnOk result (self.new.place ≡ self.old.place) }
    {
        self.sections.notes.push(Note { line, kind })
    }
}
