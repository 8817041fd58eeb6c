//! The files of a unit.
ghost use Rattle.std.specs.{Prelude.{◌≡◌, ◌++◌, ◌∷◌, [], IfOk, OnOk, map}, Option.{option_copied}};
ghost use Rattle.section_reader.specs.Sections.{assignments_of, notes_of};
ghost use Rattle.unit_loads.specs.{Steps.{borrowed_items, borrowed_notes, items_with}, Units.{file_bytes, file_notes, files_with, items_of}};

use crate::units::UnitNote;
use plain_values::Items;
use replica_store::{Content, HostView, HostViewEntry, Place};
use section_reader::{Assignment, Note, Sections, read};
use std::alloc::{AllocError, Global};

/// The contents of a unit's files.
#[derive(Drop)]
pub(crate) struct UnitText {
    /// The assignments, file by file.
    pub items: Items<Assignment>,
    /// The notes on lines, file by file.
    pub notes: Items<UnitNote>,
}

impl UnitText {
    fn new(alloc: Global) -> UnitText
        ensures items { result.items ≡ [] }
        ensures notes { result.notes ≡ [] }
    {
        UnitText {
            items: Items::new(alloc),
            notes: Items::new(alloc),
        }
    }

    /// Reads a unit's files: its fragment, if it has one, and then its drop-ins. Linear in their bytes, and a search in
    /// the store for the fragment. Fails only if memory runs out.
    pub fn of(
        alloc: Global,
        view: &HostView,
        fragment: Option<&Place>,
        dropins: &[HostViewEntry],
    ) -> Result<UnitText, AllocError>
        ensures items { IfOk result
            (λ text. text.items ≡ items_with view.now (option_copied fragment.entry) dropins.now) }
        ensures notes { IfOk result
            (λ text. text.notes ≡ file_notes view.now (files_with (option_copied fragment.entry) [])
            ++ borrowed_notes view.now dropins.now) }
    {
        let mut text = UnitText::of_fragment(alloc, view, fragment)?;
        for placed in dropins {
            text.add_drop_in(alloc, view, placed)?;
        }
        Ok(text)
    }

    // Reads a fragment, if there is one.
    fn of_fragment(
        alloc: Global,
        view: &HostView,
        fragment: Option<&Place>,
    ) -> Result<UnitText, AllocError>
        ensures items { IfOk result
            (λ text. text.items
            ≡ items_of view.now (files_with (option_copied fragment.entry) [])) }
        ensures notes { IfOk result
            (λ text. text.notes
            ≡ file_notes view.now (files_with (option_copied fragment.entry) [])) }
    {
        let mut text = UnitText::new(alloc);
        if let Some(place) = fragment {
            text.add_file(alloc, place, bytes_of(view.visible(place)))?;
        }
        Ok(text)
    }

    // Adds the assignments and notes of a drop-in.
    fn add_drop_in(
        &mut self,
        alloc: Global,
        view: &HostView,
        placed: &HostViewEntry,
    ) -> Result<(), AllocError>
        ensures items { OnOk result
            (self.new.items ≡ self.old.items ++ borrowed_items (placed.now ∷ [])) }
        ensures notes { OnOk result
            (self.new.notes ≡ self.old.notes ++ borrowed_notes view.now (placed.now ∷ [])) }
    {
        self.add_file(alloc, &view.place(placed)?, bytes_of(placed.visible()))
    }

    // Adds the assignments and notes of the file at a place, which has these bytes.
    fn add_file(&mut self, alloc: Global, place: &Place, bytes: &[u8]) -> Result<(), AllocError>
        ensures items { OnOk result (self.new.items ≡ self.old.items ++ assignments_of bytes.now) }
        ensures notes { OnOk result
            (self.new.notes
            ≡ self.old.notes ++ map (UnitNote.File place.now) (notes_of bytes.now)) }
    {
        let Sections { items, notes } = read(alloc, bytes)?;
        self.items.append(items)?;
        add_line_notes(&mut self.notes, place, notes.as_slice())
    }
}

// Adds the notes on the lines of the file at a place.
fn add_line_notes(
    notes: &mut Items<UnitNote>,
    place: &Place,
    lines: &[Note],
) -> Result<(), AllocError>
    ensures added { OnOk result (notes.new ≡ notes.old ++ map (UnitNote.File place.now) lines.now) }
{
    for line in lines {
        notes.push(UnitNote::File(place.try_clone()?, *line))?;
    }
    Ok(())
}

// The bytes of a content that is a file; empty for any other content.
fn bytes_of<'a>(content: Option<&'a Content>) -> &'a [u8]
    ensures bytes { result.now ≡ file_bytes (option_copied content.entry) }
{
    match content {
        Some(Content::File(file)) => file.bytes(),
        _ => &[],
    }
}
