//! Paths and places, written in full.
use load_path::Path;
use replica_store::Place;
use std::alloc::Global;
use worked_lines::{Answer, LineFault, text_of};

/// A value that a text writes in full.
pub trait Written: Sized + Drop {
    /// Returns the value that this text writes.
    fn read(alloc: Global, text: &[u8]) -> Result<Self, LineFault>;

    /// Writes its text.
    fn write_to(&self, out: &mut Answer);
}

impl Written for Path {
    fn read(alloc: Global, text: &[u8]) -> Result<Path, LineFault> {
        Ok(Path::parse(alloc, text)?)
    }

    fn write_to(&self, out: &mut Answer) {
        out.path_in_full(self);
    }
}

impl Written for Place {
    fn read(alloc: Global, text: &[u8]) -> Result<Place, LineFault> {
        Ok(Place::parse(alloc, text)?)
    }

    fn write_to(&self, out: &mut Answer) {
        out.place_in_full(self);
    }
}

/// Returns the value that a word spells in full.
pub fn full_of<T: Written>(alloc: Global, word: &[u8]) -> Result<T, LineFault> {
    T::read(alloc, &text_of(alloc, word)?)
}

/// Writes a value's text in full, after `> `.
pub fn append_text<T: Written>(out: &mut Answer, it: &T) {
    out.write(b"> ");
    it.write_to(out);
}
