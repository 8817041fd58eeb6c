//! The answer to a call.
use crate::faults::LineFault;
use load_path::Path;
use replica_store::{Place, Scope};
use std::alloc::{AllocError, Global};
use std::fmt::Display;
use unit_name::UnitName;

/// The answer to a call, as far as it is written. It remembers whether memory ran out, so that its calls return nothing.
pub struct Answer {
    /// The allocator of its memory.
    pub alloc: Global,
    bytes: Vec<u8>,
    is_cut_off: bool,
}

impl Drop for Answer {
    fn drop(self) {
        let Answer {
            alloc: _,
            bytes: _,
            is_cut_off: _,
        } = self;
    }
}

impl Answer {
    /// Returns an empty answer.
    pub fn new(alloc: Global) -> Self {
        Answer {
            alloc,
            bytes: Vec::new(alloc),
            is_cut_off: false,
        }
    }

    /// Whether nothing is written yet.
    pub fn is_empty(&self) -> bool {
        self.bytes.is_empty()
    }

    /// Returns the answer, unless memory ran out while it was written.
    pub fn finish(self) -> Result<Vec<u8>, LineFault> {
        let Answer {
            alloc: _,
            bytes,
            is_cut_off,
        } = self;
        if is_cut_off {
            return Err(LineFault::Memory);
        }
        Ok(bytes)
    }

    /// Writes bytes as they are.
    pub fn write(&mut self, bytes: &[u8]) {
        self.is_cut_off |= self.bytes.extend_from_slice(bytes).is_err();
    }

    /// Writes a value as it is displayed.
    pub fn print<T: Display>(&mut self, value: &T) {
        match format!(in self.alloc; "{value}") {
            Ok(text) => self.write(text.as_bytes()),
            Err(_) => self.is_cut_off = true,
        }
    }

    /// Writes a text, unless memory ran out for it.
    pub fn write_made(&mut self, text: Result<String, AllocError>) {
        match text {
            Ok(text) => self.write(text.as_bytes()),
            Err(_) => self.is_cut_off = true,
        }
    }

    /// Writes what another answer has so far.
    pub fn append(&mut self, other: &Answer) {
        self.is_cut_off |= other.is_cut_off;
        self.write(&other.bytes);
    }

    /// Writes `so` if `is_so`, and `other` otherwise.
    pub fn either(&mut self, is_so: bool, so: &[u8], other: &[u8]) {
        self.write(if is_so { so } else { other });
    }

    /// Writes a separator, unless nothing is written yet.
    pub fn part(&mut self, between: &[u8]) {
        let is_empty = self.is_empty();
        self.either(is_empty, b"", between);
    }

    /// Writes bytes on a line of their own, below what is written already.
    pub fn line(&mut self, bytes: &[u8]) {
        self.part(b"\n  ");
        self.write(bytes);
    }

    /// Writes a text on a line of its own, unless memory ran out for it.
    pub fn line_made(&mut self, text: Result<String, AllocError>) {
        self.part(b"\n  ");
        self.write_made(text);
    }

    /// Writes names, each after a space.
    pub fn names(&mut self, names: &[UnitName]) {
        for name in names {
            self.write(b" ");
            self.write(name.bytes());
        }
    }

    /// Writes a word if nothing is written yet.
    pub fn or(&mut self, word: &[u8]) {
        let is_empty = self.is_empty();
        self.either(is_empty, word, b"");
    }

    /// Writes bytes in the spelling of texts: a newline as `\n`, a tab as `\t`, a backslash as `\\`, a space and what
    /// isn't printable as `\xHH`, and the empty text as `''`.
    pub fn spell(&mut self, bytes: &[u8]) {
        if bytes.is_empty() {
            self.write(b"''");
        }
        for byte in bytes {
            self.spell_byte(*byte);
        }
    }

    // Writes one byte in the spelling of texts.
    fn spell_byte(&mut self, byte: u8) {
        match byte {
            b'\n' => self.write(b"\\n"),
            b'\t' => self.write(b"\\t"),
            b'\\' => self.write(b"\\\\"),
            0x21..=0x7e => self.write(&[byte]),
            _ => self.write_made(format!(in self.alloc; "\\x{byte:02x}")),
        }
    }

    /// Writes texts in their spelling, each after its mark.
    pub fn spell_quoted(&mut self, texts: &[(u8, &[u8])]) {
        for text in texts {
            self.write(&[text.0]);
            self.spell(text.1);
        }
    }

    /// Writes a text in its spelling, or `none`.
    pub fn spell_found(&mut self, text: Option<&[u8]>) {
        match text {
            Some(text) => self.spell(text),
            None => self.write(b"none"),
        }
    }

    /// Writes a name in its spelling, or `none`.
    pub fn spell_name(&mut self, name: Option<&UnitName>) {
        match name {
            Some(name) => self.spell(name.bytes()),
            None => self.write(b"none"),
        }
    }

    /// Writes a place: its path, after its host and a colon if it has a host.
    pub fn write_place(&mut self, place: &Place) {
        if let Scope::Host(host) = &place.scope {
            self.write(host.bytes());
            self.write(b":");
        }
        self.write_path(&place.path);
    }

    /// Writes a path, with its directory as `E`, `R`, `L` or `U`.
    pub fn write_path(&mut self, path: &Path) {
        self.write(match path.rank() {
            0 => b"E/",
            1 => b"R/",
            2 => b"L/",
            _ => b"U/",
        });
        if !path.folder().is_empty() {
            self.write(path.folder());
            self.write(b"/");
        }
        self.write(path.name());
    }

    /// Writes a place with its directory in full.
    pub fn place_in_full(&mut self, place: &Place) {
        self.is_cut_off |= place.append_to(&mut self.bytes).is_err();
    }

    /// Writes a path with its directory in full.
    pub fn path_in_full(&mut self, path: &Path) {
        self.is_cut_off |= path.append_to(&mut self.bytes).is_err();
    }
}
