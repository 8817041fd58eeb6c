//! Assignments and notes: what `read` returns for single lines.
ghost use Rattle.std.specs.Prelude.{◌≡◌};
ghost use Rattle.section_reader.specs.Words.{code_of};

use plain_values::{Bytes, TryClone};
use std::alloc::AllocError;
use std::fmt;

/// An assignment in a section (systemd.syntax(7), "Introduction").
#[derive(Debug, PartialEq, Eq)]
pub struct Assignment {
    /// The name of the section. All assignments of a section share its bytes.
    pub section: Bytes,
    /// The text before the line's first equals sign, trimmed. It isn't empty.
    pub key: Bytes,
    /// The text after the equals sign, trimmed. It may be empty.
    pub value: Bytes,
    /// The line number, from 1; for joined lines, that of the first.
    pub line: usize,
}

impl Drop for Assignment {
    fn drop(self) {
        let Assignment {
            section: _,
            key: _,
            value: _,
            line: _,
        } = self;
    }
}

/// Copies share the bytes of the texts.
impl TryClone for Assignment {
    fn try_clone(&self) -> Result<Assignment, AllocError> {
        Ok(Assignment {
            section: self.section.try_clone()?,
            key: self.key.try_clone()?,
            value: self.value.try_clone()?,
            line: self.line,
        })
    }
}

/// Why a line assigns nothing.
#[derive(Clone, Copy, Debug, PartialEq, Eq)]
pub enum NoteKind {
    /// K1: the line comes before the first header.
    OutsideSection,
    /// K2: the line has no equals sign, or no key before it.
    NoEquals,
    /// K3: the line begins with a bracket but isn't a header. The lines after it, up to the next line that begins with
    /// a bracket, are skipped without a note.
    BadHeader,
}

impl NoteKind {
    /// Returns the code alone: `K1`, `K2` or `K3`.
    pub fn code(self) -> &'static str
        ensures code { result.now ≡ code_of self }
    {
        match self {
            NoteKind::OutsideSection => "K1",
            NoteKind::NoEquals => "K2",
            NoteKind::BadHeader => "K3",
        }
    }
}

/// Prints the code and the name, for example `K1 OutsideSection`.
impl fmt::Display for NoteKind {
    ghost use Rattle.std.specs.Prelude.{Some};
    ghost use Rattle.section_reader.specs.Words.{words_of};

    ghost output = { λ kind. Some (words_of kind) };

    fn fmt<W: fmt::Write>(&self, f: &mut fmt::Formatter<W>) -> fmt::Result {
        f.write_str(match self {
            NoteKind::OutsideSection => "K1 OutsideSection",
            NoteKind::NoEquals => "K2 NoEquals",
            NoteKind::BadHeader => "K3 BadHeader",
        })
    }
}

/// A line that assigns nothing, though it isn't a comment, a blank line or a header.
#[derive(Clone, Copy, Debug, PartialEq, Eq)]
pub struct Note {
    /// The line number, from 1; for joined lines, that of the first.
    pub line: usize,
    /// What is wrong with the line.
    pub kind: NoteKind,
}

impl TryClone for Note {
    fn try_clone(&self) -> Result<Note, AllocError> {
        Ok(*self)
    }
}
