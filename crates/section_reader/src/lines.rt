//! The physical lines of a file.
ghost use Rattle.std.specs.{Prelude.{◌≡◌, ◌∷◌, ◌<◌, ◌+◌, [], MatchOption, IfNone, length}, Str.Lines.{lines, strip_carriage_return}};
ghost use Rattle.section_reader.specs.Lines.{without_mark, physical_lines};

use bstr::ByteSlice;
use std::marker::Model;

/// The byte order mark that a UTF-8 file may begin with.
const BYTE_ORDER_MARK: &[u8] = b"\xef\xbb\xbf";

/// A physical line.
#[derive(Clone, Copy, Debug)]
pub(crate) struct Line<'a> {
    /// Its number, from 1.
    pub(crate) number: usize,
    /// Its bytes, without the line end.
    pub(crate) text: &'a [u8],
}

/// The lines of a file that are still to be read.
#[derive(Debug, Drop)]
pub(crate) struct Lines<'a> {
    // The number of lines read so far.
    read: usize,
    rest: &'a [u8],
}

impl<'a> Model for Lines<'a> {
    ghost use Rattle.std.specs.{Prelude.{List, ◌+◌, ◌<◌, ◌^◌, length}, Str.Lines.{lines}};
    ghost use Rattle.section_reader.specs.Lines.{Line, numbered};

    ghost Value = { List Line };

    ghost view = { λ l. numbered (l.read + 1) (lines l.rest.now) };

    ghost invariant = { λ l. l.read + length l.rest.now < 2 ^ 64 };
}

impl<'a> Lines<'a> {
    /// Returns all lines of a file.
    pub(crate) fn of(bytes: &'a [u8]) -> Lines<'a>
        ensures lines { result ≡ physical_lines bytes.now }
    {
        Lines {
            read: 0,
            rest: without_mark(bytes),
        }
    }

    /// Returns the next line.
    pub(crate) fn next_line(&mut self) -> Option<Line<'a>>
        ensures next { MatchOption result (self.old ≡ [])
            (λ line. self.old ≡ record { number = line.number; text = line.text.now } ∷ self.new) }
        ensures end { IfNone result (self.new ≡ []) }
    {
        if self.rest.is_empty() {
            return None;
        }
        let (text, rest) = cut_line(self.rest);
        self.rest = rest;
        self.read += 1;
        Some(Line {
            number: self.read,
            text,
        })
    }
}

fn without_mark(bytes: &[u8]) -> &[u8]
    ensures rest { result.now ≡ without_mark bytes.now }
{
    if bytes.starts_with(BYTE_ORDER_MARK) {
        &bytes[3..]
    } else {
        bytes
    }
}

// Splits off the first line. Its line feed is dropped, and one carriage return directly before that.
fn cut_line(bytes: &[u8]) -> (&[u8], &[u8])
    requires some { 0 < length bytes.now }
    ensures lines { lines bytes.now ≡ result.0.now ∷ lines result.1.now }
    ensures shorter { length result.1.now < length bytes.now }
{
    match bytes.find_byte(b'\n') {
        None => (bytes, &[]),
        Some(end) => (without_return(&bytes[..end]), &bytes[end + 1..]),
    }
}

fn without_return(line: &[u8]) -> &[u8]
    ensures line { result.now ≡ strip_carriage_return line.now }
{
    line.strip_suffix(b"\r").unwrap_or(line)
}
