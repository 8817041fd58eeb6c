//! Pieces as bytes, for any channel that carries bytes: a file, a pipe, a socket, a queue. This is one format; the
//! libraries prescribe none.
//!
//! A message is a sequence of edits. Each has the counter and writer of its version, the kind of its content, and the
//! lengths of the place's text and of the content, each in eight bytes, the most significant first; then the two texts.
use crate::faults::EmbeddingFault;
use delta_pieces::Piece;
use join_law::Version;
use replica_store::{Content, Edit, Entry, Place};
use std::alloc::{AllocError, Global};

const FILE: u64 = 0;

const LINK: u64 = 1;

const GONE: u64 = 2;

/// The message that carries a piece.
pub fn message_of(alloc: Global, piece: &Piece) -> Result<Vec<u8>, AllocError> {
    let mut message = Vec::new(alloc);
    let mut entries = piece.store().entries();
    for _ in 0..piece.len() {
        let Some(placed) = entries.next_entry() else {
            break;
        };
        let mut place = Vec::new(alloc);
        placed.place()?.append_to(&mut place)?;
        append_edit(&mut message, &place, placed.entry())?;
    }
    Ok(message)
}

// Adds an edit at the place of this text.
fn append_edit(message: &mut Vec<u8>, place: &[u8], entry: &Entry) -> Result<(), AllocError> {
    let (sort, bytes): (u64, &[u8]) = match &entry.content {
        Content::File(file) => (FILE, file.bytes()),
        Content::Link(target) => (LINK, target.bytes()),
        Content::Gone => (GONE, &[]),
    };
    let version = entry.version;
    for number in [
        version.counter,
        version.writer as u64,
        sort,
        place.len() as u64,
        bytes.len() as u64,
    ] {
        message.extend_from_slice(&number.to_be_bytes())?;
    }
    message.extend_from_slice(place)?;
    message.extend_from_slice(bytes)
}

/// The piece that a message carries.
pub fn piece_of(alloc: Global, message: &[u8]) -> Result<Piece, EmbeddingFault> {
    let mut rest = Rest { bytes: message };
    let mut edits = Vec::new(alloc);
    for _ in 0..message.len() {
        if rest.bytes.is_empty() {
            break;
        }
        edits.push(rest.edit(alloc)?)?;
    }
    Ok(Piece::from_edits(alloc, &edits)?)
}

// The rest of a message.
#[derive(Drop)]
struct Rest<'a> {
    bytes: &'a [u8],
}

impl<'a> Rest<'a> {
    // The next bytes, `count` of them.
    fn take(&mut self, count: u64) -> Result<&'a [u8], EmbeddingFault> {
        let bytes = self.bytes;
        if count > bytes.len() as u64 {
            return Err(EmbeddingFault::Message);
        }
        let count = count as usize;
        self.bytes = &bytes[count..];
        Ok(&bytes[..count])
    }

    // The next number.
    fn number(&mut self) -> Result<u64, EmbeddingFault> {
        let mut number: u64 = 0;
        for byte in self.take(8)? {
            number = number << 8 | *byte as u64;
        }
        Ok(number)
    }

    // What stands before an edit's texts.
    fn header(&mut self) -> Result<Header, EmbeddingFault> {
        let counter = self.number()?;
        let Ok(writer) = u32::try_from(self.number()?) else {
            return Err(EmbeddingFault::Message);
        };
        Ok(Header {
            version: Version { counter, writer },
            sort: self.number()?,
            place_bytes: self.number()?,
            content_bytes: self.number()?,
        })
    }

    // The next edit.
    fn edit(&mut self, alloc: Global) -> Result<Edit, EmbeddingFault> {
        let header = self.header()?;
        let (place, content) = (
            self.take(header.place_bytes)?,
            self.take(header.content_bytes)?,
        );
        edit_of(alloc, header, place, content)
    }
}

// What stands before an edit's texts: its version, the kind of its content, and their lengths.
#[derive(Clone, Copy)]
struct Header {
    version: Version,
    sort: u64,
    place_bytes: u64,
    content_bytes: u64,
}

// The edit with this header and these texts.
fn edit_of(
    alloc: Global,
    header: Header,
    place: &[u8],
    content: &[u8],
) -> Result<Edit, EmbeddingFault> {
    let place = Place::parse(alloc, place)?;
    Ok(Edit {
        place,
        version: header.version,
        content: content_of(alloc, header.sort, content)?,
    })
}

// The content of this kind.
fn content_of(alloc: Global, sort: u64, bytes: &[u8]) -> Result<Content, EmbeddingFault> {
    match sort {
        FILE => Ok(Content::file(Vec::from_slice(alloc, bytes)?)?),
        LINK => Ok(Content::link(Vec::from_slice(alloc, bytes)?)?),
        GONE => Ok(Content::gone()),
        _ => Err(EmbeddingFault::Message),
    }
}
