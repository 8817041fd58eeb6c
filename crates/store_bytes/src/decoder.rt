//! Bytes that come in pieces.
ghost use Rattle.std.specs.Prelude.{[], ◌++◌, ◌≡◌, IfErr, IfOk, OnErr, OnOk};
ghost use Rattle.byte_fields.specs.Reading.{Fails};
ghost use Rattle.store_bytes.specs.{Bytes.{entries_in, versions_in}, Streams.{entries_to_come, versions_to_come}};

use crate::entry_reader::EntryReader;
use crate::version_reader::VersionReader;
use byte_fields::DecodeFault;
use std::alloc::{AllocError, Global};
use std::marker::Model;

/// The bytes of a store, a piece or a digest, taken as they come, in pieces of any lengths. Contracts see it as all bytes
/// so far, so that it doesn't matter how they were cut into pieces.
///
/// The checksum stands at the end and covers all, so nothing is read before all bytes came: then `store`, `piece` or
/// `digest` gives a reader, which reads one by one. What is kept is the bytes, and at most as much again in reserve.
pub struct Decoder {
    bytes: Vec<u8>,
}

impl Drop for Decoder {
    fn drop(self) {
        let Decoder { bytes: _ } = self;
    }
}

impl Model for Decoder {
    ghost use Rattle.std.specs.Prelude.{List, ℕ};

    ghost Value = { List ℕ };

    ghost view = { λ d. d.bytes.items };
}

impl Decoder {
    /// Returns a decoder that has no bytes yet. Allocates nothing.
    pub fn new(alloc: Global) -> Decoder
        ensures empty { result ≡ [] }
    {
        Decoder {
            bytes: Vec::new(alloc),
        }
    }

    /// Takes the next bytes. Linear in them, but for moves of what came before, each into twice the room. If memory
    /// runs out, nothing has changed.
    pub fn feed(&mut self, piece: &[u8]) -> Result<(), AllocError>
        ensures fed { OnOk result (self.new ≡ self.old ++ piece.now) }
        ensures err { OnErr result (self.new ≡ self.old) }
    {
        self.bytes.extend_from_slice(piece)
    }

    /// Begins to read all bytes so far as a store. Fails with the first fault in the head, the checksum or the number of
    /// scopes. Allocates nothing.
    pub fn store(&self) -> Result<EntryReader<'_>, DecodeFault>
        ensures all { IfOk result (λ reader. entries_to_come reader ≡ entries_in 1 self.now) }
        ensures fault { IfErr result (λ e. Fails e (entries_in 1 self.now)) }
    {
        EntryReader::open(*self.bytes.allocator(), 1, &self.bytes)
    }

    /// Begins to read all bytes so far as a piece. Fails with the first fault in the head, the checksum or the number of
    /// scopes. Allocates nothing.
    pub fn piece(&self) -> Result<EntryReader<'_>, DecodeFault>
        ensures all { IfOk result (λ reader. entries_to_come reader ≡ entries_in 2 self.now) }
        ensures fault { IfErr result (λ e. Fails e (entries_in 2 self.now)) }
    {
        EntryReader::open(*self.bytes.allocator(), 2, &self.bytes)
    }

    /// Begins to read all bytes so far as a digest. Fails with the first fault in the head, the checksum or the number of
    /// versions. Allocates nothing.
    pub fn digest(&self) -> Result<VersionReader<'_>, DecodeFault>
        ensures all { IfOk result (λ reader. versions_to_come reader ≡ versions_in self.now) }
        ensures fault { IfErr result (λ e. Fails e (versions_in self.now)) }
    {
        VersionReader::open(*self.bytes.allocator(), &self.bytes)
    }
}
