//! Digests and pieces that are read.
ghost use Rattle.std.specs.Prelude.{◌≡◌, ◌⊎◌, Err, IfErr, IfOk, IsErrOf, List, vec_len, ℕ};
ghost use Rattle.script_pipes.specs.{Failures.{FailedSince}, KnownBytes.{AreAll, IsOver}};
ghost use Rattle.byte_fields.specs.declared.faults.SpellingFault.{SpellingFault};
ghost use Rattle.store_bytes.specs.Bytes.{digest_spelling, entries_in, HasSpelling, HasVersionSpelling, spelling_of, versions_in};
ghost use Rattle.node_commands.specs.declared.faults.CommandFault.TheVariants.{Bytes, Memory, Read};
ghost use Rattle.node_commands.specs.Faults.{IsReadFault};

use crate::faults::CommandFault;
use delta_pieces::{Digest, Piece};
use script_pipes::Source;
use std::alloc::{AllocError, Global};
use std::io::ErrorKind;
use store_bytes::{digest_from_bytes, piece_from_bytes};

/// The most bytes of a digest or a piece that is read: 1 GiB.
pub const MAX_INPUT_BYTES: usize = 1_073_741_824;

/// The most calls of `read` for it, interrupted ones included.
const MAX_INPUT_READS: u32 = 1_100_000_000;

/// The most bytes that are asked of one read.
const CHUNK: usize = 65_536;

// A buffer for one read.
fn make_chunk(alloc: Global) -> Result<Vec<u8>, AllocError>
    ensures room { IfOk result (λ chunk. vec_len chunk ≡ CHUNK) }
{
    vec![in alloc; 0; CHUNK]
}

// All bytes that are left to read. An interrupted read is tried again.
fn read_input<S: Source>(alloc: Global, source: &mut S) -> Result<Vec<u8>, CommandFault>
    ensures all { IfOk result (λ bytes. AreAll (S.remaining source.old) bytes.items) }
    ensures faults { IfErr result (λ fault. (fault ≡ Memory) ⊎ (fault ≡ Read)) }
    // A read failed, or there are too many bytes: more reads than bytes are allowed, and each that doesn't fail returns some.
    ensures read { IsErrOf result Read → FailedSince (S.failures source.old) (S.failures source.new)
        ⊎ IsOver MAX_INPUT_BYTES (S.remaining source.old) }
{
    let mut chunk = make_chunk(alloc)?;
    let chunk = chunk.as_mut_slice();
    let mut input = Vec::new(alloc);
    for _turn in 0..MAX_INPUT_READS {
        match source.read(chunk) {
            Ok(0) => return Ok(input),
            Ok(n) if n > MAX_INPUT_BYTES - input.len() => return Err(CommandFault::Read),
            Ok(n) => input.extend_from_slice(&chunk[..n])?,
            Err(e) if e.kind() == ErrorKind::Interrupted => {}
            Err(_) => return Err(CommandFault::Read),
        }
    }
    Err(CommandFault::Read)
}

/// Reads a digest, whose bytes are all that is left to read: at most 1 GiB.
///
/// Fails with `Read` if a read fails or there is more, with `Bytes` of the first fault if the bytes are no digest's, and with
/// `Memory`.
pub fn read_digest<S: Source>(alloc: Global, source: &mut S) -> Result<Digest, CommandFault>
    ensures spelled { IfOk result HasVersionSpelling }
    ensures all { IfOk result (λ digest. AreAll (S.remaining source.old) (digest_spelling digest)) }
    ensures faults { IfErr result IsReadFault }
    ensures bytes { (fault : SpellingFault) → IsErrOf result (Bytes fault) →
        (bytes : List ℕ) × AreAll (S.remaining source.old) bytes × (versions_in bytes ≡ Err fault) }
    ensures read { IsErrOf result Read → FailedSince (S.failures source.old) (S.failures source.new)
        ⊎ IsOver MAX_INPUT_BYTES (S.remaining source.old) }
{
    let bytes = read_input(alloc, source)?;
    match digest_from_bytes(alloc, &bytes) {
        Ok(digest) => Ok(digest),
        Err(fault) => Err(CommandFault::from(fault)),
    }
}

/// Reads a piece, whose bytes are all that is left to read: at most 1 GiB. The faults are those of `read_digest`.
pub fn read_piece<S: Source>(alloc: Global, source: &mut S) -> Result<Piece, CommandFault>
    ensures spelled { IfOk result HasSpelling }
    ensures all { IfOk result (λ piece. AreAll (S.remaining source.old) (spelling_of 2 piece)) }
    ensures faults { IfErr result IsReadFault }
    ensures bytes { (fault : SpellingFault) → IsErrOf result (Bytes fault) → (bytes : List ℕ)
        × AreAll (S.remaining source.old) bytes × (entries_in 2 bytes ≡ Err fault) }
    ensures read { IsErrOf result Read → FailedSince (S.failures source.old) (S.failures source.new)
        ⊎ IsOver MAX_INPUT_BYTES (S.remaining source.old) }
{
    let bytes = read_input(alloc, source)?;
    match piece_from_bytes(alloc, &bytes) {
        Ok(piece) => Ok(piece),
        Err(fault) => Err(CommandFault::from(fault)),
    }
}
