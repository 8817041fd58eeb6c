//! Sources, and reading a script from one.
ghost use Rattle.std.specs.Prelude.{◌≡◌, ◌≤◌, ◌+◌, ◌⊎◌, ℕ, List, Option, true, length, vec_len, is_err, IfOk, OnOk, OnErr, IsErrOf};
ghost use Rattle.std.specs.{Io.{ReadsAtMost}, Io.KnownBytes.{Consumes, IsAtEnd, ReadConsumes}};
ghost use Rattle.script_pipes.specs.{Failures.{FailedSince, count_with}, KnownBytes.{AreAll, ConsumesPrefix, IsOver}};

use std::alloc::{AllocError, Global};
use std::io;
use std::io::ErrorKind;
use thiserror::Error;

/// The most bytes of a script: 16 MiB.
pub const MAX_SCRIPT_BYTES: usize = 16_777_216;

/// The most calls of `read` for a script, interrupted ones included.
pub const MAX_READS: u32 = 20_000_000;

/// The most bytes requested from one read.
const CHUNK: usize = 65_536;

/// Where a script is read from: a reader that counts its reads and their failures.
pub trait Source {
    // The bytes that later reads will return, if they are known.
    ghost remaining: { Self → Option (List ℕ) };

    // The number of reads so far.
    ghost reads: { Self → ℕ };

    // The number of reads that failed.
    ghost failures: { Self → ℕ };

    /// Reads some bytes into the start of `buf`, like std's `read`.
    fn read(&mut self, buf: &mut [u8]) -> io::Result<usize>
        ensures bound { ReadsAtMost result buf.new }
        ensures bytes { ReadConsumes (remaining self.old) (remaining self.new) result buf.new }
        ensures asked { reads self.new ≡ count_with true (reads self.old) }
        ensures counted { failures self.new ≡ count_with (is_err result) (failures self.old) };
}

/// Why a script wasn't read.
#[derive(Clone, Copy, Debug, PartialEq, Eq, Error)]
pub enum ReadFault {
    /// A read failed, or the script exceeds the limit of bytes or of reads.
    #[error("a read failed, or the script passes a limit")]
    Failed,
    /// An allocation failed.
    #[error("out of memory")]
    Memory,
}

/// Returns all remaining bytes of a source.
///
/// Reads at most `MAX_SCRIPT_BYTES` bytes in at most `MAX_READS` reads, and retries an interrupted read. After a fault,
/// the bytes read so far are dropped and the source continues after them.
pub fn read_all<S: Source>(alloc: Global, source: &mut S) -> Result<Vec<u8>, ReadFault>
    ensures all { IfOk result (λ script. AreAll (S.remaining source.old) script.items) }
    ensures limit { IfOk result (λ script. length script.items ≤ MAX_SCRIPT_BYTES) }
    ensures end { OnOk result (IsAtEnd (S.remaining source.new)) }

    // A read failed in this call, or there are too many bytes. Too many reads imply one of these: each read that
    // doesn't fail returns a byte, and more reads than bytes are allowed.
    ensures failed { IsErrOf result ReadFault.Failed
        → FailedSince (S.failures source.old) (S.failures source.new)
        ⊎ IsOver MAX_SCRIPT_BYTES (S.remaining source.old) }
    ensures left { OnErr result (ConsumesPrefix (S.remaining source.old) (S.remaining source.new)) }
    ensures reads { S.reads source.new ≤ S.reads source.old + MAX_READS }
    ensures failures { S.failures source.old ≤ S.failures source.new }
{
    let mut chunk = make_chunk(alloc).map_err(|_| ReadFault::Memory)?;
    let chunk = chunk.as_mut_slice();
    let mut script = Vec::new(alloc);
    for _turn in 0..MAX_READS {
        match source.read(chunk) {
            Ok(0) => return Ok(script),
            Ok(n) if n > MAX_SCRIPT_BYTES - script.len() => return Err(ReadFault::Failed),
            Ok(n) => script
                .extend_from_slice(&chunk[..n])
                .map_err(|_| ReadFault::Memory)?,
            Err(e) if e.kind() == ErrorKind::Interrupted => {}
            Err(_) => return Err(ReadFault::Failed),
        }
    }
    Err(ReadFault::Failed)
}

// Returns a buffer for one read.
fn make_chunk(alloc: Global) -> Result<Vec<u8>, AllocError>
    ensures room { IfOk result (λ chunk. vec_len chunk ≡ CHUNK) }
{
    vec![in alloc; 0; CHUNK]
}
