//! Sinks, and writing bytes to one.
ghost use Rattle.std.specs.{Prelude.{◌≡◌, ◌<◌, ◌≤◌, ℕ, true, List, length, take, Option, OnOk, OnErr, IfOk}, Io.{WritesAtMost}};
ghost use Rattle.std.specs.Io.KnownBytes.{Appends, Keeps, WriteAppends};
ghost use Rattle.script_pipes.specs.{Failures.{FailedSince, count_with, is_refusal}, KnownBytes.{AppendsPrefix}};

use std::io;
use thiserror::Error;

/// Where answers are written to: a writer that counts its failures.
pub trait Sink {
    // The bytes that it holds, if they are known.
    ghost contents: { Self → Option (List ℕ) };

    // The number of writes so far that failed or accepted no byte.
    ghost refusals: { Self → ℕ };

    /// Writes a prefix of `buf`, like std's `write`.
    fn write(&mut self, buf: &[u8]) -> io::Result<usize>
        ensures bound { WritesAtMost result buf.now }
        ensures bytes { WriteAppends (contents self.old) (contents self.new) result buf.now }
        ensures counted { refusals self.new ≡ count_with (is_refusal result) (refusals self.old) };
}

/// A write failed or accepted no byte.
#[derive(Clone, Copy, Debug, PartialEq, Eq, Error)]
#[error("a write failed or took no byte")]
pub struct WriteFault;

/// Writes all of the bytes. After a fault the sink has accepted a prefix of them, and the rest isn't tried.
///
/// An interrupted write is a fault too: unlike reads, writes have no limit on the number of retries.
pub fn write_all<K: Sink>(sink: &mut K, bytes: &[u8]) -> Result<(), WriteFault>
    ensures ok { OnOk result (Appends (K.contents sink.old) (K.contents sink.new) bytes.now) }
    ensures unrefused { OnOk result (K.refusals sink.new ≡ K.refusals sink.old) }
    ensures prefix { OnErr result
        (AppendsPrefix (K.contents sink.old) (K.contents sink.new) bytes.now) }
    ensures failed { OnErr result (FailedSince (K.refusals sink.old) (K.refusals sink.new)) }
{
    let mut rest = bytes;
    while !rest.is_empty() {
        let taken = write_some(sink, rest)?;
        rest = &rest[taken..];
    }
    Ok(())
}

// Writes a prefix of the bytes that isn't empty, and returns its length.
fn write_some<K: Sink>(sink: &mut K, bytes: &[u8]) -> Result<usize, WriteFault>
    ensures some { IfOk result (λ n. 0 < n) }
    ensures within { IfOk result (λ n. n ≤ length bytes.now) }
    ensures ok { IfOk result
        (λ n. Appends (K.contents sink.old) (K.contents sink.new) (take n bytes.now)) }
    ensures unrefused { OnOk result (K.refusals sink.new ≡ K.refusals sink.old) }
    ensures err { OnErr result (Keeps (K.contents sink.old) (K.contents sink.new)) }
    ensures failed { OnErr result (K.refusals sink.new ≡ count_with true (K.refusals sink.old)) }
{
    match sink.write(bytes) {
        Ok(0) | Err(_) => Err(WriteFault),
        Ok(n) => Ok(n),
    }
}
