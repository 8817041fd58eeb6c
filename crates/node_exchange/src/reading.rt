//! Frames that are read.
ghost use Rattle.std.specs.Prelude.{◌≡◌, ◌≤◌, ◌∷◌, [], IfOk, IsErrOf, length, None};
ghost use Rattle.std.specs.Int.{to_be_bytes, w32};
ghost use Rattle.std.specs.Io.KnownBytes.{Consumes};
ghost use Rattle.node_exchange.specs.Streams.{on_stream};

use crate::faults::ExchangeFault;
use byte_fields::SpellingFault;
use exchange_bytes::{Frame, frame_from_bytes};
use script_pipes::Source;
use std::alloc::Global;
use std::io::ErrorKind;

/// The most bytes of a frame: a megabyte, 2^20.
pub const MOST_BYTES: usize = 1_048_576;

// The most bytes requested from one read.
const CHUNK: usize = 65_536;

// The most calls of `read` for a frame, interrupted ones included.
const MOST_READS: u32 = 4_000_000;

// Reads some bytes, at most so many; none if the read was interrupted.
fn read_some<S: Source>(
    alloc: Global,
    source: &mut S,
    most: usize,
) -> Result<Vec<u8>, ExchangeFault>
    ensures within { IfOk result (λ bytes. length bytes.items ≤ most) }
    ensures other { IsErrOf result ExchangeFault.WriterTaken → ⊥ }
    ensures read { IfOk result
        (λ bytes. Consumes (S.remaining source.old) (S.remaining source.new) bytes.items) }
{
    let mut bytes = vec![in alloc; 0; most]?;
    let count = match source.read(&mut bytes) {
        Ok(0) => return Err(ExchangeFault::Bytes(SpellingFault::Truncated)),
        Ok(count) => count,
        Err(e) if e.kind() == ErrorKind::Interrupted => 0,
        Err(_) => return Err(ExchangeFault::Read),
    };
    bytes.truncate(count);
    Ok(bytes)
}

// Reads so many bytes. An interrupted read is tried again.
fn read_bytes<S: Source>(
    alloc: Global,
    source: &mut S,
    len: usize,
) -> Result<Vec<u8>, ExchangeFault>
    ensures len { IfOk result (λ bytes. length bytes.items ≡ len) }
    ensures other { IsErrOf result ExchangeFault.WriterTaken → ⊥ }
    ensures read { IfOk result
        (λ bytes. Consumes (S.remaining source.old) (S.remaining source.new) bytes.items) }
{
    let mut bytes = Vec::new(alloc);
    for _turn in 0..MOST_READS {
        let lacking = len - bytes.len();
        if lacking == 0 {
            return Ok(bytes);
        }
        let mut more = read_some(alloc, source, lacking.min(CHUNK))?;
        bytes.append(&mut more)?;
    }
    Err(ExchangeFault::Read)
}

// The length of the frame that comes next.
fn read_length<S: Source>(alloc: Global, source: &mut S) -> Result<usize, ExchangeFault>
    ensures within { IfOk result (λ len. len ≤ MOST_BYTES) }
    ensures other { IsErrOf result ExchangeFault.WriterTaken → ⊥ }
    ensures read { IfOk result
        (λ len. Consumes (S.remaining source.old) (S.remaining source.new) (to_be_bytes w32 len)) }
{
    let head = read_bytes(alloc, source, 4)?;
    let len = u32::from_be_bytes([head[0], head[1], head[2], head[3]]) as usize;
    if len > MOST_BYTES {
        return Err(ExchangeFault::Length);
    }
    Ok(len)
}

/// Reads the next frame, behind its length.
pub fn read_frame<S: Source>(alloc: Global, source: &mut S) -> Result<Frame, ExchangeFault>
    ensures other { IsErrOf result ExchangeFault.WriterTaken → ⊥ }
    ensures read { IfOk result
        (λ frame. Consumes (S.remaining source.old) (S.remaining source.new)
        (on_stream (frame ∷ []))) }
{
    let len = read_length(alloc, source)?;
    let bytes = read_bytes(alloc, source, len)?;
    Ok(frame_from_bytes(alloc, &bytes)?)
}

/// Reads the next frame of a message that has begun: one that says again who the peer is is refused with `Hello`.
pub fn read_next<S: Source>(alloc: Global, source: &mut S) -> Result<Frame, ExchangeFault>
    ensures other { IsErrOf result ExchangeFault.WriterTaken → ⊥ }
    ensures read { IfOk result
        (λ frame. Consumes (S.remaining source.old) (S.remaining source.new)
        (on_stream (frame ∷ []))) }
    ensures unnamed { IfOk result (λ frame. frame.hello ≡ None) }
{
    let frame = read_frame(alloc, source)?;
    if frame.hello.is_some() {
        return Err(ExchangeFault::Hello);
    }
    Ok(frame)
}
