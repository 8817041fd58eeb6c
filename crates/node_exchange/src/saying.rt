//! Messages that are said.
ghost use Rattle.std.specs.Prelude.{◌∷◌, [], IsErrOf, OnOk};
ghost use Rattle.std.specs.Io.KnownBytes.{Appends};
ghost use Rattle.exchange_session.specs.Runs.{said_of};
ghost use Rattle.node_exchange.specs.{Streams.{on_stream}, Talks.{Written}};

use crate::faults::ExchangeFault;
use crate::reading::MOST_BYTES;
use exchange_bytes::{Frame, Hello, frame_to_bytes, frames_of};
use exchange_session::Message;
use script_pipes::{Sink, write_all};
use std::alloc::Global;

// Writes a frame behind its length.
fn write_frame<K: Sink>(alloc: Global, sink: &mut K, frame: &Frame) -> Result<(), ExchangeFault>
    ensures other { IsErrOf result ExchangeFault.WriterTaken → ⊥ }
    ensures written { OnOk result
        (Appends (K.contents sink.old) (K.contents sink.new) (on_stream (frame.now ∷ []))) }
{
    let bytes = frame_to_bytes(alloc, frame)?;
    if bytes.len() > MOST_BYTES {
        return Err(ExchangeFault::Length);
    }
    let head = (bytes.len() as u32).to_be_bytes();
    write_all(sink, &head)?;
    write_all(sink, &bytes)?;
    Ok(())
}

// Writes frames.
fn write_frames<K: Sink>(alloc: Global, sink: &mut K, frames: &[Frame]) -> Result<(), ExchangeFault>
    ensures other { IsErrOf result ExchangeFault.WriterTaken → ⊥ }
    ensures written { OnOk result
        (Appends (K.contents sink.old) (K.contents sink.new) (on_stream frames.now)) }
{
    for frame in frames {
        write_frame(alloc, sink, frame)?;
    }
    Ok(())
}

/// Writes the frames of a message, the first with this hello.
pub fn say<K: Sink>(
    alloc: Global,
    sink: &mut K,
    hello: Option<Hello>,
    message: Message,
) -> Result<(), ExchangeFault>
    ensures other { IsErrOf result ExchangeFault.WriterTaken → ⊥ }
    ensures written { OnOk result
        (Written hello (said_of message) (K.contents sink.old) (K.contents sink.new)) }
{
    let frames = frames_of(alloc, hello, message)?;
    write_frames(alloc, sink, &frames)
}
