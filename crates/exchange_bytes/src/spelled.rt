//! Frames as bytes.
ghost use Rattle.std.specs.Prelude.{◌≡◌, IfOk, Ok};
ghost use Rattle.byte_fields.specs.Reading.{Gives};
ghost use Rattle.exchange_bytes.specs.{Frames.{FrameParts, parts_of}, Reading.{frame_in}, Spelling.{frame_spelling, HasFrameSpelling}};

use crate::frames::Frame;
use crate::reading::fields_of;
use crate::writing::put_fields;
use byte_fields::{DecodeFault, SpellingFault};
use std::alloc::{AllocError, Global};
use store_bytes::{head_of, open, put_sum};

/// Returns the bytes of a frame: its one spelling, which any frame that is the same has too. Linear. Fails only if memory
/// runs out.
pub fn frame_to_bytes(alloc: Global, frame: &Frame) -> Result<Vec<u8>, AllocError>
    ensures bytes { IfOk result (λ bytes. bytes.items ≡ frame_spelling (parts_of frame.now)) }
    ensures spelled { IfOk result (λ _. HasFrameSpelling (parts_of frame.now)) }
{
    let mut out = head_of(alloc, 4)?;
    put_fields(&mut out, frame)?;
    put_sum(&mut out)?;
    Ok(out)
}

/// Returns the frame whose bytes these are. Fails with `Memory` if memory runs out, else with the first fault that is met
/// from the start, where the checksum is tested before what it covers; trailing bytes are a fault too. O(n log n).
pub fn frame_from_bytes(alloc: Global, bytes: &[u8]) -> Result<Frame, DecodeFault>
    // The bytes are the spelling of the frame, each byte of it.
    ensures found { IfOk result (λ frame. HasFrameSpelling (parts_of frame)
        × (bytes.now ≡ frame_spelling (parts_of frame))) }
    // The spelling of a frame is read as that frame, unless memory runs out.
    ensures only { (f : FrameParts) → HasFrameSpelling f → bytes.now ≡ frame_spelling f
        → Gives (λ frame. parts_of frame) result (Ok f) }
    // Which fault it is.
    ensures exact { Gives (λ frame. parts_of frame) result (frame_in bytes.now) }
{
    read_frame(alloc, bytes)
}

// Returns the frame that bytes spell.
#[tactic(auto, unfolding(crate::specs::Reading::frame_in))]
fn read_frame(alloc: Global, bytes: &[u8]) -> Result<Frame, DecodeFault>
    ensures exact { Gives (λ frame. parts_of frame) result (frame_in bytes.now) }
{
    let inner = open(4, bytes)?;
    let (frame, rest) = fields_of(alloc, inner)?;
    if !rest.is_empty() {
        return Err(DecodeFault::Fault(SpellingFault::Trailing));
    }
    Ok(frame)
}
