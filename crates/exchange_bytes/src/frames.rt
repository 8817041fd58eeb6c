//! Frames, and what stands in the first.
ghost use Rattle.std.specs.Prelude.{◌≡◌};

use crate::peers::Peers;
use delta_pieces::Piece;
use exchange_session::{RangeAsk, RangePrint};

/// What each side says of itself in its first frame.
#[derive(Debug)]
pub struct Hello {
    /// The number under which its node writes.
    pub writer: u32,
    /// Random bytes, which tell its file from each other one.
    pub mark: [u8; 16],
    /// What its prints are made with.
    pub seed: u64,
    /// The nodes that it has met.
    pub peers: Peers,
}

impl Drop for Hello {
    fn drop(self) {
        let Hello {
            writer: _,
            mark: _,
            seed: _,
            peers: _,
        } = self;
    }
}

/// A part of a message. A message is a list of frames, of which each but the last says that more come.
#[derive(Debug)]
pub struct Frame {
    /// Stands in the first frame alone.
    pub hello: Option<Hello>,
    /// What is told of ranges.
    pub prints: Vec<RangePrint>,
    /// What is asked for.
    pub asks: Vec<RangeAsk>,
    /// The entries that are sent, of whichever asks.
    pub piece: Piece,
    /// Whether more frames of the message come.
    pub more: bool,
}

impl Drop for Frame {
    fn drop(self) {
        let Frame {
            hello: _,
            prints: _,
            asks: _,
            piece: _,
            more: _,
        } = self;
    }
}

impl Frame {
    /// Takes the frame apart: all but whether more come.
    pub fn into_parts(self) -> (Option<Hello>, Vec<RangePrint>, Vec<RangeAsk>, Piece)
        ensures hello { result.0 ≡ self.hello }
        ensures prints { result.1 ≡ self.prints }
        ensures asks { result.2 ≡ self.asks }
        ensures piece { result.3 ≡ self.piece }
    {
        let Frame {
            hello,
            prints,
            asks,
            piece,
            more: _,
        } = self;
        (hello, prints, asks, piece)
    }
}
