//! Messages.
ghost use Rattle.std.specs.Prelude.{◌≡◌, ◌↔◌, [], true};

use delta_pieces::{Digest, Piece};
use range_prints::Range;

/// What a replica tells of a range: the print of its versions there.
#[derive(Debug)]
pub struct RangePrint {
    pub range: Range,
    pub print: u64,
}

impl Drop for RangePrint {
    fn drop(self) {
        let RangePrint { range: _, print: _ } = self;
    }
}

impl RangePrint {
    /// Returns the range alone.
    pub fn into_range(self) -> Range
        ensures range { result ≡ self.range }
    {
        let RangePrint { range, print: _ } = self;
        range
    }
}

/// What a replica asks for in a range: what is newer there than its own versions, of which it tells all.
#[derive(Debug)]
pub struct RangeAsk {
    pub range: Range,
    pub versions: Digest,
}

impl Drop for RangeAsk {
    fn drop(self) {
        let RangeAsk {
            range: _,
            versions: _,
        } = self;
    }
}

impl RangeAsk {
    /// Returns the range alone.
    pub fn into_range(self) -> Range
        ensures range { result ≡ self.range }
    {
        let RangeAsk { range, versions: _ } = self;
        range
    }
}

/// What one side says in its turn. Pieces are taken first, and the rest is answered by what is held then.
#[derive(Debug)]
pub struct Message {
    pub prints: Vec<RangePrint>,
    pub asks: Vec<RangeAsk>,
    pub pieces: Vec<Piece>,
}

impl Drop for Message {
    fn drop(self) {
        let Message {
            prints: _,
            asks: _,
            pieces: _,
        } = self;
    }
}

impl Message {
    /// Returns whether it asks for no answer: it has no prints and no asks.
    pub fn is_quiet(&self) -> bool
        ensures quiet { (result ≡ true)
            ↔ ((self.now.prints.items ≡ []) × (self.now.asks.items ≡ [])) }
    {
        self.prints.is_empty() && self.asks.is_empty()
    }

    /// Returns its pieces alone.
    pub fn into_pieces(self) -> Vec<Piece>
        ensures pieces { result ≡ self.pieces }
    {
        let Message {
            prints: _,
            asks: _,
            pieces,
        } = self;
        pieces
    }

    /// Takes the message apart.
    pub fn into_parts(self) -> (Vec<RangePrint>, Vec<RangeAsk>, Vec<Piece>)
        ensures prints { result.0 ≡ self.prints }
        ensures asks { result.1 ≡ self.asks }
        ensures pieces { result.2 ≡ self.pieces }
    {
        let Message {
            prints,
            asks,
            pieces,
        } = self;
        (prints, asks, pieces)
    }
}
