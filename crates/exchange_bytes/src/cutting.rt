//! Messages, cut into frames.
ghost use Rattle.std.specs.FinMap as finmap;
ghost use Rattle.std.specs.{Prelude.{◌++◌, ◌∷◌, ◌≡◌, ◌≤◌, [], All, IfOk, length, suc}};
ghost use Rattle.edit_sums.specs.{Contents.{bytes_of}, declared.entries.Edit.{Edit}, Sums.{EntryMap, sum_of}};
ghost use Rattle.exchange_session.specs.Joined.{joined};
ghost use Rattle.exchange_bytes.specs.Cutting.{all_asks, all_pieces, all_prints, AreBefore, AreFrames, ask_weight, asks_in, content_weight, frame_limit, GrowsBy, HasRoom, IsHeavier, IsOpen, IsSmall, message_weight, piece_weight, pieces_in, print_weight, prints_in, SaysAlso, total};

use crate::frames::{Frame, Hello};
use delta_pieces::Piece;
use edit_sums::{Content, Edit};
use exchange_session::{Message, RangeAsk, RangePrint};
use path_maps::Store;
use std::alloc::{AllocError, Global};

/// At most how many bytes the parts of a message take in a frame.
pub const FRAME_LIMIT: usize = 900_000;

// Frames that are full, each of which says that more come, and what the next one has so far.
struct Packing {
    alloc: Global,
    frames: Vec<Frame>,
    hello: Option<Hello>,
    prints: Vec<RangePrint>,
    asks: Vec<RangeAsk>,
    store: Store,
    // At most how many bytes the next frame's parts take.
    weight: usize,
}

impl Drop for Packing {
    fn drop(self) {
        let Packing {
            alloc: _,
            frames: _,
            hello: _,
            prints: _,
            asks: _,
            store: _,
            weight: _,
        } = self;
    }
}

/// Cuts a message into frames, of which the first has the hello. A message that fits stands in one frame. A frame's parts
/// take at most `FRAME_LIMIT` bytes, but an ask of more than 1,498 versions stands alone in a frame, which may be longer.
/// Entries are copied, and share their bytes. O(n log n). Fails only if memory runs out; then the message is gone.
pub fn frames_of(
    alloc: Global,
    hello: Option<Hello>,
    message: Message,
) -> Result<Vec<Frame>, AllocError>
    ensures prints { IfOk result (λ frames. all_prints frames.items ≡ message.prints.items) }
    ensures asks { IfOk result (λ frames. all_asks frames.items ≡ message.asks.items) }
    // Whoever takes the frames' pieces takes the message's.
    ensures pieces { IfOk result (λ frames. (s : EntryMap)
        → joined s (all_pieces frames.items) ≡ joined s message.pieces.items) }
    ensures frames { IfOk result (λ frames. AreFrames hello frames.items) }
    ensures one { IfOk result
        (λ frames. message_weight message ≤ frame_limit → length frames.items ≡ 1) }
    // Each weighs no more than a frame may; `frames_are_short` says what that is in bytes.
    ensures small { IfOk result (λ frames. All IsSmall frames.items) }
{
    let (prints, asks, pieces) = message.into_parts();
    let packing = Packing::begun(alloc, hello);
    let packing = packing.with_prints(prints)?;
    let packing = packing.with_asks(asks)?;
    let packing = packing.with_pieces(pieces)?;
    let frames = packing.finished()?;
    Ok(frames)
}

impl Packing {
    // Returns a packing that has nothing yet but the hello of the first frame.
    fn begun(alloc: Global, hello: Option<Hello>) -> Packing
        ensures frames { result.frames.items ≡ [] }
        ensures hello { result.hello ≡ hello }
        ensures prints { result.prints.items ≡ [] }
        ensures asks { result.asks.items ≡ [] }
        ensures store { result.store ≡ finmap.empty }
        ensures weight { result.weight ≡ 0 }
    {
        Packing {
            alloc,
            frames: Vec::new(alloc),
            hello,
            prints: Vec::new(alloc),
            asks: Vec::new(alloc),
            store: Store::new(alloc),
            weight: 0,
        }
    }

    // Ends the open frame, and opens another.
    fn closed(self) -> Result<Packing, AllocError>
        ensures says { IfOk result (λ now. SaysAlso self now [] [] finmap.empty) }
        ensures weight { IfOk result (λ now. now.weight ≡ 0) }
        ensures small { IfOk result (λ now. HasRoom self 0 → HasRoom now 0) }
    {
        let Packing {
            alloc,
            mut frames,
            hello,
            prints,
            asks,
            store,
            weight: _,
        } = self;
        frames.push(Frame {
            hello,
            prints,
            asks,
            piece: Piece::from_store(store),
            more: true,
        })?;
        let mut next = Packing::begun(alloc, None);
        next.frames = frames;
        Ok(next)
    }

    // Makes room for what takes at most so many bytes, in the open frame or in another.
    fn with_room(self, weight: usize) -> Result<Packing, AllocError>
        requires small { weight ≤ 900_000 }
        ensures says { IfOk result (λ now. SaysAlso self now [] [] finmap.empty) }
        ensures heavier { IfOk result (λ now. IsHeavier self now weight) }
        ensures room { IfOk result (λ now. HasRoom self 0 → HasRoom now weight) }
    {
        let mut open = if self.weight > FRAME_LIMIT - weight {
            self.closed()?
        } else {
            self
        };
        open.weight += weight;
        Ok(open)
    }

    // Adds a print.
    fn with_print(self, print: RangePrint) -> Result<Packing, AllocError>
        ensures says { IfOk result (λ now. SaysAlso self now (print ∷ []) [] finmap.empty) }
        ensures heavier { IfOk result (λ now. IsHeavier self now (print_weight print)) }
        ensures small { IfOk result (λ now. HasRoom self 0 → HasRoom now 0) }
    {
        let mut open = self.with_room(1_200)?;
        open.prints.push(print)?;
        Ok(open)
    }

    // Adds prints.
    fn with_prints(self, prints: Vec<RangePrint>) -> Result<Packing, AllocError>
        ensures says { IfOk result (λ now. SaysAlso self now prints.items [] finmap.empty) }
        ensures heavier { IfOk result (λ now. GrowsBy self now (total print_weight prints.items)) }
        ensures small { IfOk result (λ now. HasRoom self 0 → HasRoom now 0) }
    {
        let mut open = self;
        for print in prints {
            open = open.with_print(print)?;
        }
        Ok(open)
    }

    // Adds an ask.
    fn with_ask(self, ask: RangeAsk) -> Result<Packing, AllocError>
        ensures says { IfOk result (λ now. SaysAlso self now [] (ask ∷ []) finmap.empty) }
        ensures heavier { IfOk result (λ now. IsHeavier self now (ask_weight ask)) }
        ensures small { IfOk result (λ now. HasRoom self 0 → HasRoom now 0) }
    {
        let weight = 1_200 + 600 * ask.versions.versions().len().min(1_498);
        let mut open = self.with_room(weight)?;
        open.asks.push(ask)?;
        Ok(open)
    }

    // Adds asks.
    fn with_asks(self, asks: Vec<RangeAsk>) -> Result<Packing, AllocError>
        ensures says { IfOk result (λ now. SaysAlso self now [] asks.items finmap.empty) }
        ensures heavier { IfOk result (λ now. GrowsBy self now (total ask_weight asks.items)) }
        ensures small { IfOk result (λ now. HasRoom self 0 → HasRoom now 0) }
    {
        let mut open = self;
        for ask in asks {
            open = open.with_ask(ask)?;
        }
        Ok(open)
    }

    // Adds an entry.
    fn with_entry(self, edit: Edit) -> Result<Packing, AllocError>
        ensures says { IfOk result (λ now. SaysAlso self now [] [] (sum_of (edit ∷ []))) }
        ensures heavier { IfOk result (λ now. IsHeavier self now (content_weight edit.content)) }
        ensures small { IfOk result (λ now. HasRoom self 0 → HasRoom now 0) }
    {
        let mut open = self.with_room(weight_of(&edit.content))?;
        open.store.join_edit(edit)?;
        Ok(open)
    }

    // Adds the entries of a piece.
    fn with_piece(self, piece: &Piece) -> Result<Packing, AllocError>
        ensures says { IfOk result (λ now. SaysAlso self now [] [] piece.now) }
        ensures heavier { IfOk result (λ now. IsHeavier self now (piece_weight piece.now)) }
        ensures small { IfOk result (λ now. HasRoom self 0 → HasRoom now 0) }
    {
        let mut open = self;
        let mut entries = piece.store().entries();
        while let Some(placed) = entries.next_entry() {
            let entry = placed.entry();
            let edit = Edit {
                place: placed.place()?,
                version: entry.version,
                content: entry.content.try_clone()?,
            };
            open = open.with_entry(edit)?;
        }
        Ok(open)
    }

    // Adds the entries of pieces.
    fn with_pieces(self, pieces: Vec<Piece>) -> Result<Packing, AllocError>
        ensures prints { IfOk result (λ now. prints_in now ≡ prints_in self) }
        ensures asks { IfOk result (λ now. asks_in now ≡ asks_in self) }
        ensures pieces { IfOk result (λ now. (s : EntryMap)
            → joined s (pieces_in now) ≡ joined (joined s (pieces_in self)) pieces.items) }
        ensures linked { IfOk result (λ now. (first : _) → IsOpen first self → IsOpen first now) }
        ensures heavier { IfOk result (λ now. GrowsBy self now (total piece_weight pieces.items)) }
        ensures small { IfOk result (λ now. HasRoom self 0 → HasRoom now 0) }
    {
        let mut open = self;
        for piece in pieces {
            open = open.with_piece(&piece)?;
        }
        Ok(open)
    }

    // Ends the open frame, which is the last.
    fn finished(self) -> Result<Vec<Frame>, AllocError>
        ensures prints { IfOk result (λ frames. all_prints frames.items ≡ prints_in self) }
        ensures asks { IfOk result (λ frames. all_asks frames.items ≡ asks_in self) }
        ensures pieces { IfOk result (λ frames. all_pieces frames.items ≡ pieces_in self) }
        ensures frames { IfOk result
            (λ frames. (first : _) → IsOpen first self → AreFrames first frames.items) }
        ensures count { IfOk result
            (λ frames. length frames.items ≡ suc (length self.frames.items)) }
        ensures small { IfOk result (λ frames. HasRoom self 0 → All IsSmall frames.items) }
    {
        let Packing {
            alloc: _,
            mut frames,
            hello,
            prints,
            asks,
            store,
            weight: _,
        } = self;
        frames.push(Frame {
            hello,
            prints,
            asks,
            piece: Piece::from_store(store),
            more: false,
        })?;
        Ok(frames)
    }
}

// At most how many bytes an entry of this content takes.
fn weight_of(content: &Content) -> usize
    ensures weight { result ≡ content_weight content.now }
    ensures small { result ≤ 900_000 }
{
    match content {
        Content::Gone => 700,
        Content::Link(target) => 700 + target.bytes().len(),
        Content::File(file) => 700 + file.bytes().len(),
    }
}
