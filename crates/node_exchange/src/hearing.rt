//! Messages that are heard.
ghost use Rattle.std.specs.Prelude.{◌++◌, ◌≡◌, ◌↔◌, [], false, IfOk, IsErrOf, OnOk, true};
ghost use Rattle.edit_sums.specs.Sums.{join};
ghost use Rattle.node_exchange.specs.{Hearing.{Hears}, Later.{IsLater}};

use crate::faults::ExchangeFault;
use crate::reading::read_next;
use delta_pieces::Piece;
use durable_node::{EditLog, NodeFault, NodeFile};
use exchange_bytes::Frame;
use exchange_session::{RangeAsk, RangePrint};
use script_pipes::Source;
use std::alloc::Global;

// The most frames of a message: more than any store needs that memory holds.
const MOST_FRAMES: u32 = 100_000;

/// What a peer said that is to be answered; what it sent is taken.
pub struct Heard {
    pub prints: Vec<RangePrint>,
    pub asks: Vec<RangeAsk>,
}

impl Drop for Heard {
    fn drop(self) {
        let Heard { prints: _, asks: _ } = self;
    }
}

impl Heard {
    // Nothing yet.
    fn nothing(alloc: Global) -> Heard
        ensures prints { result.prints.items ≡ [] }
        ensures asks { result.asks.items ≡ [] }
    {
        Heard {
            prints: Vec::new(alloc),
            asks: Vec::new(alloc),
        }
    }

    /// Returns whether it asks for no answer.
    pub fn is_quiet(&self) -> bool
        ensures quiet { (result ≡ true)
            ↔ ((self.now.prints.items ≡ []) × (self.now.asks.items ≡ [])) }
    {
        self.prints.is_empty() && self.asks.is_empty()
    }

    /// Takes it apart.
    pub fn into_parts(self) -> (Vec<RangePrint>, Vec<RangeAsk>)
        ensures prints { result.0 ≡ self.prints }
        ensures asks { result.1 ≡ self.asks }
    {
        let Heard { prints, asks } = self;
        (prints, asks)
    }
}

// Takes a piece, and commits with this time what was news.
fn take_piece<L: EditLog>(node: &mut NodeFile<L>, piece: Piece, time: u32) -> Result<(), NodeFault>
    requires whole { node.old.is_spent ≡ false }
    requires saved { node.old.unsaved ≡ [] }
    ensures taken { OnOk result (node.new.replica.store ≡ join node.old.replica.store piece) }
    ensures peers { L.is_honest node.new.log
        → OnOk result (L.peers node.new.log ≡ L.peers node.old.log) }
    ensures later { IsLater L.is_honest L.head L.may_leave node.old node.new }
    ensures whole { OnOk result (node.new.is_spent ≡ false) }
    ensures saved { OnOk result (node.new.unsaved ≡ []) }
{
    node.absorb(piece)?;
    if node.unsaved().is_empty() {
        return Ok(());
    }
    node.commit(time)
}

// Takes what a frame brings, and notes the rest of what it says.
fn take_frame<L: EditLog>(
    node: &mut NodeFile<L>,
    frame: Frame,
    time: u32,
    heard: &mut Heard,
) -> Result<(), ExchangeFault>
    requires whole { node.old.is_spent ≡ false }
    requires saved { node.old.unsaved ≡ [] }
    ensures taken { OnOk result (node.new.replica.store ≡ join node.old.replica.store frame.piece) }
    ensures prints { OnOk result
        (heard.new.prints.items ≡ heard.old.prints.items ++ frame.prints.items) }
    ensures asks { OnOk result (heard.new.asks.items ≡ heard.old.asks.items ++ frame.asks.items) }
    ensures peers { L.is_honest node.new.log
        → OnOk result (L.peers node.new.log ≡ L.peers node.old.log) }
    ensures other { IsErrOf result ExchangeFault.WriterTaken → ⊥ }
    ensures later { IsLater L.is_honest L.head L.may_leave node.old node.new }
    ensures whole { OnOk result (node.new.is_spent ≡ false) }
    ensures saved { OnOk result (node.new.unsaved ≡ []) }
{
    let (_, mut prints, mut asks, piece) = frame.into_parts();
    take_piece(node, piece, time)?;
    heard.prints.append(&mut prints)?;
    heard.asks.append(&mut asks)?;
    Ok(())
}

/// Hears a message whose first frame was read: takes what it brings, each frame's entries committed with this time before
/// the next is read. A later frame that says who the peer is is refused with `Hello`.
pub fn hear<L: EditLog, S: Source>(
    alloc: Global,
    node: &mut NodeFile<L>,
    time: u32,
    source: &mut S,
    first: Frame,
) -> Result<Heard, ExchangeFault>
    requires whole { node.old.is_spent ≡ false }
    requires saved { node.old.unsaved ≡ [] }
    ensures heard { IfOk result
        (λ heard. Hears first node.old.replica.store node.new.replica.store heard.prints.items
        heard.asks.items (S.remaining source.old) (S.remaining source.new)) }
    ensures peers { L.is_honest node.new.log
        → OnOk result (L.peers node.new.log ≡ L.peers node.old.log) }
    ensures other { IsErrOf result ExchangeFault.WriterTaken → ⊥ }
    ensures later { IsLater L.is_honest L.head L.may_leave node.old node.new }
    ensures whole { OnOk result (node.new.is_spent ≡ false) }
    ensures saved { OnOk result (node.new.unsaved ≡ []) }
{
    let mut heard = Heard::nothing(alloc);
    let mut frame = first;
    for _ in 0..MOST_FRAMES {
        let more = frame.more;
        take_frame(node, frame, time, &mut heard)?;
        if !more {
            return Ok(heard);
        }
        frame = read_next(alloc, source)?;
    }
    Err(ExchangeFault::Endless)
}
